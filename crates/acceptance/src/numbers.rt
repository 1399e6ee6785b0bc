//! Numbers that look like random ones, the same in each run.

/// What the next number is made from.
#[derive(Drop)]
pub(crate) struct Numbers {
    state: u64,
}

impl Numbers {
    /// The numbers that follow a seed.
    pub(crate) fn new(seed: u64) -> Numbers {
        Numbers { state: seed }
    }

    /// A number below the limit.
    pub(crate) fn below(&mut self, limit: u32) -> u32 {
        self.state = self
            .state
            .wrapping_mul(6_364_136_223_846_793_005)
            .wrapping_add(1_442_695_040_888_963_407);
        let high = (self.state >> 33) as u32;
        if limit == 0 { 0 } else { high % limit }
    }
}
