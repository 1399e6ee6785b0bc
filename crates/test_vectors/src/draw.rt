//! Numbers that are drawn.

ghost use Rattle.std.specs.Prelude.{◌≡◌, ◌<◌};

use rand_core::Rng;
use rand_pcg::Pcg32;

/// The draws of one vector: the words of PCG32 from the seed, on the stream of the vector's number. So a
/// vector depends on the seed and its number alone.
#[derive(Drop)]
pub(crate) struct Draw {
    rng: Pcg32,
}

impl Draw {
    pub(crate) fn new(seed: u32, number: u32) -> Draw {
        Draw {
            rng: Pcg32::new(u64::from(seed), u64::from(number)),
        }
    }

    /// A word.
    pub(crate) fn word(&mut self) -> u32 {
        self.rng.next_u32()
    }

    /// A number below another.
    pub(crate) fn below(&mut self, end: u32) -> u32
        requires { 0 < end }
        ensures { result < end }
    {
        self.rng.next_u32() % end
    }

    /// One of two.
    pub(crate) fn bit(&mut self) -> bool {
        self.below(2) == 1
    }
}
