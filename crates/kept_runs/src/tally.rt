//! What a run does at each place of its flow graph.

ghost use Rattle.std.specs.Prelude.{◌≡◌, ◌+◌, ◌<◌, ◌^◌, length, slice_index_or};
ghost use Rattle.kept_runs.specs.Passing.{counted, nothing, with_step};

/// What a run does at a place.
#[derive(Clone, Copy, Debug, PartialEq, Eq)]
pub struct Passed {
    /// How many of its steps begin there.
    pub passes: u64,
    /// How many of these steps do their instruction, as its condition holds.
    pub done: u64,
    /// The processor ticks of these steps, without those of DMA bursts.
    pub ticks: u128,
}

impl Passed {
    /// Of a place where no step begins.
    pub const NOTHING: Passed = Passed {
        passes: 0,
        done: 0,
        ticks: 0,
    };

    fn with_step(self, done: bool, ticks: u32) -> Passed
        requires few { (self.passes + 1 < 2 ^ 64) × (self.done + 1 < 2 ^ 64) }
        requires small { self.ticks + ticks < 2 ^ 128 }
        ensures { result ≡ with_step self done ticks }
    {
        Passed {
            passes: self.passes + 1,
            done: self.done + u64::from(done),
            ticks: self.ticks + u128::from(ticks),
        }
    }
}

/// Counts a step that begins at the place, and whether it does its instruction.
pub(crate) fn count(by_place: &mut Vec<Passed>, place: usize, done: bool, ticks: u32)
    requires known { place < length by_place.old.items }
    requires few { ((slice_index_or by_place.old.items place nothing).passes + 1 < 2 ^ 64)
        × ((slice_index_or by_place.old.items place nothing).done + 1 < 2 ^ 64) }
    requires small { (slice_index_or by_place.old.items place nothing).ticks + ticks < 2 ^ 128 }
    ensures { by_place.new.items ≡ counted by_place.old.items place done ticks }
{
    by_place[place] = by_place[place].with_step(done, ticks);
}
