//! What a run counts, step by step: in fewer bits than `Ran`, since each of a session's steps adds
//! to it.

ghost use Rattle.std.specs.Prelude.{◌≡◌, ◌+◌, ◌<◌, ◌^◌, ℕ, None, Some};
ghost use Rattle.arm2_exec.specs.Run.{IsWithin, at_rest, with_one_step};

use arm2_exec::{Input, Machine, Ran, Stepped, Why};
use std::marker::Model;

/// The sums of a run of at most 2^32 steps.
#[derive(Drop)]
pub(crate) struct Tally {
    steps: u64,
    ticks: u64,
    // The ticks of DMA bursts, which few steps have.
    stretched: u128,
    stopped: Option<Why>,
}

impl Model for Tally {
    ghost use Rattle.std.specs.Prelude.{◌+◌, ◌<◌, ◌^◌};
    ghost use Rattle.arm2_exec.specs.declared.machine.Ran.{Ran};

    ghost Value = { Ran };

    ghost view = { λ t. record {
      steps = t.steps;
      ticks = t.ticks;
      elapsed = t.ticks + t.stretched;
      stopped = t.stopped;
    } };

    ghost invariant = { λ t. t.ticks + t.stretched < 2 ^ 128 };
}

impl Tally {
    /// Before the first step.
    pub(crate) fn new() -> Tally
        ensures { result ≡ at_rest None }
    {
        Tally {
            steps: 0,
            ticks: 0,
            stretched: 0,
            stopped: None,
        }
    }

    /// The counts of the run.
    pub(crate) fn counts(&self) -> Ran
        ensures { result ≡ self.now }
    {
        let ticks = u128::from(self.ticks);
        Ran {
            steps: self.steps,
            ticks,
            elapsed: ticks + self.stretched,
            stopped: self.stopped,
        }
    }

    /// A step is stopped.
    pub(crate) fn stop(&mut self, why: Why)
        ensures { self.new ≡ record self.old { stopped = Some why } }
    {
        self.stopped = Some(why);
    }

    /// A step that the machine made is counted.
    #[inline(always)]
    pub(crate) fn count(&mut self, machine: &Machine, input: Input, stepped: Stepped)
        requires within { IsWithin (2 ^ 32) self.old }
        requires small { stepped.ticks < 2 ^ 16 }
        ensures step { self.new ≡ with_one_step machine.now.profile.burst input stepped self.old }
        ensures bound { (made : ℕ) → IsWithin made self.old → IsWithin (made + 1) self.new }
    {
        self.steps += 1;
        self.ticks += u64::from(stepped.ticks);
        if input.bursts > 0 {
            self.stretched += u128::from(machine.profile().burst_ticks(input.bursts));
        }
    }
}
