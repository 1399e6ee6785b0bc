ghost use Rattle.std.specs.Prelude.{◌≡◌};
ghost use Rattle.bus_ticks.specs.Worst.{fiq_entry_price};
ghost use Rattle.arm2_exec.specs.Kept.{KeepsTheRest, interrupted_in};
ghost use Rattle.arm2_exec.specs.State.{State};
ghost use Rattle.arm2_exec.specs.Step.{HasOneOutcome, Step};

use crate::machine::{Input, Machine, Stepped};
use arm2_decode::decode;
use arm2_effect::{Kind, Vector};

impl Machine {
    /// Every state and input have exactly one outcome.
    pub fn one_outcome(&self, input: Input)
        ensures { HasOneOutcome self.now input }
    {
        if let Some(word) = self.fetched() {
            let _instruction = decode(word);
        }
    }
}

/// States what a step keeps that takes an exception: memory, and every register but R14 and R15 of the
/// exception's mode.
///
/// So a transfer that is reported as aborted, or as one whose address is past memory, has moved no word and
/// written back no base. The devices get what they get in any step, the lines and the time. It does nothing.
pub fn exceptions_keep_the_rest()
    ensures { (s : State) → (i : Input) → (stepped : Stepped) → (after : State) → (vector : Vector)
        → Step s i stepped after → stepped.kind ≡ Kind.Taken vector → KeepsTheRest vector s i stepped after }
{}

/// States what a step costs that takes FIQ, in ticks: the fetch 8 bytes after the interrupted address, and
/// the two at FIQ's vector, by the prices and the time fields of ROM before it. It does nothing.
pub fn fiq_costs_its_entry()
    ensures { (s : State) → (i : Input) → (stepped : Stepped) → (after : State) → Step s i stepped after
        → stepped.kind ≡ Kind.Taken Vector.Fiq
        → stepped.ticks ≡ fiq_entry_price s.profile (interrupted_in s) }
{}
