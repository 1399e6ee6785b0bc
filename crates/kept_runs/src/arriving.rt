//! When a run first comes to an address.

ghost use Rattle.std.specs.Prelude.{◌≡◌, is_some, MatchOption};
ghost use Rattle.arm2_exec.specs.Run.{why_stopped};
ghost use Rattle.control_flow.specs.Flow.{Flow};
ghost use Rattle.kept_runs.specs.Arriving.{ArrivesAfter, NeverArrives};
ghost use Rattle.kept_runs.specs.Judging.{IsMachineFor};

use arm2_exec::{Input, Kind, Machine};

fn is_stopped(kind: Kind) -> bool
    ensures { result ≡ is_some (why_stopped kind) }
{
    match kind {
        Kind::Stopped(_) => true,
        Kind::Plain | Kind::Taken(_) => false,
    }
}

/// Makes steps, one for each input, until the machine is at an address, in bytes: how many that takes. `None`
/// where after none of them, however many, it is there, or the machine stops before; then all steps up to
/// that have been made.
///
/// A step takes constant time, and no memory.
pub fn arrive(machine: &mut Machine, address: u32, inputs: &[Input]) -> Option<usize>
    ensures arrives { MatchOption result (NeverArrives address machine.old inputs.now)
        (λ steps. ArrivesAfter address machine.old inputs.now steps machine.new) }
    ensures machine { (flow : Flow) → IsMachineFor flow machine.old → IsMachineFor flow machine.new }
{
    let mut steps = 0;
    for input in inputs {
        if machine.address() == address {
            return Some(steps);
        }
        let stepped = machine.step(*input);
        if is_stopped(stepped.kind) {
            return None;
        }
        steps += 1;
    }
    if machine.address() == address {
        Some(steps)
    } else {
        None
    }
}
