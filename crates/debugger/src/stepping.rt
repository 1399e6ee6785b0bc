ghost use Rattle.std.specs.Prelude.{◌≡◌, ◌+◌, ◌*◌, ◌^◌, ◌≤◌, ℕ, List, MatchOption, OnSome, length};
ghost use Rattle.std.specs.Prelude.{vec_capacity};
ghost use Rattle.arm2_exec.specs.Run.{IsWithin, Runs};
ghost use Rattle.arm2_exec.specs.declared.machine.Traced.{Traced};
ghost use Rattle.asm_text.specs.Appended.{Appends};
ghost use Rattle.text_trace.specs.TraceText.{TracesRun};
ghost use Rattle.debugger.specs.SessionState.{without_bursts};
ghost use Rattle.debugger.specs.Stepping.{Counts, Stops};
ghost use Rattle.debugger.specs.Watching.{IsLast, Watches, as_shown, inputs_of, is_at_break};

use crate::printed::put_trace;
use crate::tally::Tally;
use arm2_exec::{Input, Kind, Machine, Ran, Stepped, Traced};
use text_trace::LINE_ROOM;

/// What a run reports, and the last of its steps, as its line shows it.
#[derive(Clone, Copy)]
pub(crate) struct Watched {
    pub(crate) ran: Ran,
    /// None where no step was made.
    pub(crate) last: Option<Traced>,
}

fn is_at_break(breaks: &[u32], machine: &Machine) -> bool
    ensures { result ≡ is_at_break breaks.now machine.now }
{
    let address = machine.address();
    breaks.iter().any(|a| *a == address)
}

// Makes a step and counts it; its bursts are left out of the input of the next. None where it is stopped,
// which the run then reports.
#[inline(always)]
fn advance(machine: &mut Machine, input: &mut Input, ran: &mut Tally) -> Option<Traced>
    requires { IsWithin (2 ^ 32) ran.old }
    ensures stepped { MatchOption result (Stops machine.old input.old ran.old ran.new machine.new)
        (λ traced. Counts machine.old input.old ran.old traced ran.new machine.new) }
    ensures input { OnSome result (input.new ≡ without_bursts input.old) }
    ensures bound { (made : ℕ) → IsWithin made ran.old → IsWithin (made + 1) ran.new }
{
    let traced = machine.step_traced(*input);
    if let Kind::Stopped(why) = traced.stepped.kind {
        ran.stop(why);
        return None;
    }
    ran.count(machine, *input, traced.stepped);
    input.bursts = 0;
    Some(traced)
}

/// Steps a machine up to so many times, up to a step that is stopped, and adds the lines of its steps in room
/// that was taken. The bursts of the first input are those of the first step alone.
pub(crate) fn put_steps(out: &mut Vec<u8>, machine: &mut Machine, first: Input, steps: u32) -> Ran
    requires { length out.old.items + steps * LINE_ROOM ≤ vec_capacity out.old }
    ensures runs { Runs machine.old (inputs_of first steps) result machine.new }
    ensures text { Appends (TracesRun machine.old (inputs_of first steps)) out.old.items out.new.items }
{
    let mut ran = Tally::new();
    let mut input = first;
    for made in 0..steps {
        let Some(traced) = advance(machine, &mut input, &mut ran) else {
            return ran.counts();
        };
        put_trace(out, &traced);
    }
    ran.counts()
}

// What the line of a step shows: less is kept of each step.
fn as_shown(traced: Traced) -> Traced
    ensures { result ≡ as_shown traced }
{
    Traced {
        stepped: Stepped {
            to: 0,
            ..traced.stepped
        },
        ..traced
    }
}

fn ended(ran: &Tally, last: Option<Traced>) -> Watched
    ensures { result ≡ (record { ran = ran.now; last = last }) }
{
    Watched {
        ran: ran.counts(),
        last,
    }
}

/// Steps a machine up to so many times: up to a step that is stopped, and after each step to a breakpoint.
/// The bursts of the first input are those of the first step alone.
pub(crate) fn run_watched(
    machine: &mut Machine,
    breaks: &[u32],
    first: Input,
    steps: u32,
) -> Watched
    ensures { (made : List Traced)
        × Watches breaks.now machine.old (inputs_of first steps) made result.ran machine.new
        × IsLast made result.last }
{
    let mut ran = Tally::new();
    let mut last = None;
    let mut input = first;
    for made in 0..steps {
        let Some(traced) = advance(machine, &mut input, &mut ran) else {
            return ended(&ran, last);
        };
        last = Some(as_shown(traced));
        if is_at_break(breaks, machine) {
            return ended(&ran, last);
        }
    }
    ended(&ran, last)
}
