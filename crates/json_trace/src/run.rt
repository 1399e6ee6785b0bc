//! The lines of a run.

ghost use Rattle.std.specs.Prelude.{◌≡◌, ◌++◌, ◌≤◌, ◌<◌, ◌^◌, IfOk, IfSome, OnOk, length, option_map};
ghost use Rattle.std.specs.Prelude.{string_bytes};
ghost use Rattle.arm2_exec.specs.Run.{IsWithin, Runs};
ghost use Rattle.arm2_exec.specs.Step.{Step};
ghost use Rattle.asm_text.specs.Appended.{Appends};
ghost use Rattle.json_trace.specs.Records.{RecordsRun, end_line, facts_of, ticks_passed};
ghost use Rattle.json_trace.specs.Facts.{facts_with};
ghost use Rattle.text_trace.specs.TraceText.{why_name};

use crate::registers::words_of;
use crate::step_line::{StepRecord, put_step};
use crate::transfers::planned;
use crate::values::{name_value, word_or_null};
use arm2_effect::Why;
use arm2_exec::{Input, Kind, Machine, Ran, Stepped};
use bus_ticks::Profile;
use std::alloc::AllocError;
use std::fmt::Write;
use text_trace::why_name;

// The ticks that pass in a step, with those of its bursts; none in a stopped one.
fn passed_in(profile: &Profile, input: Input, stepped: Stepped) -> u64
    requires { stepped.ticks < 2 ^ 16 }
    ensures passed { result ≡ ticks_passed profile.now.burst input stepped }
    ensures few { result < 2 ^ 33 }
{
    match stepped.kind {
        Kind::Stopped(_) => 0,
        Kind::Plain | Kind::Taken(_) => {
            u64::from(stepped.ticks) + u64::from(profile.burst_ticks(input.bursts))
        }
    }
}

/// Steps a machine, after the steps of a run, and returns what is shown of the step.
pub fn step_recorded(machine: &mut Machine, input: Input, ran: &Ran) -> StepRecord
    requires { IsWithin (2 ^ 63) ran.now }
    ensures step { (step : Step machine.old input result.traced.stepped machine.new)
        × (facts_with result machine.new
        ≡ facts_of ran.now.steps ran.now.elapsed machine.old input result.traced.stepped machine.new step) }
    ensures bound { result.traced.stepped.ticks < 2 ^ 16 }
{
    let before = words_of(machine.registers());
    let transfers = planned(machine);
    let profile = machine.profile();
    let traced = machine.step_traced(input);
    StepRecord {
        number: ran.steps,
        elapsed: ran.elapsed + u128::from(passed_in(&profile, input, traced.stepped)),
        traced,
        transfers,
        lines: input.lines,
        before,
    }
}

/// Steps a machine, once for each input up to the first step that is stopped, and adds the lines of these
/// steps.
///
/// # Errors
///
/// An allocation failed. The machine has then made some of the steps, and the text ends with a front of their
/// lines.
pub fn write_records(
    out: &mut String,
    machine: &mut Machine,
    inputs: &[Input],
) -> Result<Ran, AllocError>
    ensures runs { IfOk result (λ ran. Runs machine.old inputs.now ran machine.new) }
    ensures text { OnOk result
        (Appends (RecordsRun machine.old inputs.now) (string_bytes out.old) (string_bytes out.new)) }
{
    let mut ran = Ran::new();
    for input in inputs {
        let profile = machine.profile();
        let made = step_recorded(machine, *input, &ran);
        put_step(out, &made, machine)?;
        let stepped = made.traced.stepped;
        if let Kind::Stopped(why) = stepped.kind {
            ran.stopped = Some(why);
            return Ok(ran);
        }
        ran.count(&profile, *input, stepped);
    }
    Ok(ran)
}

// Why a run stopped, as a value of JSON.
fn stop_name(stopped: Option<Why>) -> Option<&'static str>
    ensures name { option_map (λ n. n.now) result ≡ option_map why_name stopped }
    ensures short { IfSome result (λ n. length n.now ≤ 16) }
{
    match stopped {
        Some(why) => Some(why_name(why)),
        None => None,
    }
}

/// Adds the line of a run's end: its steps, their ticks, why the machine stopped, and the address of the
/// instruction that is next.
///
/// # Errors
///
/// An allocation failed; the text then ends with a front of the line.
pub fn put_end(out: &mut String, machine: &Machine, ran: &Ran) -> Result<(), AllocError>
    ensures { OnOk result (string_bytes out.new ≡ string_bytes out.old ++ end_line ran.now machine.now) }
{
    let steps = ran.steps;
    let ticks = ran.ticks;
    let elapsed = ran.elapsed;
    let stopped = name_value(stop_name(ran.stopped));
    let next = word_or_null(Some(machine.address()));
    write!(
        out,
        "{{\"steps\":{steps},\"ticks\":{ticks},\"elapsed\":{elapsed},\"stopped\":{stopped},\"next\":{next}}}\n"
    )
}
