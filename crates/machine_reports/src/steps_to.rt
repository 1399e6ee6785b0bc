//! Runs that end before the instruction at an address.

ghost use Rattle.std.specs.Prelude.{◌≡◌, ℕ, IfOk, string_bytes};
ghost use Rattle.asm_text.specs.Appended.{Appends};
ghost use Rattle.machine_reports.specs.Machine.{ShowsRecords, ShowsRegisters, ShowsSteps};
ghost use Rattle.machine_reports.specs.RunTo.{RunsTo, ShowsRunTo};

use arm2_exec::{Input, Kind, Machine, Ran};
use json_trace::{put_step, step_recorded};
use std::alloc::AllocError;
use text_trace::{trace_line, write_registers};

// Steps a machine, once for each input, up to the first step that is stopped, and before that up to the
// first state in which the instruction at the address is next: the one before the first step too.
fn run_to(machine: &mut Machine, inputs: &[Input], to: u32) -> Ran
    ensures { (steps : ℕ) × RunsTo to machine.old inputs.now steps result machine.new }
{
    let mut ran = Ran::new();
    for input in inputs {
        if machine.address() == to {
            return ran;
        }
        let profile = machine.profile();
        let stepped = machine.step(*input);
        if let Kind::Stopped(why) = stepped.kind {
            ran.stopped = Some(why);
            return ran;
        }
        ran.count(&profile, *input, stepped);
    }
    ran
}

/// Runs a machine up to the first state in which the instruction at the address is next, and adds the
/// registers in which the run ends. `AllocError`: an allocation failed.
pub(crate) fn write_registers_to(
    out: &mut String,
    machine: &mut Machine,
    inputs: &[Input],
    to: u32,
) -> Result<Ran, AllocError>
    ensures { IfOk result
        (λ ran. Appends (ShowsRunTo ShowsRegisters to machine.old inputs.now ran machine.new)
        (string_bytes out.old) (string_bytes out.new)) }
{
    let ran = run_to(machine, inputs, to);
    write_registers(out, machine)?;
    Ok(ran)
}

/// The same with a line for each step in place of the registers.
pub(crate) fn write_run_to(
    out: &mut String,
    machine: &mut Machine,
    inputs: &[Input],
    to: u32,
) -> Result<Ran, AllocError>
    ensures { IfOk result
        (λ ran. Appends (ShowsRunTo ShowsSteps to machine.old inputs.now ran machine.new)
        (string_bytes out.old) (string_bytes out.new)) }
{
    let mut ran = Ran::new();
    for input in inputs {
        if machine.address() == to {
            return Ok(ran);
        }
        let profile = machine.profile();
        let traced = machine.step_traced(*input);
        if let Kind::Stopped(why) = traced.stepped.kind {
            ran.stopped = Some(why);
            return Ok(ran);
        }
        out.push_str(trace_line(&traced).as_str())?;
        ran.count(&profile, *input, traced.stepped);
    }
    Ok(ran)
}

/// The same with a line of JSON for each step.
pub(crate) fn write_records_to(
    out: &mut String,
    machine: &mut Machine,
    inputs: &[Input],
    to: u32,
) -> Result<Ran, AllocError>
    ensures { IfOk result
        (λ ran. Appends (ShowsRunTo ShowsRecords to machine.old inputs.now ran machine.new)
        (string_bytes out.old) (string_bytes out.new)) }
{
    let mut ran = Ran::new();
    for input in inputs {
        if machine.address() == to {
            return Ok(ran);
        }
        let profile = machine.profile();
        let made = step_recorded(machine, *input, &ran);
        put_step(out, &made, machine)?;
        let stepped = made.traced.stepped;
        if let Kind::Stopped(why) = stepped.kind {
            ran.stopped = Some(why);
            return Ok(ran);
        }
        ran.count(&profile, *input, stepped);
    }
    Ok(ran)
}
