//! The line of a step.

ghost use Rattle.std.specs.Prelude.{◌≡◌, ◌++◌, List, ℕ, OnOk, codes, string_bytes};
ghost use Rattle.asm_text.specs.Appended.{Appends};
ghost use Rattle.json_trace.specs.Facts.{carried, facts_with};
ghost use Rattle.json_trace.specs.Planned.{moved_words};
ghost use Rattle.json_trace.specs.Json.{ended, quoted, separated};
ghost use Rattle.json_trace.specs.StepLine.{IsStepLine, IsTextValue, bus_members, fetched_members};
ghost use Rattle.json_trace.specs.StepLine.{instruction_members, line_members, mode_members};
ghost use Rattle.json_trace.specs.StepLine.{outcome_members, processor_members, time_members};

use crate::moved_words::Transfers;
use crate::registers::{Words, put_registers};
use crate::transfers::put_transfers;
use crate::values::{
    boolean, exception_of, flags_text, is_done, mode_name, name_value, stop_of, text_value,
    word_or_null,
};
use arm2_effect::{Kind, Reg, mode_of};
use arm2_exec::{Machine, Traced};
use bitflags::Flags;
use ioc::{Asserted, Lines};
use std::alloc::AllocError;
use std::fmt::Write;

/// What is shown of a step, beside the machine after it.
#[derive(Clone, Copy)]
pub struct StepRecord {
    /// The steps of the run before it.
    pub number: u64,
    /// The ticks of the run when it ends, with those of bursts.
    pub elapsed: u128,
    pub traced: Traced,
    /// What it moves where it takes no exception and does not stop.
    pub transfers: Option<Transfers>,
    /// The interrupt lines during the step.
    pub lines: Lines,
    /// The registers before it.
    pub before: Words,
}

// The members of the instruction, each with a comma.
fn put_instruction(out: &mut String, step: &StepRecord, machine: &Machine) -> Result<(), AllocError>
    ensures { OnOk result
        (Appends (λ part. (text : List ℕ) × IsTextValue step.now.traced.word step.now.traced.stepped.from text
        × (part ≡ ended (instruction_members (facts_with step.now machine.now) text)))
        (string_bytes out.old) (string_bytes out.new)) }
{
    let stepped = step.traced.stepped;
    let text = text_value(step.traced.word, stepped.from);
    put_fetched(out, step, text.as_str())?;
    let done = is_done(step.traced.word, step.before[26], stepped.kind);
    put_outcome(out, stepped.kind, done)?;
    Ok(())
}

// Of these the step's number and what it fetched.
fn put_fetched(out: &mut String, step: &StepRecord, text: &str) -> Result<(), AllocError>
    ensures { OnOk result
        (string_bytes out.new
        ≡ string_bytes out.old
        ++ ended (fetched_members step.now.number step.now.traced.stepped.from step.now.traced.word text.now)) }
{
    let number = step.number;
    let from = word_or_null(Some(step.traced.stepped.from));
    let word = word_or_null(step.traced.word);
    write!(
        out,
        "\"step\":{number},\"pc\":{from},\"word\":{word},\"text\":{text},"
    )
}

// And what came of it.
fn put_outcome(out: &mut String, kind: Kind, done: bool) -> Result<(), AllocError>
    ensures { OnOk result
        (string_bytes out.new ≡ string_bytes out.old ++ ended (outcome_members kind done)) }
{
    let exception = name_value(exception_of(kind));
    let stopped = name_value(stop_of(kind));
    let done = boolean(done);
    write!(
        out,
        "\"exception\":{exception},\"stopped\":{stopped},\"done\":{done},"
    )
}

// The mode and the flags, and the name of what follows.
fn put_mode(out: &mut String, mode: &str, flags: &str) -> Result<(), AllocError>
    ensures { OnOk result
        (string_bytes out.new
        ≡ string_bytes out.old
        ++ (ended (mode_members mode.now flags.now) ++ (quoted (codes "registers") ++ codes ":"))) }
{
    write!(
        out,
        "\"mode\":\"{mode}\",\"flags\":\"{flags}\",\"registers\":"
    )
}

// The members of the processor, each with a comma.
fn put_processor(out: &mut String, step: &StepRecord, machine: &Machine) -> Result<(), AllocError>
    ensures { OnOk result
        (string_bytes out.new
        ≡ string_bytes out.old ++ ended (processor_members (facts_with step.now machine.now))) }
{
    let r15 = machine.get(Reg::R15);
    let mode = mode_name(mode_of(r15));
    let flags = flags_text(r15);
    put_mode(out, mode, flags.as_str())?;
    put_registers(out, &step.before, machine.registers())?;
    out.push_str(",")?;
    Ok(())
}

// What a step moved: nothing, where it took an exception or stopped.
fn carried(step: &StepRecord) -> Option<Transfers>
    ensures { moved_words result ≡ carried step.now.traced.stepped.kind step.now.transfers }
{
    match step.traced.stepped.kind {
        Kind::Plain => step.transfers,
        Kind::Taken(_) | Kind::Stopped(_) => None,
    }
}

// The interrupt lines, and what IOC asserts.
fn put_lines(out: &mut String, lines: u32, asserted: Asserted) -> Result<(), AllocError>
    ensures { OnOk result
        (string_bytes out.new
        ≡ string_bytes out.old ++ (codes "," ++ ended (line_members lines asserted.fiq asserted.irq))) }
{
    let lines = word_or_null(Some(lines));
    let fiq = boolean(asserted.fiq);
    let irq = boolean(asserted.irq);
    write!(out, ",\"lines\":{lines},\"fiq\":{fiq},\"irq\":{irq},")
}

// The members of the bus, each with a comma.
fn put_bus(out: &mut String, step: &StepRecord, machine: &Machine) -> Result<(), AllocError>
    ensures { OnOk result
        (string_bytes out.new
        ≡ string_bytes out.old ++ ended (bus_members (facts_with step.now machine.now))) }
{
    out.push_str("\"transfers\":")?;
    put_transfers(out, step.traced.word, machine.memc(), carried(step))?;
    put_lines(out, step.lines.bits(), machine.ioc().asserted())?;
    Ok(())
}

// The members of the time.
fn put_time(out: &mut String, step: &StepRecord) -> Result<(), AllocError>
    ensures { OnOk result
        (string_bytes out.new
        ≡ string_bytes out.old
        ++ separated (time_members step.now.traced.stepped step.now.elapsed)) }
{
    let ticks = step.traced.stepped.ticks;
    let elapsed = step.elapsed;
    let next = word_or_null(Some(step.traced.stepped.to));
    write!(
        out,
        "\"ticks\":{ticks},\"elapsed\":{elapsed},\"next\":{next}"
    )
}

/// Adds the line of a step: an object, and the line's end.
///
/// # Errors
///
/// An allocation failed; the text then ends with a front of the line.
pub fn put_step(out: &mut String, step: &StepRecord, machine: &Machine) -> Result<(), AllocError>
    ensures { OnOk result
        (Appends (IsStepLine (facts_with step.now machine.now)) (string_bytes out.old) (string_bytes out.new)) }
{
    out.push_str("{")?;
    put_instruction(out, step, machine)?;
    put_processor(out, step, machine)?;
    put_bus(out, step, machine)?;
    put_time(out, step)?;
    out.push_str("}\n")?;
    Ok(())
}
