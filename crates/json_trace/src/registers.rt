//! The registers that a step changed.

ghost use Rattle.std.specs.Prelude.{◌≡◌, ◌<◌, ◌≤◌, ◌-◌, ◌++◌, OnOk, codes, string_bytes};
ghost use Rattle.json_trace.specs.Json.{ended, member};
ghost use Rattle.json_trace.specs.StepLine.{bank_suffix, changed, if_changed, registers_value};

use crate::values::word_or_null;
use arm2_decode::Register;
use arm2_effect::{Mode, Reg, Registers, slot_of};
use std::alloc::AllocError;
use std::fmt::Write;

/// The words of all 27 registers, in the order of [`Reg`].
pub type Words = [u32; 27];

/// The words of the registers.
pub fn words_of(registers: &Registers) -> Words
    ensures { result ≡ registers.now }
{
    [
        registers.get(Reg::R0),
        registers.get(Reg::R1),
        registers.get(Reg::R2),
        registers.get(Reg::R3),
        registers.get(Reg::R4),
        registers.get(Reg::R5),
        registers.get(Reg::R6),
        registers.get(Reg::R7),
        registers.get(Reg::R8),
        registers.get(Reg::R9),
        registers.get(Reg::R10),
        registers.get(Reg::R11),
        registers.get(Reg::R12),
        registers.get(Reg::R13),
        registers.get(Reg::R14),
        registers.get(Reg::R8Fiq),
        registers.get(Reg::R9Fiq),
        registers.get(Reg::R10Fiq),
        registers.get(Reg::R11Fiq),
        registers.get(Reg::R12Fiq),
        registers.get(Reg::R13Fiq),
        registers.get(Reg::R14Fiq),
        registers.get(Reg::R13Irq),
        registers.get(Reg::R14Irq),
        registers.get(Reg::R13Svc),
        registers.get(Reg::R14Svc),
        registers.get(Reg::R15),
    ]
}

/// What ends the names of the registers of a mode's own bank.
pub fn bank_suffix(mode: Mode) -> &'static str
    ensures { result.now ≡ bank_suffix mode }
{
    match mode {
        Mode::User => "",
        Mode::Fiq => "_fiq",
        Mode::Irq => "_irq",
        Mode::Svc => "_svc",
    }
}

// A register with its word, and a comma, where the step changed it.
fn put_if_changed(
    out: &mut String,
    before: &Words,
    after: &Registers,
    mode: Mode,
    number: u32,
) -> Result<(), AllocError>
    requires { number < 16 }
    ensures { OnOk result
        (string_bytes out.new
        ≡ string_bytes out.old ++ ended (if_changed mode before.now after.now number)) }
{
    let register = Register::of(number);
    let word = after.read(mode, register);
    if before[slot_of(mode, register)] == word {
        return Ok(());
    }
    let suffix = bank_suffix(mode);
    let value = word_or_null(Some(word));
    write!(out, "\"R{number}{suffix}\":{value},")
}

// The registers of a mode, from one on up to R14, that the step changed.
fn put_bank(
    out: &mut String,
    before: &Words,
    after: &Registers,
    mode: Mode,
    first: u32,
) -> Result<(), AllocError>
    requires { first ≤ 15 }
    ensures { OnOk result
        (string_bytes out.new
        ≡ string_bytes out.old ++ ended (changed mode before.now after.now first (15 - first))) }
{
    for k in 0..15 - first {
        put_if_changed(out, before, after, mode, first + k)?;
    }
    Ok(())
}

// R15 as the last register of an object.
fn put_last(out: &mut String, value: &str) -> Result<(), AllocError>
    ensures { OnOk result
        (string_bytes out.new
        ≡ string_bytes out.old ++ (member (codes "R15") value.now ++ codes "}")) }
{
    write!(out, "\"R15\":{value}}}")
}

/// Adds the registers that a step changed, as an object.
///
/// An error says that an allocation failed; the text is then a front of what was to be added.
pub(crate) fn put_registers(
    out: &mut String,
    before: &Words,
    after: &Registers,
) -> Result<(), AllocError>
    ensures { OnOk result
        (string_bytes out.new ≡ string_bytes out.old ++ registers_value before.now after.now) }
{
    out.push_str("{")?;
    put_bank(out, before, after, Mode::User, 0)?;
    put_bank(out, before, after, Mode::Fiq, 8)?;
    put_bank(out, before, after, Mode::Irq, 13)?;
    put_bank(out, before, after, Mode::Svc, 13)?;
    let value = word_or_null(Some(after.get(Reg::R15)));
    put_last(out, value.as_str())?;
    Ok(())
}
