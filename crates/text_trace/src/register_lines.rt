ghost use Rattle.std.specs.Prelude.{◌≡◌, ◌++◌, ◌+◌, ◌<◌, MatchResult, OnOk, string_bytes};
ghost use Rattle.text_trace.specs.TraceText.{four_text, register_text, registers_text};

use crate::figures::hex_word;
use arm2_decode::Register;
use arm2_effect::{Mode, mode_of};
use arm2_exec::{Machine, Reg};
use std::alloc::AllocError;
use std::fmt::Write;

// A register and its word, and what ends them.
fn put_register(
    out: &mut String,
    machine: &Machine,
    mode: Mode,
    number: u32,
    end: &str,
) -> Result<(), AllocError>
    requires { number < 16 }
    ensures { OnOk result
        (string_bytes out.new
        ≡ string_bytes out.old ++ (register_text mode machine.now.regs number ++ end.now)) }
{
    let word = hex_word(machine.registers().read(mode, Register::of(number)));
    write!(out, "R{number}={word}{end}")
}

// A line of four registers.
fn put_four(out: &mut String, machine: &Machine, mode: Mode, first: u32) -> Result<(), AllocError>
    requires { first + 3 < 16 }
    ensures { OnOk result
        (string_bytes out.new ≡ string_bytes out.old ++ four_text mode machine.now.regs first) }
{
    put_register(out, machine, mode, first, " ")?;
    put_register(out, machine, mode, first + 1, " ")?;
    put_register(out, machine, mode, first + 2, " ")?;
    put_register(out, machine, mode, first + 3, "\n")
}

fn put_registers(out: &mut String, machine: &Machine) -> Result<(), AllocError>
    ensures { OnOk result (string_bytes out.new ≡ string_bytes out.old ++ registers_text machine.now.regs) }
{
    let mode = mode_of(machine.get(Reg::R15));
    put_four(out, machine, mode, 0)?;
    put_four(out, machine, mode, 4)?;
    put_four(out, machine, mode, 8)?;
    put_four(out, machine, mode, 12)
}

/// Adds the sixteen registers of the mode in R15, four in a line, each with its word in eight hexadecimal
/// digits. R15 comes with its flags and mode.
///
/// # Errors
///
/// An allocation failed; the text is then as it was.
pub fn write_registers(out: &mut String, machine: &Machine) -> Result<(), AllocError>
    ensures { MatchResult result
        (λ _. string_bytes out.new ≡ string_bytes out.old ++ registers_text machine.now.regs)
        (λ _. string_bytes out.new ≡ string_bytes out.old) }
{
    let mut text = String::new(*out.allocator());
    put_registers(&mut text, machine)?;
    out.push_str(text.as_str())
}
