ghost use Rattle.std.specs.Prelude.{◌≡◌};
ghost use Rattle.std.specs.List.{list_all};
ghost use Rattle.toml.specs.View.{table_view, view};
ghost use Rattle.machine_file.specs.MachineFile.{flags_at, flags_in, flags_of_letters, has};
ghost use Rattle.machine_file.specs.MachineFile.{is_letter, is_single};
ghost use Rattle.machine_file.specs.MachineFile.{set_flags, times};

use crate::machine_faults::{MachineFileFault, Read};
use toml::{Table, Value};
use toml_reading::{required, value_at};

/// The flags of R15, with the masks of both interrupts.
#[derive(Clone, Copy, Debug, PartialEq, Eq)]
pub struct PsrFlags {
    pub negative: bool,
    pub zero: bool,
    pub carry: bool,
    pub overflow: bool,
    pub irq_masked: bool,
    pub fiq_masked: bool,
}

// Their letters.
const LETTERS: &[u8] = b"NZCVIF";

fn times(letter: u8, text: &[u8]) -> usize
    ensures { result ≡ times letter text.now }
{
    text.iter().filter(|x| **x == letter).count()
}

fn has(text: &[u8], letter: u8) -> bool
    ensures { result ≡ has text.now letter }
{
    times(letter, text) != 0
}

fn is_letter(letter: u8) -> bool
    ensures { result ≡ is_letter letter }
{
    has(LETTERS, letter)
}

pub(crate) fn are_letters(text: &[u8]) -> bool
    ensures { result ≡ list_all is_letter text.now }
{
    text.iter().all(|letter| is_letter(*letter))
}

pub(crate) fn is_single(text: &[u8]) -> bool
    ensures { result ≡ is_single text.now }
{
    LETTERS.iter().all(|letter| times(*letter, text) <= 1)
}

fn set_flags(text: &[u8]) -> PsrFlags
    ensures { result ≡ set_flags text.now }
{
    PsrFlags {
        negative: has(text, b'N'),
        zero: has(text, b'Z'),
        carry: has(text, b'C'),
        overflow: has(text, b'V'),
        irq_masked: has(text, b'I'),
        fiq_masked: has(text, b'F'),
    }
}

fn flags_of_letters(text: &[u8]) -> Read<PsrFlags>
    ensures { result ≡ flags_of_letters text.now }
{
    if !are_letters(text) {
        return Err(MachineFileFault::WrongKind);
    }
    if !is_single(text) {
        return Err(MachineFileFault::Twice);
    }
    Ok(set_flags(text))
}

fn flags_at(value: &Value) -> Read<PsrFlags>
    ensures { result ≡ flags_at (view value.now) }
{
    required(value.as_str(), |text| flags_of_letters(text.as_bytes()))
}

/// The flags that the file's table states: both interrupts masked where it states none.
pub(crate) fn flags_in(table: &Table) -> Read<PsrFlags>
    ensures { result ≡ flags_in (table_view table.now) }
{
    match value_at(table, "flags") {
        Some(value) => flags_at(value),
        None => Ok(set_flags(b"IF")),
    }
}
