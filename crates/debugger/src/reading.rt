ghost use Rattle.std.specs.Prelude.{◌≡◌, ◌+◌, ◌*◌, ◌≤◌, IfOk};
ghost use Rattle.debugger.specs.Commands.{IsInRange, address_in, command_of, line_command};
ghost use Rattle.debugger.specs.Commands.{number_in, number_or_label, one_word};
ghost use Rattle.debugger.specs.Words.{number_of};
ghost use Rattle.image.specs.Labels.{address_of};
ghost use Rattle.ioc.specs.LineNames.{line_named};
ghost use Rattle.debugger.specs.Commands.{switch_command, three_words, two_words};

use crate::command::{Command, MOST_SHOWN_STEPS, MOST_SHOWN_WORDS, MOST_STEPS};
use crate::fault::DebugFault;
use crate::words::{first_word, number_of};
use bitflags::Flags;
use bus_ticks::SPACE_END;
use image::Labels;
use ioc::Lines;

fn number_in(low: u32, high: u32, word: &[u8]) -> Result<u32, DebugFault>
    ensures number { result ≡ number_in low high word.now }
    ensures bounds { IfOk result (λ n. (low ≤ n) × (n ≤ high)) }
{
    match number_of(word) {
        Some(n) if low <= n && n <= high => Ok(n),
        _ => Err(DebugFault::BadNumber),
    }
}

// The number of a word, or the address of the label where it is none.
fn number_or_label(labels: &Labels, word: &[u8]) -> Option<u32>
    ensures { result ≡ number_or_label (number_of word.now) (address_of labels.now word.now) }
{
    match number_of(word) {
        Some(n) => Some(n),
        None => labels.get(word),
    }
}

// The address of so many words.
fn address_in(labels: &Labels, count: u32, word: &[u8]) -> Result<u32, DebugFault>
    requires { count ≤ MOST_SHOWN_WORDS }
    ensures address { result ≡ address_in (address_of labels.now) count word.now }
    ensures bound { IfOk result (λ a. a + 4 * count ≤ SPACE_END) }
{
    match number_or_label(labels, word) {
        Some(a) if a % 4 == 0 && a <= SPACE_END - 4 * count => Ok(a),
        _ => Err(DebugFault::BadNumber),
    }
}

fn one_word(name: &[u8]) -> Result<Command, DebugFault>
    ensures command { result ≡ one_word name.now }
    ensures range { IfOk result IsInRange }
{
    if name == b"step".as_slice() {
        Ok(Command::Step(1))
    } else if name == b"break".as_slice() {
        Ok(Command::ListBreaks)
    } else if name == b"regs".as_slice() {
        Ok(Command::Regs)
    } else if name == b"ticks".as_slice() {
        Ok(Command::Ticks)
    } else {
        Err(DebugFault::UnknownCommand)
    }
}

fn two_words(labels: &Labels, name: &[u8], number: &[u8]) -> Result<Command, DebugFault>
    ensures command { result ≡ two_words (address_of labels.now) name.now number.now }
    ensures range { IfOk result IsInRange }
{
    if name == b"step".as_slice() {
        Ok(Command::Step(number_in(1, MOST_SHOWN_STEPS, number)?))
    } else if name == b"run".as_slice() {
        Ok(Command::Run(number_in(1, MOST_STEPS, number)?))
    } else if name == b"break".as_slice() {
        Ok(Command::Break(address_in(labels, 1, number)?))
    } else if name == b"burst".as_slice() {
        Ok(Command::Burst(number_in(0, 65535, number)? as u16))
    } else if name == b"port".as_slice() {
        Ok(Command::Port(number_in(0, u32::MAX, number)?))
    } else {
        Err(DebugFault::UnknownCommand)
    }
}

// The line of a name.
fn line_named(name: &[u8]) -> Option<Lines>
    ensures { result ≡ line_named name.now }
{
    match str::from_utf8(name) {
        Ok(name) => Lines::from_name(name),
        Err(_) => None,
    }
}

fn switch_command(line: Option<Lines>, on: bool) -> Result<Command, DebugFault>
    ensures command { result ≡ switch_command line on }
    ensures range { IfOk result IsInRange }
{
    match line {
        Some(line) => Ok(Command::Line(line, on)),
        None => Err(DebugFault::UnknownCommand),
    }
}

fn line_command(name: &[u8], state: &[u8]) -> Result<Command, DebugFault>
    ensures command { result ≡ line_command name.now state.now }
    ensures range { IfOk result IsInRange }
{
    if state == b"on".as_slice() {
        switch_command(line_named(name), true)
    } else if state == b"off".as_slice() {
        switch_command(line_named(name), false)
    } else {
        Err(DebugFault::UnknownCommand)
    }
}

fn three_words(
    labels: &Labels,
    name: &[u8],
    first: &[u8],
    second: &[u8],
) -> Result<Command, DebugFault>
    ensures command { result ≡ three_words (address_of labels.now) name.now first.now second.now }
    ensures range { IfOk result IsInRange }
{
    if name == b"mem".as_slice() {
        let count = number_in(1, MOST_SHOWN_WORDS as u32, second)?;
        Ok(Command::Mem(address_in(labels, count, first)?, count))
    } else if name == b"dis".as_slice() {
        let count = number_in(1, MOST_SHOWN_WORDS as u32, second)?;
        Ok(Command::Dis(address_in(labels, count, first)?, count))
    } else if name == b"line".as_slice() {
        line_command(first, second)
    } else {
        Err(DebugFault::UnknownCommand)
    }
}

/// The command that a line says, without its end, by the labels of the source.
pub(crate) fn command_of(labels: &Labels, line: &[u8]) -> Result<Command, DebugFault>
    ensures command { result ≡ command_of (address_of labels.now) line.now }
    ensures range { IfOk result IsInRange }
{
    let Some((name, rest)) = first_word(line) else {
        return Ok(Command::Nothing);
    };
    let Some((first, rest)) = first_word(rest) else {
        return one_word(name);
    };
    let Some((second, rest)) = first_word(rest) else {
        return two_words(labels, name, first);
    };
    if first_word(rest).is_some() {
        return Err(DebugFault::UnknownCommand);
    }
    three_words(labels, name, first, second)
}
