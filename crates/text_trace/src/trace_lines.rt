ghost use Rattle.std.specs.Prelude.{◌≡◌, ◌+◌, ◌<◌, ◌≤◌, MatchResult, length, string_bytes};
ghost use Rattle.text_trace.specs.Lately.{AreRight};
ghost use Rattle.asm_text.specs.Appended.{Appends};
ghost use Rattle.assembler.specs.ShownLines.{IsWordLine};
ghost use Rattle.text_trace.specs.TraceText.{IsTraceLine, exception_name, front_text, word_text};

use crate::figures::hex_word;
use crate::shown::ShownLately;
use arm2_exec::{Kind, Traced, Vector};
use arrayvec::ArrayString;
use asm_text::WORD_LINE_ROOM;
use itoa::Buffer;
use std::alloc::AllocError;

/// The most bytes of a step's line: 29 of its address, its word and its ticks, [`WORD_LINE_ROOM`] of its
/// word's line, and the line's end.
pub const LINE_ROOM: usize = 94;

/// The name of an exception, as a trace has it: lower case, at most 9 letters.
pub fn exception_name(vector: Vector) -> &'static str
    ensures name { result.now ≡ exception_name vector }
    ensures short { length result.now ≤ 9 }
{
    match vector {
        Vector::Undefined => "undefined",
        Vector::Swi => "swi",
        Vector::PrefetchAbort => "prefetch",
        Vector::DataAbort => "abort",
        Vector::AddressException => "address",
        Vector::Irq => "irq",
        Vector::Fiq => "fiq",
    }
}

// The word, or dashes where there is none.
fn word_text(word: Option<u32>) -> ArrayString<8>
    ensures { result.bytes ≡ word_text word }
{
    match word {
        Some(word) => hex_word(word),
        None => {
            let mut text = ArrayString::new();
            text.push_str("--------");
            text
        }
    }
}

// The address, the word and the ticks.
fn front_text(traced: &Traced) -> ArrayString<LINE_ROOM>
    ensures text { result.bytes ≡ front_text traced.now }
    ensures short { length result.bytes ≤ 29 }
{
    let from = hex_word(traced.stepped.from);
    let word = word_text(traced.word);
    let mut ticks = Buffer::new();
    let mut front = ArrayString::new();
    front.push_str(from.as_str());
    front.push_str(" ");
    front.push_str(word.as_str());
    front.push_str(" ");
    front.push_str(ticks.format(traced.stepped.ticks));
    front.push_str(" ");
    front
}

fn put_word_line(
    out: &mut ArrayString<LINE_ROOM>,
    lately: &mut ShownLately,
    word: Option<u32>,
    at: u32,
)
    requires right { AreRight lately.old.rows }
    requires room { length out.old.bytes + WORD_LINE_ROOM ≤ LINE_ROOM }
    ensures right { AreRight lately.new.rows }
    ensures text { Appends (IsWordLine word at) out.old.bytes out.new.bytes }
    ensures len { length out.new.bytes ≤ length out.old.bytes + WORD_LINE_ROOM }
{
    match word {
        Some(word) => lately.put(out, word, at),
        None => {}
    }
}

/// The line of a step, as [`trace_line`] has it, by the lines of words that were shown lately.
pub(crate) fn line_of(traced: &Traced, lately: &mut ShownLately) -> ArrayString<LINE_ROOM>
    requires { AreRight lately.old.rows }
    ensures line { IsTraceLine traced.now result.bytes }
    ensures right { AreRight lately.new.rows }
{
    match traced.stepped.kind {
        Kind::Stopped(_) => ArrayString::new(),
        Kind::Taken(vector) => {
            let mut line = front_text(traced);
            line.push_str(exception_name(vector));
            line.push_str("\n");
            line
        }
        Kind::Plain => {
            let mut line = front_text(traced);
            put_word_line(&mut line, lately, traced.word, traced.stepped.from);
            line.push_str("\n");
            line
        }
    }
}

/// The line of a step: its address, its word, its ticks, and the name of the exception that it took or the
/// word's line. Of a step that stopped the machine it is empty.
///
/// It lies in place, so that no memory can refuse it.
pub fn trace_line(traced: &Traced) -> ArrayString<LINE_ROOM>
    ensures { IsTraceLine traced.now result.bytes }
{
    line_of(traced, &mut ShownLately::new())
}

/// Adds the line of a step, by the lines of words that were shown lately.
///
/// An error says that an allocation failed; the text is then as it was.
pub(crate) fn put_trace(
    out: &mut String,
    traced: &Traced,
    lately: &mut ShownLately,
) -> Result<(), AllocError>
    requires { AreRight lately.old.rows }
    ensures right { AreRight lately.new.rows }
    ensures text { MatchResult result
        (λ _. Appends (IsTraceLine traced.now) (string_bytes out.old) (string_bytes out.new))
        (λ _. string_bytes out.new ≡ string_bytes out.old) }
{
    let line = line_of(traced, lately);
    out.push_str(line.as_str())
}
