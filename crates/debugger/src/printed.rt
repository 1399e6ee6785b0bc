//! Bytes put into room that was taken before, so no allocation can fail.

ghost use Rattle.std.specs.Prelude.{◌≡◌, ◌++◌, ◌+◌, ◌≤◌, length, vec_capacity};
ghost use Rattle.assembler.specs.ShownLines.{IsShown};
ghost use Rattle.asm_text.specs.Hex.{hex8};
ghost use Rattle.asm_text.specs.Appended.{Appends};
ghost use Rattle.text_trace.specs.TraceText.{IsTraceLine};

use arm2_exec::Traced;
use asm_text::WORD_LINE_ROOM;
use assembler::disassemble;
use text_trace::{LINE_ROOM, hex_word, trace_line};

/// Adds a text.
pub(crate) fn put(out: &mut Vec<u8>, text: &[u8])
    requires { length out.old.items + length text.now ≤ vec_capacity out.old }
    ensures text { out.new.items ≡ out.old.items ++ text.now }
    ensures room { vec_capacity out.old ≤ vec_capacity out.new }
{
    if out.extend_from_slice(text).is_err() {
        unreachable!()
    }
}

/// Adds a word in eight upper-case hexadecimal digits.
pub(crate) fn put_hex8(out: &mut Vec<u8>, word: u32)
    requires { length out.old.items + 8 ≤ vec_capacity out.old }
    ensures text { out.new.items ≡ out.old.items ++ hex8 word }
    ensures len { length out.new.items ≡ length out.old.items + 8 }
    ensures room { vec_capacity out.old ≤ vec_capacity out.new }
{
    let digits = hex_word(word);
    put(out, digits.as_str().as_bytes());
}

/// Adds the line of a word at its address.
pub(crate) fn put_shown(out: &mut Vec<u8>, word: u32, at: u32)
    requires { length out.old.items + WORD_LINE_ROOM ≤ vec_capacity out.old }
    ensures text { Appends (IsShown word at) out.old.items out.new.items }
    ensures len { length out.new.items ≤ length out.old.items + WORD_LINE_ROOM }
    ensures room { vec_capacity out.old ≤ vec_capacity out.new }
{
    let line = disassemble(word, at);
    put(out, line.items());
}

/// Adds the line of a step.
pub(crate) fn put_trace(out: &mut Vec<u8>, traced: &Traced)
    requires { length out.old.items + LINE_ROOM ≤ vec_capacity out.old }
    ensures text { Appends (IsTraceLine traced.now) out.old.items out.new.items }
    ensures len { length out.new.items ≤ length out.old.items + LINE_ROOM }
    ensures room { vec_capacity out.old ≤ vec_capacity out.new }
{
    let line = trace_line(traced);
    put(out, line.as_str().as_bytes());
}
