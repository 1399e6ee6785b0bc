ghost use Rattle.std.specs.Prelude.{◌≡◌, ◌+◌, ◌*◌, ◌≤◌, ◌++◌, length, vec_capacity};
ghost use Rattle.bus_ticks.specs.declared.space.TheConstants.{SPACE_END};
ghost use Rattle.asm_text.specs.Appended.{Appends};
ghost use Rattle.debugger.specs.Answers.{IsRowOf, Rows, breaks_text};

use crate::printed::{put, put_hex8, put_shown};

/// The most bytes of a row: an address, a word and its line.
pub(crate) const ROW_ROOM: usize = 83;

/// What is shown of a word in memory.
#[derive(Clone, Copy)]
pub(crate) enum Row {
    /// Its address and itself.
    Word,
    /// And its line.
    Line,
}

fn put_row(out: &mut Vec<u8>, row: Row, address: u32, word: u32)
    requires { length out.old.items + ROW_ROOM ≤ vec_capacity out.old }
    ensures row { Appends (IsRowOf row address word) out.old.items out.new.items }
    ensures len { length out.new.items ≤ length out.old.items + ROW_ROOM }
    ensures room { vec_capacity out.old ≤ vec_capacity out.new }
{
    put_hex8(out, address);
    put(out, b" ");
    put_hex8(out, word);
    match row {
        Row::Word => {}
        Row::Line => {
            put(out, b" ");
            put_shown(out, word, address);
        }
    }
    put(out, b"\n");
}

/// Adds a row for each word of a span.
pub(crate) fn put_rows(out: &mut Vec<u8>, row: Row, address: u32, words: &[u32])
    requires room { length out.old.items + length words.now * ROW_ROOM ≤ vec_capacity out.old }
    requires span { address + 4 * length words.now ≤ SPACE_END }
    ensures { Appends (Rows (IsRowOf row) address words.now) out.old.items out.new.items }
{
    let mut at = address;
    for word in words {
        put_row(out, row, at, *word);
        at += 4;
    }
}

/// Adds a line for each breakpoint.
pub(crate) fn put_breaks(out: &mut Vec<u8>, breaks: &[u32])
    requires { length out.old.items + length breaks.now * 9 ≤ vec_capacity out.old }
    ensures { out.new.items ≡ out.old.items ++ breaks_text breaks.now }
{
    for address in breaks {
        put_hex8(out, *address);
        put(out, b"\n");
    }
}
