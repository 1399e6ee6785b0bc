//! The lines of words that a trace shows again and again.

ghost use Rattle.std.specs.Prelude.{◌≡◌, ◌+◌, ◌≤◌, ◌&&◌, ◌==◌, length};
ghost use Rattle.assembler.specs.ShownLines.{IsShown};
ghost use Rattle.text_trace.specs.Lately.{AreRight, IsRight};
ghost use Rattle.asm_text.specs.Appended.{Appends};

use crate::trace_lines::LINE_ROOM;
use arrayvec::ArrayString;
use asm_text::WORD_LINE_ROOM;
use assembler::disassemble;

// How many words are kept: one for each place in 256 bytes.
const ROWS: usize = 64;

// The line of a word at an address.
#[derive(Clone, Copy)]
struct ShownLine {
    word: u32,
    at: u32,
    bytes: [u8; WORD_LINE_ROOM],
    len: usize,
}

/// The lines of words that were shown lately, one for each place that an address names by its bits 7 to 2.
#[derive(Drop)]
pub(crate) struct ShownLately {
    rows: [Option<ShownLine>; ROWS],
}

impl ShownLine {
    fn of(word: u32, at: u32) -> ShownLine
        ensures word { result.word ≡ word }
        ensures at { result.at ≡ at }
        ensures right { IsRight result }
    {
        let line = disassemble(word, at);
        let items = line.items();
        let mut bytes = [0; WORD_LINE_ROOM];
        bytes[..items.len()].copy_from_slice(items);
        ShownLine {
            word,
            at,
            bytes,
            len: items.len(),
        }
    }

    fn is_of(&self, word: u32, at: u32) -> bool
        ensures { result ≡ ((self.now.word == word) && (self.now.at == at)) }
    {
        self.word == word && self.at == at
    }

    // Adds the line.
    fn put(&self, out: &mut ArrayString<LINE_ROOM>)
        requires right { IsRight self.now }
        requires room { length out.old.bytes + WORD_LINE_ROOM ≤ LINE_ROOM }
        ensures text { Appends (IsShown self.now.word self.now.at) out.old.bytes out.new.bytes }
        ensures len { length out.new.bytes ≤ length out.old.bytes + WORD_LINE_ROOM }
    {
        let line = &self.bytes[..self.len];
        // Every line of a word is ASCII.
        out.push_str(unsafe { str::from_utf8_unchecked(line) });
    }
}

impl ShownLately {
    /// No lines.
    pub(crate) fn new() -> Self
        ensures { AreRight result.rows }
    {
        ShownLately { rows: [None; ROWS] }
    }

    /// Adds the line of a word at an address, which is made where it was not shown lately.
    pub(crate) fn put(&mut self, out: &mut ArrayString<LINE_ROOM>, word: u32, at: u32)
        requires right { AreRight self.old.rows }
        requires room { length out.old.bytes + WORD_LINE_ROOM ≤ LINE_ROOM }
        ensures right { AreRight self.new.rows }
        ensures text { Appends (IsShown word at) out.old.bytes out.new.bytes }
        ensures len { length out.new.bytes ≤ length out.old.bytes + WORD_LINE_ROOM }
    {
        let place = (at / 4) as usize % ROWS;
        if let Some(row) = &self.rows[place] {
            if row.is_of(word, at) {
                row.put(out);
                return;
            }
        }
        let row = ShownLine::of(word, at);
        row.put(out);
        self.rows[place] = Some(row);
    }
}
