ghost use Rattle.std.specs.Prelude.{◌≡◌, ◌+◌, ◌<◌, ◌≤◌, ◌++◌, ◌∷◌, [], decimal, length};
ghost use Rattle.asm_text.specs.Hex.{hex};

use arrayvec::ArrayVec;
use asm_text::{WORD_LINE_ROOM, hex};
use itoa::Buffer;
use std::marker::Model;

/// The line of a word, of at most [`WORD_LINE_ROOM`] bytes, in place.
#[derive(Drop)]
pub struct Line {
    bytes: ArrayVec<u8, WORD_LINE_ROOM>,
}

impl Model for Line {
    ghost use Rattle.std.specs.Prelude.{ℕ, List};

    ghost Value = { List ℕ };

    ghost view = { λ l. l.bytes.items };
}

impl Line {
    /// No bytes.
    pub(crate) fn new() -> Self
        ensures { result ≡ [] }
    {
        Line {
            bytes: ArrayVec::new(),
        }
    }

    /// The bytes of the line.
    pub fn items(&self) -> &[u8]
        ensures bytes { result.now ≡ self.now }
        ensures short { length result.now ≤ WORD_LINE_ROOM }
    {
        self.bytes.as_slice()
    }

    /// Adds a byte.
    pub(crate) fn put(&mut self, b: u8)
        requires { length self.old < WORD_LINE_ROOM }
        ensures { self.new ≡ self.old ++ b ∷ [] }
    {
        self.bytes.push(b);
    }

    /// Adds all bytes of a text.
    pub(crate) fn put_all(&mut self, text: &[u8])
        requires { length self.old + length text.now ≤ WORD_LINE_ROOM }
        ensures { self.new ≡ self.old ++ text.now }
    {
        for b in text {
            self.put(*b);
        }
    }

    /// Adds a number in decimal, which fits.
    pub(crate) fn put_decimal(&mut self, n: u32)
        requires { length self.old + length (decimal n) ≤ WORD_LINE_ROOM }
        ensures { self.new ≡ self.old ++ decimal n }
    {
        let mut buffer = Buffer::new();
        self.put_all(buffer.format(n).as_bytes());
    }

    /// Adds a number in decimal.
    pub(crate) fn push_decimal(&mut self, n: u32)
        requires { length self.old + 10 ≤ WORD_LINE_ROOM }
        ensures text { self.new ≡ self.old ++ decimal n }
        ensures room { length self.new ≤ length self.old + 10 }
    {
        self.put_decimal(n);
    }

    /// Adds a number in upper-case hexadecimal, without leading zeros.
    pub(crate) fn push_hex(&mut self, n: u64)
        requires { length self.old + length (hex n) ≤ WORD_LINE_ROOM }
        ensures { self.new ≡ self.old ++ hex n }
    {
        self.put_all(hex(n).as_slice());
    }
}
