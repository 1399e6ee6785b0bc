//! Lines that are made in place, from their ends to their fronts, so that no memory can refuse them and no
//! part of one moves.

ghost use Rattle.std.specs.Prelude.{◌≡◌, ◌+◌, ◌≤◌, ◌++◌, ◌∷◌, [], decimal, length};
ghost use Rattle.asm_text.specs.Hex.{hex};

use crate::hex_text::write_hex;
use itoa::write_digits;
use std::marker::Model;

/// The most bytes of a line.
pub(crate) const LINE_ROOM: usize = 160;

/// The end of a line: what is in it from some place on.
#[derive(Drop)]
pub(crate) struct LineEnd {
    room: [u8; LINE_ROOM],
    start: usize,
}

impl Model for LineEnd {
    ghost use Rattle.std.specs.Prelude.{◌≤◌, ℕ, List, drop};
    ghost use Rattle.certificate.specs.declared.line_end.TheConstants.{LINE_ROOM};

    ghost Value = { List ℕ };

    ghost view = { λ l. drop l.start l.room };

    ghost invariant = { λ l. l.start ≤ LINE_ROOM };
}

impl LineEnd {
    /// A line feed.
    pub(crate) fn new() -> Self
        ensures { result ≡ 10 ∷ [] }
    {
        let mut line = LineEnd {
            room: [0; LINE_ROOM],
            start: LINE_ROOM,
        };
        line.put(b"\n");
        line
    }

    /// The bytes, from the first on.
    pub(crate) fn bytes(&self) -> &[u8]
        ensures { result.now ≡ self.now }
    {
        &self.room[self.start..]
    }

    /// Adds a text in front.
    #[inline]
    pub(crate) fn put(&mut self, text: &[u8])
        requires { length text.now + length self.old ≤ LINE_ROOM }
        ensures { self.new ≡ text.now ++ self.old }
    {
        let end = self.start;
        self.start -= text.len();
        self.room[self.start..end].copy_from_slice(text);
    }

    /// Adds a number in decimal in front.
    #[inline]
    pub(crate) fn put_decimal(&mut self, n: u64)
        requires { 20 + length self.old ≤ LINE_ROOM }
        ensures text { self.new ≡ decimal n ++ self.old }
        ensures len { length self.new ≤ 20 + length self.old }
    {
        self.start = write_digits(n, &mut self.room, self.start);
    }

    /// Adds a number in upper-case hexadecimal in front.
    #[inline]
    pub(crate) fn put_hex(&mut self, n: u32)
        requires { 9 + length self.old ≤ LINE_ROOM }
        ensures text { self.new ≡ hex n ++ self.old }
        ensures len { length self.new ≤ 9 + length self.old }
    {
        self.start = write_hex(n, &mut self.room, self.start);
    }
}
