ghost use Rattle.std.specs.Prelude.{◌≡◌, ◌++◌, IfOk, OnOk, decimal};
ghost use Rattle.text_rows.specs.Addresses.{name_text};
ghost use Rattle.asm_text.specs.Appended.{Appends};
ghost use Rattle.text_rows.specs.WordLines.{label_at};
ghost use Rattle.text_refusals.specs.Rows.{IsImageRow, IsPlaceRow, IsRow, source_row};

use crate::word_lines::WordLines;
use control_flow::Place;
use std::alloc::{AllocError, Global};
use text_rows::{
    NumberedLine, SourceLine, put, put_address_row, put_decimal, put_labelled, put_named_row,
    put_shown_row,
};

/// How many lines of a text are named at most.
pub const MOST_LINES: usize = 20;

/// A text, a number in decimal, and another text.
pub(crate) fn around_number(
    alloc: Global,
    front: &[u8],
    number: usize,
    end: &[u8],
) -> Result<Vec<u8>, AllocError>
    ensures { IfOk result (λ out. out.items ≡ front.now ++ (decimal number ++ end.now)) }
{
    let mut out = Vec::from_slice(alloc, front)?;
    put_decimal(&mut out, number as u64)?;
    put(&mut out, end)?;
    Ok(out)
}

// Adds the row of a word of a text.
fn put_line(out: &mut Vec<u8>, line: &SourceLine<'_>, at: u32) -> Result<(), AllocError>
    ensures { OnOk result (out.new.items ≡ out.old.items ++ source_row at line.now) }
{
    let line = NumberedLine {
        number: line.number as u64,
        text: line.text,
    };
    put_named_row(out, 0, line, at)
}

// Adds the row of an address of an image, with its word if it has one.
fn put_image_row(out: &mut Vec<u8>, at: u32, word: Option<u32>) -> Result<(), AllocError>
    ensures { OnOk result (Appends (IsImageRow at word) out.old.items out.new.items) }
{
    match word {
        Some(word) => put_shown_row(out, 0, at, word),
        None => put_address_row(out, at),
    }
}

impl WordLines<'_> {
    /// Adds the row of what is at an address: the address, and the number and the text of its line, or
    /// the word and the line that the disassembler shows. It ends at column 80.
    pub(crate) fn put_row(&self, out: &mut Vec<u8>, at: u32) -> Result<(), AllocError>
        ensures { OnOk result (Appends (IsRow self.now at) out.old.items out.new.items) }
    {
        match self.lines.get(&at) {
            Some(line) => put_line(out, line, at),
            None => put_image_row(out, at, self.image.word_at(at)),
        }
    }

    /// Adds the row of a place, if it is not Exit.
    pub(crate) fn put_place(&self, out: &mut Vec<u8>, place: &Place) -> Result<(), AllocError>
        ensures { OnOk result (Appends (IsPlaceRow self.now place.now) out.old.items out.new.items) }
    {
        match place {
            Place::At(_, at) => self.put_row(out, *at),
            Place::Exit => Ok(()),
        }
    }

    /// Adds an address as a statement has it: its label in quotes, or a number.
    pub(crate) fn put_name(&self, out: &mut Vec<u8>, at: u32) -> Result<(), AllocError>
        ensures { OnOk result
            (out.new.items ≡ out.old.items ++ name_text (label_at self.now.lines at) at) }
    {
        match self.lines.get(&at) {
            Some(line) => put_labelled(out, line.label, at),
            None => put_labelled(out, b"", at),
        }
    }
}
