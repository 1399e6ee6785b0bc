ghost use Rattle.std.specs.Prelude.{◌≡◌, ◌≤◌, ◌+◌, ◌*◌, ◌++◌, IfOk, OnOk};
ghost use Rattle.bus_ticks.specs.declared.space.TheConstants.{SPACE_END};
ghost use Rattle.text_listing.specs.Listing.{AreListed, IsWordRow, line_rows, rows_beside, word_rows};

use crate::list_order::put_order_note;
use crate::listing_columns::{WORD_COLUMNS, put_line_row, put_word_columns, put_word_row};
use assembler::PlacedLine;
use image::Image;
use sources::{ImageRows, Source};
use std::alloc::{AllocError, Global};
use text_rows::{LineRows, NumberedLine, put, put_right};

// Adds a row for each of so many words from an address on.
fn put_words(out: &mut Vec<u8>, image: &Image, from: u32, count: usize) -> Result<(), AllocError>
    requires { from + 4 * count ≤ SPACE_END }
    ensures { OnOk result (out.new.items ≡ out.old.items ++ word_rows image.now from count) }
{
    let mut at = from;
    for _ in 0..count {
        put_word_columns(out, at, image.word_at(at))?;
        put(out, b"\n")?;
        at += 4;
    }
    Ok(())
}

// The rows of lines beside the words of an image, and of these words alone.
#[derive(Clone, Copy)]
struct BesideWords<'a> {
    image: &'a Image,
}

impl BesideWords<'_> {
    // Adds the rows of a line and of its words.
    fn put_beside(
        &self,
        out: &mut Vec<u8>,
        line: NumberedLine<'_>,
        placed: PlacedLine,
    ) -> Result<(), AllocError>
        ensures { OnOk result
            (out.new.items
            ≡ out.old.items
            ++ rows_beside self.now.image.now line.entry.number line.entry.text.now placed.at placed.words) }
    {
        if placed.words == 0 {
            put_right(out, b"", WORD_COLUMNS)?;
            return put_line_row(out, line);
        }
        put_word_columns(out, placed.at, self.image.word_at(placed.at))?;
        put_line_row(out, line)?;
        put_words(out, self.image, placed.at + 4, placed.words - 1)
    }
}

impl LineRows for BesideWords<'_> {
    ghost rows = { λ b n text p. line_rows b.image.now n text p };

    fn put(
        &self,
        out: &mut Vec<u8>,
        line: NumberedLine<'_>,
        placed: PlacedLine,
    ) -> Result<(), AllocError> {
        self.put_beside(out, line, placed)?;
        put_order_note(out, line.text)
    }
}

impl ImageRows for BesideWords<'_> {
    ghost is_row = { λ _. IsWordRow };

    fn put_word(&self, out: &mut Vec<u8>, at: u32, word: u32) -> Result<(), AllocError> {
        put_word_row(out, at, word)
    }
}

/// The lines of a source beside the words of its image: a row for each line, with the address and the word
/// of its first word, if it has one, its number from 1 and its text; below it a row for each further word. Of
/// an image a row for each word: its address, itself, and its line as
/// [`disassemble`](assembler::disassemble) shows it.
///
/// The text is bytes, since a comment may be other than UTF-8. A row ends at column 80, and a longer text is
/// cut there: the source has all of it. A byte counts as a column. Dashes stand for a word that the image
/// lacks.
///
/// # Errors
///
/// An allocation failed.
pub fn list_rows(alloc: Global, source: &Source<'_>) -> Result<Vec<u8>, AllocError>
    ensures { IfOk result (λ rows. AreListed source.now rows.items) }
{
    let mut out = Vec::new(alloc);
    let rows = BesideWords {
        image: &source.image,
    };
    source.put_rows(&mut out, &rows)?;
    Ok(out)
}
