ghost use Rattle.std.specs.Prelude.{ℕ, List, OnOk};
ghost use Rattle.asm_text.specs.Appended.{Appends};
ghost use Rattle.sources.specs.Rows.{AreSourceRows};
ghost use Rattle.text_rows.specs.Lines.{rows_by_word};
ghost use Rattle.text_rows.specs.Rows.{AreRows};

use crate::read::{Source, SourceText};
use image::Image;
use std::alloc::AllocError;
use text_rows::{LineRows, WordRows, put_line_rows, put_word_rows};

/// The rows of a text, word by word of an image.
pub trait ImageRows {
    /// Whether it is the row of a word, by its address and the word.
    ghost is_row: { Self → ℕ × ℕ → List ℕ → Type 0 };

    /// Adds the row of a word.
    ///
    /// # Errors
    ///
    /// An allocation failed.
    fn put_word(&self, out: &mut Vec<u8>, at: u32, word: u32) -> Result<(), AllocError>
        ensures { OnOk result (Appends (is_row self.now (at, word)) out.old.items out.new.items) };
}

// Adds the rows of an image's words.
fn put_image_rows<R: ImageRows>(
    out: &mut Vec<u8>,
    image: &Image,
    rows: &R,
) -> Result<(), AllocError>
    ensures { OnOk result
        (Appends (AreRows (R.is_row rows.now) image.now) out.old.items out.new.items) }
{
    let words = image.listed(*out.allocator())?;
    for (at, word) in &words {
        rows.put_word(out, *at, *word)?;
    }
    Ok(())
}

impl Source<'_> {
    /// Adds the rows of its lines, numbered from 1, or, of an image, those of its words in the order of their
    /// addresses.
    ///
    /// # Errors
    ///
    /// An allocation failed.
    pub fn put_rows<R: LineRows + ImageRows>(
        &self,
        out: &mut Vec<u8>,
        rows: &R,
    ) -> Result<(), AllocError>
        ensures { OnOk result
            (Appends (AreSourceRows (R.rows rows.now) (R.is_row rows.now) self.now) out.old.items
            out.new.items) }
    {
        match &self.text {
            SourceText::Lines(bytes, placed) => put_line_rows(out, bytes, placed, rows),
            SourceText::Image => put_image_rows(out, &self.image, rows),
        }
    }

    /// Adds the rows of the words of its lines, numbered from 1, or, of an image, those of its words in the
    /// order of their addresses.
    ///
    /// # Errors
    ///
    /// An allocation failed.
    pub fn put_word_rows<R: WordRows + ImageRows>(
        &self,
        out: &mut Vec<u8>,
        rows: &R,
    ) -> Result<(), AllocError>
        ensures { OnOk result
            (Appends (AreSourceRows (rows_by_word (R.word_row rows.now)) (R.is_row rows.now) self.now)
            out.old.items out.new.items) }
    {
        match &self.text {
            SourceText::Lines(bytes, placed) => put_word_rows(out, bytes, placed, rows),
            SourceText::Image => put_image_rows(out, &self.image, rows),
        }
    }
}
