//! Texts in ObjAsm's dialect, and what they are in our grammar.

ghost use Rattle.std.specs.Prelude.{◌≡◌, ◌-◌, IfErr, IfOk, Ok, map, slice_index_or};
ghost use Rattle.objasm.specs.Source.{FaultedAt};
ghost use Rattle.sources.specs.Dialect.{begins_as_objasm, in_grammar, is_objasm, origin_of, places_by};
ghost use Rattle.sources.specs.Dialect.{plain_view, says_objasm, text_of};
ghost use Rattle.sources.specs.File.{file_of};
ghost use Rattle.sources.specs.Origins.{scattered_at, stretch_of};

use crate::file::{Dialect, SourceFile};
use crate::origins::gathered;
use asm_text::{after_blanks, first_line};
use assembler::PlacedLine;
use objasm::{DialectFault, PlainSource, plain_source};
use std::alloc::Global;

// Whether a line is the comment that says the dialect, with nothing behind it but blanks.
fn says_objasm(line: &[u8]) -> bool
    ensures { result ≡ says_objasm line.now }
{
    match line.strip_prefix(b"; dialect: objasm") {
        Some(rest) => after_blanks(rest).is_empty(),
        None => false,
    }
}

// Whether the first line of a text says that it is in ObjAsm's dialect.
fn begins_as_objasm(text: &[u8]) -> bool
    ensures { result ≡ begins_as_objasm text.now }
{
    match first_line(text) {
        Some((line, _)) => says_objasm(line),
        None => false,
    }
}

// Whether the text of a file is in ObjAsm's dialect.
fn is_objasm(file: SourceFile<'_>) -> bool
    ensures { result ≡ is_objasm (file_of file.entry) }
{
    match file.dialect {
        Dialect::Objasm => true,
        Dialect::Plain => begins_as_objasm(file.bytes),
    }
}

// The number of the line that a line comes from, both from 1.
fn line_from(origins: &[usize], number: usize) -> usize
    ensures { result ≡ slice_index_or origins.now (number - 1) number }
{
    match origins.get(number.saturating_sub(1)) {
        Some(origin) => *origin,
        None => number,
    }
}

/// What a text is in our grammar.
#[derive(Drop)]
pub enum PlainText<'a> {
    /// Its own bytes.
    Same(&'a [u8]),
    /// What stands for its lines, which are in ObjAsm's dialect.
    Translated(PlainSource),
}

impl<'a> PlainText<'a> {
    /// Reads the text of a file: in ObjAsm's dialect where that was said of the file, or where its first line is
    /// `; dialect: objasm`, with nothing behind it but blanks.
    ///
    /// # Errors
    ///
    /// `Line`, of a text in the dialect that cannot be translated. `Memory`: an allocation failed.
    pub fn read(alloc: Global, file: SourceFile<'a>) -> Result<PlainText<'a>, DialectFault>
        ensures is { IfOk result (λ plain. in_grammar (file_of file.entry) ≡ Ok (plain_view plain)) }
        ensures fault { IfErr result (λ fault. FaultedAt fault (in_grammar (file_of file.entry))) }
    {
        if !is_objasm(file) {
            return Ok(PlainText::Same(file.bytes));
        }
        let plain = plain_source(alloc, file.bytes)?;
        Ok(PlainText::Translated(plain))
    }

    /// The bytes in our grammar.
    pub fn bytes(&self) -> &[u8]
        ensures { result.now ≡ text_of (plain_view self.now) }
    {
        match self {
            PlainText::Same(bytes) => bytes,
            PlainText::Translated(plain) => &plain.text,
        }
    }

    /// The number of the author's line that a line in our grammar comes from, both from 1.
    pub fn origin(&self, number: usize) -> usize
        ensures { result ≡ origin_of (plain_view self.now) number }
    {
        match self {
            PlainText::Same(_) => number,
            PlainText::Translated(plain) => line_from(&plain.origins, number),
        }
    }

    /// Where the author's lines are placed, by the places of the lines in our grammar.
    ///
    /// # Errors
    ///
    /// `Line`, with `Scattered`: the words of a line do not lie side by side. `Memory`: an allocation failed.
    pub(crate) fn places(
        &self,
        alloc: Global,
        placed: Vec<PlacedLine>,
    ) -> Result<Vec<PlacedLine>, DialectFault>
        ensures ok { IfOk result (λ lines.
            places_by (plain_view self.now) (map stretch_of placed.items)
            ≡ Ok (map stretch_of lines.items)) }
        ensures fault { IfErr result (λ fault. FaultedAt fault
            (scattered_at (places_by (plain_view self.now) (map stretch_of placed.items)))) }
    {
        match self {
            PlainText::Same(_) => Ok(placed),
            PlainText::Translated(plain) => gathered(alloc, &plain.origins, &placed),
        }
    }
}
