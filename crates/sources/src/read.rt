ghost use Rattle.std.specs.Prelude.{◌≡◌, true, false, map, Ok, IfErr, IfOk};
ghost use Rattle.assembler.specs.Sweeps.{assembled};
ghost use Rattle.image.specs.ImageBytes.{is_image};
ghost use Rattle.image.specs.Labels.{address_of};
ghost use Rattle.sources.specs.Dialect.{in_grammar, plain_view, text_of};
ghost use Rattle.sources.specs.Lines.{AreLines};
ghost use Rattle.sources.specs.Origins.{stretch_of, stretches_of};
ghost use Rattle.sources.specs.Source.{IsFaultIn, IsFaultOf, IsSource, of_text, said_by_plain};
ghost use Rattle.sources.specs.File.{file_of};

use crate::dialect::PlainText;
use crate::fault::SourceFault;
use crate::file::SourceFile;
use asm_text::lines_are_spelled;
use assembler::{AsmFault, Assembly, PlacedLine, Program, assemble, placed_lines};
use image::{Image, Labels, is_image, read_image};
use std::alloc::{AllocError, Global};
use std::collections::BTreeMap;
use text_rows::{SourceLine, source_lines};

/// The text of a source.
#[derive(Drop)]
pub enum SourceText<'a> {
    /// Its bytes, as its author wrote them, and where each of its lines is placed, in their order.
    Lines(&'a [u8], Vec<PlacedLine>),
    /// There is none: the source is an image.
    Image,
}

/// A source that was read.
#[derive(Drop)]
pub struct Source<'a> {
    /// Its words by their addresses.
    pub image: Image,
    /// The addresses of its labels. An image has none.
    pub labels: Labels,
    pub text: SourceText<'a>,
}

// Why a text cannot be assembled, with the author's line.
fn text_fault(plain: &PlainText<'_>, fault: AsmFault) -> SourceFault
    ensures { result ≡ of_text (plain_view plain.now) fault }
{
    match fault {
        AsmFault::Memory => SourceFault::Memory,
        AsmFault::Line(fault, number) => {
            SourceFault::Text(AsmFault::Line(fault, plain.origin(number)))
        }
    }
}

// Where the lines in our grammar are placed.
fn grammar_places(alloc: Global, plain: &PlainText<'_>) -> Result<Vec<PlacedLine>, SourceFault>
    ensures ok { IfOk result (λ placed.
        stretches_of (text_of (plain_view plain.now)) ≡ map stretch_of placed.items) }
    ensures fault { IfErr result (λ fault.
        IsFaultIn (said_by_plain (Ok (plain_view plain.now))) fault) }
{
    lines_are_spelled();
    match placed_lines(alloc, plain.bytes()) {
        Ok(placed) => Ok(placed),
        Err(fault) => Err(text_fault(plain, fault)),
    }
}

fn assembled(alloc: Global, plain: &PlainText<'_>) -> Result<Assembly, SourceFault>
    ensures ok { IfOk result (λ made.
        assembled (text_of (plain_view plain.now)) ≡ Ok (made.image, address_of made.labels)) }
    ensures fault { IfErr result (λ fault.
        IsFaultIn (said_by_plain (Ok (plain_view plain.now))) fault) }
{
    match assemble(alloc, plain.bytes()) {
        Ok(assembly) => Ok(assembly),
        Err(fault) => Err(text_fault(plain, fault)),
    }
}

// A text, whose bytes do not begin as an image's, by what it is in our grammar.
fn read_plain<'a>(
    alloc: Global,
    plain: &PlainText<'a>,
    file: SourceFile<'a>,
) -> Result<Source<'a>, SourceFault>
    requires text { is_image file.bytes.now ≡ false }
    requires plain { in_grammar (file_of file) ≡ Ok (plain_view plain.now) }
    ensures is { IfOk result (IsSource (file_of file.entry)) }
    ensures fault { IfErr result (IsFaultOf (file_of file.entry)) }
{
    let placed = grammar_places(alloc, plain)?;
    let assembly = assembled(alloc, plain)?;
    let places = plain.places(alloc, placed)?;
    Ok(Source {
        image: assembly.image,
        labels: assembly.labels,
        text: SourceText::Lines(file.bytes, places),
    })
}

// A text, whose bytes do not begin as an image's.
fn read_text<'a>(alloc: Global, file: SourceFile<'a>) -> Result<Source<'a>, SourceFault>
    requires { is_image file.bytes.now ≡ false }
    ensures is { IfOk result (IsSource (file_of file.entry)) }
    ensures fault { IfErr result (IsFaultOf (file_of file.entry)) }
{
    let plain = PlainText::read(alloc, file)?;
    read_plain(alloc, &plain, file)
}

// An image, whose bytes begin as one's.
fn read_words<'a>(alloc: Global, file: SourceFile<'a>) -> Result<Source<'a>, SourceFault>
    requires { is_image file.bytes.now ≡ true }
    ensures is { IfOk result (IsSource (file_of file.entry)) }
    ensures fault { IfErr result (IsFaultOf (file_of file.entry)) }
{
    let image = read_image(alloc, file.bytes)?;
    Ok(Source {
        image,
        labels: Labels::new(alloc),
        text: SourceText::Image,
    })
}

impl<'a> Source<'a> {
    /// Reads a source: an image where it begins as one, else a text, in ObjAsm's dialect where that was said of
    /// the file, or where its first line is `; dialect: objasm`, with nothing behind it but blanks.
    ///
    /// # Errors
    ///
    /// `Text`, with its line, of a text; `Dialect`, with its line, of one in the dialect that cannot be
    /// translated; `Image` of an image. `Memory`: an allocation failed.
    pub fn read(alloc: Global, file: SourceFile<'a>) -> Result<Source<'a>, SourceFault>
        ensures is { IfOk result (IsSource (file_of file.entry)) }
        ensures fault { IfErr result (IsFaultOf (file_of file.entry)) }
    {
        if is_image(file.bytes) {
            return read_words(alloc, file);
        }
        read_text(alloc, file)
    }

    /// The lines of its text by the addresses of their words. The label of a line's first word is the one in
    /// its first column, or may be alone in a line before. An image has no lines.
    ///
    /// # Errors
    ///
    /// An allocation failed.
    pub fn lines(&self, alloc: Global) -> Result<BTreeMap<u32, SourceLine<'_>>, AllocError>
        ensures { IfOk result (AreLines self.now) }
    {
        match &self.text {
            SourceText::Lines(bytes, placed) => source_lines(
                alloc,
                &Program {
                    source: bytes,
                    placed,
                    image: &self.image,
                    labels: &self.labels,
                },
            ),
            SourceText::Image => Ok(BTreeMap::new(alloc)),
        }
    }
}
