ghost use Rattle.std.specs.Prelude.{◌≡◌, ◌≤◌, IfOk, length};
ghost use Rattle.asm_text.specs.Statements.{body_len, is_in_body};
ghost use Rattle.sources.specs.Lines.{AreLines};
ghost use Rattle.text_graph.specs.Labels.{AreLabels, IsImageLabel, IsLabelBy, text_of, without_comment};
ghost use Rattle.text_rows.specs.WordLines.{numbered_at};

use assembler::disassemble;
use control_flow::Graph;
use image::Image;
use sources::{Source, SourceText};
use std::alloc::{AllocError, Global};
use std::collections::BTreeMap;
use text_rows::SourceLine;

fn is_in_body(byte: u8) -> bool
    ensures { result ≡ is_in_body byte }
{
    byte != b';'
}

// The bytes of a line in front of its comment.
fn body_len(line: &[u8]) -> usize
    ensures len { result ≡ body_len line.now }
    ensures within { result ≤ length line.now }
{
    line.iter().take_while(|b| is_in_body(**b)).count()
}

// What a line has in front of its comment, without the blanks at its end.
fn without_comment(line: &[u8]) -> &[u8]
    ensures { result.now ≡ without_comment line.now }
{
    line[..body_len(line)].trim_ascii_end()
}

// What the line of an address has in front of its comment, empty where there is none.
fn text_of(
    alloc: Global,
    lines: &BTreeMap<u32, SourceLine<'_>>,
    at: u32,
) -> Result<Vec<u8>, AllocError>
    ensures { IfOk result (λ text. text.items ≡ text_of (numbered_at lines.now at)) }
{
    match lines.get(&at) {
        Some(line) => Vec::from_slice(alloc, without_comment(line.text)),
        None => Ok(Vec::new(alloc)),
    }
}

// What the word at an address says.
fn image_label(alloc: Global, image: &Image, at: u32) -> Result<Vec<u8>, AllocError>
    ensures { IfOk result (λ label. IsImageLabel image.now at label.items) }
{
    match image.word_at(at) {
        Some(word) => Vec::from_slice(alloc, disassemble(word, at).items()),
        None => Ok(Vec::new(alloc)),
    }
}

// What stands for the word at an address, by the lines of the source.
fn label_by(
    alloc: Global,
    source: &Source<'_>,
    lines: &BTreeMap<u32, SourceLine<'_>>,
    at: u32,
) -> Result<Vec<u8>, AllocError>
    ensures { IfOk result
        (λ label. IsLabelBy (numbered_at lines.now at) source.now.image source.now.text at label.items) }
{
    match &source.text {
        SourceText::Lines(_, _) => text_of(alloc, lines, at),
        SourceText::Image => image_label(alloc, &source.image, at),
    }
}

/// For each place of a graph, in their order, what the line of its word has in front of its comment; of an
/// image what the word says, as [`disassemble`] shows it.
///
/// # Errors
///
/// An allocation failed.
pub(crate) fn place_labels(
    alloc: Global,
    source: &Source<'_>,
    lines: &BTreeMap<u32, SourceLine<'_>>,
    graph: &Graph,
) -> Result<Vec<Vec<u8>>, AllocError>
    requires { AreLines source.now lines.now }
    ensures { IfOk result (λ labels. AreLabels source.now graph.now.places labels.items) }
{
    let mut labels = Vec::new(alloc);
    for place in graph.places() {
        labels.push(label_by(alloc, source, lines, place.address())?)?;
    }
    Ok(labels)
}
