ghost use Rattle.std.specs.Prelude.{◌≡◌, IfOk};
ghost use Rattle.sources.specs.Lines.{AreLines};

use image::Image;
use sources::Source;
use std::alloc::{AllocError, Global};
use std::collections::BTreeMap;
use text_rows::SourceLine;

/// The lines of a text by the addresses of their words, and the words of the image, for which there are no
/// lines where the source is an image.
#[derive(Drop)]
pub struct WordLines<'a> {
    pub lines: BTreeMap<u32, SourceLine<'a>>,
    pub image: &'a Image,
}

/// The words of a source with their lines. The label of a word may also be alone in a line before.
///
/// # Errors
///
/// An allocation failed.
pub fn words_of<'a>(alloc: Global, source: &'a Source<'_>) -> Result<WordLines<'a>, AllocError>
    ensures lines { IfOk result (λ words. AreLines source.now words.lines) }
    ensures image { IfOk result (λ words. words.image.now ≡ source.now.image) }
{
    let lines = source.lines(alloc)?;
    Ok(WordLines {
        lines,
        image: &source.image,
    })
}
