ghost use Rattle.std.specs.Prelude.{◌≡◌, ℕ, IfOk, OnOk, nat_eq};
ghost use Rattle.std.specs.Map.{update_all};
ghost use Rattle.image.specs.Labels.{NamedAddresses};
ghost use Rattle.text_rows.specs.Addresses.{IsNamed};
ghost use Rattle.text_rows.specs.LineLabels.{AreNamed};
ghost use Rattle.text_rows.specs.WordLines.{AreLinesOf, numbered, numbered_at, words_from};

use crate::line_labels::{SourceLine, label_of};
use asm_text::first_line;
use assembler::{PlacedLine, Program};
use std::alloc::{AllocError, Global};
use std::collections::BTreeMap;

// Adds the line at the addresses of its words, the first of which has the label.
fn add_words<'a>(
    lines: &mut BTreeMap<u32, SourceLine<'a>>,
    placed: PlacedLine,
    line: SourceLine<'a>,
) -> Result<(), AllocError>
    ensures named { OnOk result
        ((names : NamedAddresses) → IsNamed names placed.at line.entry.label.now → AreNamed names lines.old
        → AreNamed names lines.new) }
    ensures words { OnOk result
        ((at : ℕ) → numbered_at lines.new at ≡ update_all nat_eq (numbered_at lines.old)
        (words_from placed.at placed.words (numbered line.entry)) at) }
{
    let mut at = placed.at;
    let mut shown = line;
    for _ in 0..placed.words {
        lines.insert(at, shown)?;
        at = at.wrapping_add(4);
        shown.label = b"";
    }
    Ok(())
}

/// The lines of a source by the addresses of their words. The label of a line's first word is the one in its
/// first column, or may be alone in a line before. There are no lines where none is placed, as of an image.
///
/// # Errors
///
/// An allocation failed.
pub fn source_lines<'a>(
    alloc: Global,
    program: &Program<'a>,
) -> Result<BTreeMap<u32, SourceLine<'a>>, AllocError>
    ensures named { IfOk result (AreNamed program.now.labels.now) }
    ensures words { IfOk result
        (AreLinesOf program.now.labels.now program.now.source.now program.now.placed.now) }
{
    let mut lines = BTreeMap::new(alloc);
    let mut rest = program.source;
    let mut before: &[u8] = b"";
    let mut number = 1;
    for placed in program.placed {
        let Some((text, after)) = first_line(rest) else {
            return Ok(lines);
        };
        let label = label_of(program.labels, text, before, placed.at);
        let line = SourceLine {
            number,
            label,
            text,
        };
        add_words(&mut lines, *placed, line)?;
        before = label;
        rest = after;
        number += 1;
    }
    Ok(lines)
}
