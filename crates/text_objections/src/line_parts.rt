//! Parts of lines.

ghost use Rattle.std.specs.Prelude.{◌≡◌, ◌++◌, OnOk};
ghost use Rattle.asm_text.specs.Hex.{hex};
ghost use Rattle.certificate.specs.Words.{label_words, list_words};
ghost use Rattle.text_objections.specs.Texts.{edge_lines, place_line, place_name};

use asm_text::hex;
use control_flow::{Calls, Edge, Label, Place};
use std::alloc::AllocError;
use text_rows::{put, put_decimal};

// Adds a number in upper-case hexadecimal.
fn put_hex(out: &mut Vec<u8>, number: u32) -> Result<(), AllocError>
    ensures { OnOk result (out.new.items ≡ out.old.items ++ hex number) }
{
    put(out, hex(u64::from(number)).as_slice())
}

// Adds addresses of calls, as a certificate has them.
fn put_calls(out: &mut Vec<u8>, calls: &Calls) -> Result<(), AllocError>
    ensures { OnOk result (out.new.items ≡ out.old.items ++ list_words calls.now) }
{
    let [first, rest @ ..] = calls.items() else {
        return put(out, b"-");
    };
    put_hex(out, *first)?;
    for call in rest {
        put(out, b"/")?;
        put_hex(out, *call)?;
    }
    Ok(())
}

// Adds the name of a place.
fn put_name(out: &mut Vec<u8>, place: &Place) -> Result<(), AllocError>
    ensures { OnOk result (out.new.items ≡ out.old.items ++ place_name place.now) }
{
    match place {
        Place::At(calls, address) => {
            put_calls(out, calls)?;
            put(out, b" ")?;
            put_hex(out, *address)
        }
        Place::Exit => put(out, b"exit"),
    }
}

/// Adds the line of a place, after a word.
pub(crate) fn put_place(out: &mut Vec<u8>, word: &[u8], place: &Place) -> Result<(), AllocError>
    ensures { OnOk result (out.new.items ≡ out.old.items ++ place_line word.now place.now) }
{
    put(out, b"  ")?;
    put(out, word)?;
    put(out, b" ")?;
    put_name(out, place)?;
    put(out, b"\n")
}

fn put_label(out: &mut Vec<u8>, label: Label) -> Result<(), AllocError>
    ensures { OnOk result (out.new.items ≡ out.old.items ++ label_words label) }
{
    match label {
        Label::Skip => put(out, b"skip"),
        Label::Do => put(out, b"do"),
    }
}

/// Adds the lines of an edge.
pub(crate) fn put_edge(out: &mut Vec<u8>, edge: &Edge) -> Result<(), AllocError>
    ensures { OnOk result (out.new.items ≡ out.old.items ++ edge_lines edge.now) }
{
    put_place(out, b"from", &edge.from)?;
    put_place(out, b"to", &edge.to)?;
    put(out, b"  ")?;
    put_label(out, edge.label)?;
    put(out, b" ")?;
    put_decimal(out, u64::from(edge.cost))?;
    put(out, b"\n")
}
