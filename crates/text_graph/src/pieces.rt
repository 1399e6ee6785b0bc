ghost use Rattle.std.specs.Prelude.{◌≡◌, ◌++◌, IfOk, OnOk};
ghost use Rattle.std.specs.String.{string_bytes};
ghost use Rattle.asm_text.specs.Hex.{hex8};
ghost use Rattle.text_explained.specs.Columns.{share_text, thousandths};
ghost use Rattle.text_graph.specs.Fills.{fill};
ghost use Rattle.text_graph.specs.Pieces.{edge_end, edge_name, edge_taken, escape, escaped, name, node_end};
ghost use Rattle.text_graph.specs.Pieces.{node_taken, shared, times};

use asm_text::hex8;
use control_flow::Label;
use std::alloc::{AllocError, Global};
use text_rows::{put, put_decimal};

/// Adds an address, in eight digits.
pub(crate) fn put_address(out: &mut Vec<u8>, address: u32) -> Result<(), AllocError>
    ensures { OnOk result (out.new.items ≡ out.old.items ++ hex8 address) }
{
    put(out, &hex8(address))
}

/// Adds the name of the node whose stretch begins with the number.
pub(crate) fn put_name(out: &mut Vec<u8>, number: usize) -> Result<(), AllocError>
    ensures { OnOk result (out.new.items ≡ out.old.items ++ name number) }
{
    put(out, b"n")?;
    put_decimal(out, number as u64)
}

// A part of the bound in thousandths, rounded down.
fn thousandths(ticks: u64, bound: u64) -> u128
    ensures { result ≡ thousandths ticks bound }
{
    u128::from(ticks) * 1000 / u128::from(bound.max(1))
}

// What part of the bound the ticks are, in per cent.
fn share_text(alloc: Global, ticks: u64, bound: u64) -> Result<String, AllocError>
    ensures { IfOk result (λ text. string_bytes text ≡ share_text ticks bound) }
{
    let share = thousandths(ticks, bound);
    format!(in alloc; "{}.{}%", share / 10, share % 10)
}

/// Adds ticks, and what part of the bound they are.
pub(crate) fn put_shared(out: &mut Vec<u8>, ticks: u64, bound: u64) -> Result<(), AllocError>
    ensures { OnOk result (out.new.items ≡ out.old.items ++ shared ticks bound) }
{
    put(out, b"ticks ")?;
    put_decimal(out, ticks)?;
    put(out, b", ")?;
    let share = share_text(*out.allocator(), ticks, bound)?;
    put(out, share.as_bytes())
}

// The fill of a node, by its share in thousandths.
fn fill(share: u128) -> &'static [u8]
    ensures { result.now ≡ fill share }
{
    if 400 <= share {
        return b"#f07818";
    }
    if 200 <= share {
        return b"#fb9a4b";
    }
    if 100 <= share {
        return b"#fdb97d";
    }
    if 50 <= share {
        return b"#fdd9b4";
    }
    b"#fff5eb"
}

/// The fill of what takes so many ticks of the bound, by its share: an HTML colour, of five, the darker the
/// larger the share is.
pub fn share_fill(ticks: u64, bound: u64) -> &'static [u8]
    ensures { result.now ≡ fill (thousandths ticks bound) }
{
    fill(thousandths(ticks, bound))
}

// Adds what the walk takes in a node that it passes, and ends the node.
fn put_node_taken(out: &mut Vec<u8>, passes: u64, ticks: u64, bound: u64) -> Result<(), AllocError>
    ensures { OnOk result (out.new.items ≡ out.old.items ++ node_taken passes ticks bound) }
{
    put(out, b"passes ")?;
    put_decimal(out, passes)?;
    put(out, b", ")?;
    put_shared(out, ticks, bound)?;
    put(out, b"\\l\", fillcolor=\"")?;
    put(out, fill(thousandths(ticks, bound)))?;
    put(out, b"\"];")
}

/// Adds what the walk takes in a node, if it passes it, and ends the node.
pub(crate) fn put_node_end(
    out: &mut Vec<u8>,
    passes: u64,
    ticks: u64,
    bound: u64,
) -> Result<(), AllocError>
    ensures { OnOk result (out.new.items ≡ out.old.items ++ node_end passes ticks bound) }
{
    if passes == 0 {
        return put(out, b"\", color=grey, fontcolor=grey50];");
    }
    put_node_taken(out, passes, ticks, bound)
}

fn put_edge_name(out: &mut Vec<u8>, label: Label) -> Result<(), AllocError>
    ensures { OnOk result (out.new.items ≡ out.old.items ++ edge_name label) }
{
    match label {
        Label::Skip => put(out, b"skip "),
        Label::Do => put(out, b"do "),
    }
}

// Adds so many times the ticks of an edge.
fn put_times(out: &mut Vec<u8>, count: u64, cost: u32) -> Result<(), AllocError>
    ensures { OnOk result (out.new.items ≡ out.old.items ++ times count cost) }
{
    if count == 1 {
        return put_decimal(out, u64::from(cost));
    }
    put_decimal(out, count)?;
    put(out, b"\xC3\x97")?;
    put_decimal(out, u64::from(cost))
}

// Adds what the walk takes of an edge, and ends the edge.
fn put_edge_taken(out: &mut Vec<u8>, label: Label, count: u64, cost: u32) -> Result<(), AllocError>
    ensures { OnOk result (out.new.items ≡ out.old.items ++ edge_taken label count cost) }
{
    put(out, b" [label=\" ")?;
    put_edge_name(out, label)?;
    put_times(out, count, cost)?;
    put(out, b"\", style=bold];\n")
}

/// Adds what the walk takes of an edge, if it does, and ends the edge.
pub(crate) fn put_edge_end(
    out: &mut Vec<u8>,
    label: Label,
    count: u64,
    cost: u32,
) -> Result<(), AllocError>
    ensures { OnOk result (out.new.items ≡ out.old.items ++ edge_end label count cost) }
{
    if count == 0 {
        return put(out, b" [color=grey];\n");
    }
    put_edge_taken(out, label, count, cost)
}

// Adds a byte inside of quotes.
fn put_byte(out: &mut Vec<u8>, byte: u8) -> Result<(), AllocError>
    ensures { OnOk result (out.new.items ≡ out.old.items ++ escape byte) }
{
    if byte == b'"' {
        return put(out, b"\\\"");
    }
    if byte == b'\\' {
        return put(out, b"\\\\");
    }
    if byte == b'&' {
        return put(out, b"&amp;");
    }
    if byte == b'\t' {
        return put(out, b" ");
    }
    if 32 <= byte && byte <= 126 {
        out.push(byte)?;
        return Ok(());
    }
    put(out, b"?")
}

/// Adds a text inside of quotes.
pub(crate) fn put_escaped(out: &mut Vec<u8>, text: &[u8]) -> Result<(), AllocError>
    ensures { OnOk result (out.new.items ≡ out.old.items ++ escaped text.now) }
{
    for byte in text {
        put_byte(out, *byte)?;
    }
    Ok(())
}
