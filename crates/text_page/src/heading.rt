//! The head of a page.

ghost use Rattle.std.specs.Prelude.{◌≡◌, ◌++◌, OnOk};
ghost use Rattle.text_page.specs.Page.{heading, label_text, names, style};

use crate::cells::put_address_link;
use crate::html::put_escaped;
use std::alloc::AllocError;
use text_explained::put_time;
use text_rows::put;

const BODY: &[u8] =
    b"<style>\nbody{font:14px monospace;margin:1em}h1{font-size:1.3em;margin:0}a{color:inherit}\n";

const ROW: &[u8] =
    b".row{display:grid;grid-template-columns:8ch 7ch 9ch 7ch 32ch auto;column-gap:1ch}\n";

const CELLS: &[u8] =
    b".row>*{text-align:right;white-space:pre}.row>code,.row>.bar{text-align:left}\n";

const GREYS: &[u8] =
    b".names{font-weight:bold;border-bottom:1px solid}.off{color:#777}.never{color:#999}\n";

const BARS: &[u8] =
    b".row>.bar{background:#f4f4f4}.bar i{display:block;height:1em;outline:1px solid #b05000}\n";

const MARKED: &[u8] = b".off i{outline:0}.row:hover,.row:target{background:#e8f0ff}\n</style>\n";

// Adds how the page looks.
fn put_style(out: &mut Vec<u8>) -> Result<(), AllocError>
    ensures { OnOk result (out.new.items ≡ out.old.items ++ style) }
{
    put(out, BODY)?;
    put(out, ROW)?;
    put(out, CELLS)?;
    put(out, GREYS)?;
    put(out, BARS)?;
    put(out, MARKED)
}

// Adds a label behind an address, if there is one.
fn put_label(out: &mut Vec<u8>, label: &[u8]) -> Result<(), AllocError>
    ensures { OnOk result (out.new.items ≡ out.old.items ++ label_text label.now) }
{
    if let [] = label {
        return Ok(());
    }
    put(out, b", ")?;
    put_escaped(out, label)
}

/// Adds the heading, with the bound, in ticks, and the address and the label of the handler's entry, which is
/// empty where it has none. `AllocError`: an allocation failed.
pub(crate) fn put_heading(
    out: &mut Vec<u8>,
    bound: u64,
    entry: u32,
    label: &[u8],
) -> Result<(), AllocError>
    ensures { OnOk result (out.new.items ≡ out.old.items ++ heading bound entry label.now) }
{
    put(
        out,
        b"<!DOCTYPE html>\n<html lang=\"en\">\n<head>\n<meta charset=\"utf-8\">\n<title>",
    )?;
    put_time(out, u128::from(bound))?;
    put(out, b"</title>\n")?;
    put_style(out)?;
    put(out, b"</head>\n<body>\n<h1>")?;
    put_time(out, u128::from(bound))?;
    put(out, b"</h1>\n<p>at most, from the entry at ")?;
    put_address_link(out, entry)?;
    put_label(out, label)?;
    put(out, b"</p>\n")
}

/// Adds the names of the columns. `AllocError`: an allocation failed.
pub(crate) fn put_names(out: &mut Vec<u8>) -> Result<(), AllocError>
    ensures { OnOk result (out.new.items ≡ out.old.items ++ names) }
{
    put(
        out,
        b"<div class=\"row names\"><span>address</span><span>passes</span><span>ticks</span>",
    )?;
    put(
        out,
        b"<span>share</span><span class=\"bar\">of the bound</span><code>line</code></div>\n",
    )
}
