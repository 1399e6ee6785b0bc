//! Text in HTML.

ghost use Rattle.std.specs.Prelude.{◌≡◌, ◌++◌, OnOk};
ghost use Rattle.text_page.specs.Html.{escape, escaped};

use std::alloc::AllocError;
use text_rows::put;

// Adds a byte as text.
fn put_byte(out: &mut Vec<u8>, byte: u8) -> Result<(), AllocError>
    ensures { OnOk result (out.new.items ≡ out.old.items ++ escape byte) }
{
    if byte == b'&' {
        return put(out, b"&amp;");
    }
    if byte == b'<' {
        return put(out, b"&lt;");
    }
    if byte == b'>' {
        return put(out, b"&gt;");
    }
    if byte == b'"' {
        return put(out, b"&quot;");
    }
    if byte == b'\'' {
        return put(out, b"&#39;");
    }
    if byte == b'\t' {
        out.push(byte)?;
        return Ok(());
    }
    if 32 <= byte && byte <= 126 {
        out.push(byte)?;
        return Ok(());
    }
    put(out, b"&#xFFFD;")
}

/// Adds a text, each byte of it escaped. `AllocError`: an allocation failed.
pub(crate) fn put_escaped(out: &mut Vec<u8>, text: &[u8]) -> Result<(), AllocError>
    ensures { OnOk result (out.new.items ≡ out.old.items ++ escaped text.now) }
{
    for byte in text {
        put_byte(out, *byte)?;
    }
    Ok(())
}
