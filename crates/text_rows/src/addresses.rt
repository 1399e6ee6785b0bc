ghost use Rattle.std.specs.Prelude.{◌≡◌, ◌++◌, OnOk};
ghost use Rattle.text_rows.specs.Addresses.{label_or_number, toml_number, quoted};

use crate::text_columns::put;
use asm_text::hex8;
use std::alloc::AllocError;

// Adds a name in double quotes. An error says that an allocation failed.
fn put_quoted(out: &mut Vec<u8>, name: &[u8]) -> Result<(), AllocError>
    ensures { OnOk result (out.new.items ≡ out.old.items ++ quoted name.now) }
{
    put(out, b"\"")?;
    put(out, name)?;
    put(out, b"\"")
}

// Adds an address as a number of TOML.
fn put_toml_number(out: &mut Vec<u8>, at: u32) -> Result<(), AllocError>
    ensures { OnOk result (out.new.items ≡ out.old.items ++ toml_number at) }
{
    put(out, b"0x")?;
    put(out, &hex8(at))
}

/// Adds an address as a statement has it: its label in double quotes, or the number where the label is empty.
///
/// # Errors
///
/// An allocation failed.
pub fn put_labelled(out: &mut Vec<u8>, label: &[u8], at: u32) -> Result<(), AllocError>
    ensures { OnOk result (out.new.items ≡ out.old.items ++ label_or_number label.now at) }
{
    if label.is_empty() {
        return put_toml_number(out, at);
    }
    put_quoted(out, label)
}
