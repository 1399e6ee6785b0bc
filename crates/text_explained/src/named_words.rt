ghost use Rattle.std.specs.Prelude.{◌≡◌, ◌==◌, IfOk, OnOk};
ghost use Rattle.std.specs.List.{list_any};
ghost use Rattle.std.specs.List.Sorted.{IsStrictlySortedBy};
ghost use Rattle.std.specs.Ordering.{nat_cmp};
ghost use Rattle.std.proofs.Props.{props};
ghost use Rattle.text_explained.specs.Assumed.{AreNamedRows, IsNamedRow, row_if_named};
ghost use Rattle.asm_text.specs.Appended.{Appends};

use sources::{ImageRows, Source};
use std::alloc::{AllocError, Global};
use text_rows::{NumberedLine, WordRows, put_named_row, put_shown_row};

fn is_named(named: &[u32], at: u32) -> bool
    requires { IsStrictlySortedBy nat_cmp named.now }
    ensures { result ≡ list_any (λ a. a == at) named.now }
{
    named.binary_search(&at).is_ok()
}

// Words by their addresses, which ascend.
#[derive(Clone, Copy)]
struct Named<'a> {
    addresses: &'a [u32],
    ghost ascending: { IsStrictlySortedBy nat_cmp addresses.now } by { Prim.hlevel props },
}

impl WordRows for Named<'_> {
    ghost word_row = { λ named. row_if_named named.addresses.now };

    fn put(&self, out: &mut Vec<u8>, line: NumberedLine<'_>, at: u32) -> Result<(), AllocError> {
        if !is_named(self.addresses, at) {
            return Ok(());
        }
        put_named_row(out, 0, line, at)
    }
}

// Adds the row of an image's word, if that is named.
fn put_word(out: &mut Vec<u8>, named: &[u32], at: u32, word: u32) -> Result<(), AllocError>
    requires { IsStrictlySortedBy nat_cmp named.now }
    ensures { OnOk result (Appends (IsNamedRow named.now (at, word)) out.old.items out.new.items) }
{
    if !is_named(named, at) {
        return Ok(());
    }
    put_shown_row(out, 0, at, word)
}

impl ImageRows for Named<'_> {
    ghost is_row = { λ named. IsNamedRow named.addresses.now };

    fn put_word(&self, out: &mut Vec<u8>, at: u32, word: u32) -> Result<(), AllocError> {
        put_word(out, self.addresses, at, word)
    }
}

/// The rows of those of a source's words that are named: the address of each, and the number and the text of
/// its line; of an image the address, the word, and the line that
/// [`disassemble`](assembler::disassemble) shows. The named addresses ascend.
///
/// # Errors
///
/// An allocation failed.
pub fn named_rows(alloc: Global, source: &Source<'_>, named: &[u32]) -> Result<Vec<u8>, AllocError>
    requires { IsStrictlySortedBy nat_cmp named.now }
    ensures { IfOk result (λ rows. AreNamedRows source.now named.now rows.items) }
{
    let mut out = Vec::new(alloc);
    source.put_word_rows(&mut out, &Named { addresses: named })?;
    Ok(out)
}
