//! Which known name a word that is none looks like.

ghost use Rattle.std.specs.Prelude.{◌≡◌, IfOk, find, map, option_map};
ghost use Rattle.text_refusals.specs.Nearest.{asked_text, is_changed, looks_like, meant_text};

use std::alloc::{AllocError, Global};
use strsim::generic_levenshtein;
use text_rows::put;

// Whether so many changes make the name of the word, and leave a letter of it.
fn is_changed(alloc: Global, changes: usize, word: &[u8], name: &[u8]) -> Result<bool, AllocError>
    ensures { IfOk result (λ yes. yes ≡ is_changed changes word.now name.now) }
{
    if changes >= name.len() {
        return Ok(false);
    }
    // A long word is not compared.
    if word.len().saturating_sub(changes) > name.len() {
        return Ok(false);
    }
    let found = generic_levenshtein(alloc, word, name)?;
    Ok(found == changes)
}

// The first of the names that so many changes make of the word.
fn changed_name<'n>(
    alloc: Global,
    changes: usize,
    word: &[u8],
    names: &[&'n [u8]],
) -> Result<Option<&'n [u8]>, AllocError>
    ensures { IfOk result
        (λ name. option_map (λ n. n.now) name
        ≡ find (is_changed changes word.now) (map (λ n. n.now) names.now)) }
{
    for name in names {
        if is_changed(alloc, changes, word, name)? {
            return Ok(Some(*name));
        }
    }
    Ok(None)
}

/// The first of the names that one change makes of the word, or else two.
/// `AllocError`: an allocation failed.
pub(crate) fn looks_like<'n>(
    alloc: Global,
    names: &[&'n [u8]],
    word: &[u8],
) -> Result<Option<&'n [u8]>, AllocError>
    ensures { IfOk result
        (λ name. option_map (λ n. n.now) name ≡ looks_like (map (λ n. n.now) names.now) word.now) }
{
    let near = changed_name(alloc, 1, word, names)?;
    if near.is_some() {
        return Ok(near);
    }
    changed_name(alloc, 2, word, names)
}

/// The question whether the name was meant.
/// `AllocError`: an allocation failed.
pub(crate) fn asked_text(alloc: Global, name: Option<&[u8]>) -> Result<Vec<u8>, AllocError>
    ensures { IfOk result (λ text. text.items ≡ asked_text (option_map (λ n. n.now) name.entry)) }
{
    let mut out = Vec::new(alloc);
    if let Some(name) = name {
        put(&mut out, b"; did you mean ")?;
        put(&mut out, name)?;
        put(&mut out, b"?")?;
    }
    Ok(out)
}

// The bytes of each name.
fn bytes_of<'n>(alloc: Global, names: &[&'n str]) -> Result<Vec<&'n [u8]>, AllocError>
    ensures { IfOk result
        (λ bytes. map (λ b. b.now) bytes.items ≡ map (λ n. n.now) names.now) }
{
    names.iter().map(|name| name.as_bytes()).collect(alloc)
}

/// The question whether one of the names was meant that the word looks like, if it looks like one.
/// `AllocError`: an allocation failed.
pub(crate) fn meant_text(alloc: Global, names: &[&str], word: &[u8]) -> Result<Vec<u8>, AllocError>
    ensures { IfOk result (λ text. text.items ≡ meant_text (map (λ n. n.now) names.now) word.now) }
{
    let names = bytes_of(alloc, names)?;
    let name = looks_like(alloc, &names, word)?;
    asked_text(alloc, name)
}
