ghost use Rattle.std.specs.Prelude.{◌≡◌, ◌==◌, Some, IfSome, IfOk};
ghost use Rattle.asm_text.specs.Words.{IsSpelling, branch_of, plain_of, spelled_word_of, whole_cond};
ghost use Rattle.asm_text.specs.Words.{with_suffix, word_of};
ghost use Rattle.asm_text.specs.Names.{suffix_of};
ghost use Rattle.std.specs.Char.{to_ascii_lowercase, to_ascii_uppercase};
ghost use Rattle.std.specs.List.{list_all};
ghost use Rattle.asm_text.specs.declared.word.Word.{Word};

use crate::names::{Head, Suffix, cond_of, head_of, may_have, suffix_of};
use arm2_decode::Cond;
use std::alloc::{AllocError, Global};

/// A word of the source, without its spelling.
#[derive(Clone, Copy)]
pub enum Word {
    /// A head, a condition and a suffix.
    Plain(Head, Cond, Suffix),
    /// B, or BL, which links.
    Branch { link: bool, cond: Cond },
    /// ORG.
    Org,
    /// DCD.
    Dcd,
}

fn whole_cond(text: &[u8]) -> Option<Cond>
    ensures { result ≡ whole_cond text.now }
{
    if text.is_empty() {
        Some(Cond::Al)
    } else {
        cond_of(text)
    }
}

fn branch_of(text: &[u8]) -> Option<Word>
    ensures { result ≡ branch_of text.now }
{
    match text {
        [b'B', rest @ ..] => {
            if let Some(c) = whole_cond(rest) {
                return Some(Word::Branch {
                    link: false,
                    cond: c,
                });
            }
            match rest {
                [b'L', after @ ..] => whole_cond(after).map(|c| Word::Branch {
                    link: true,
                    cond: c,
                }),
                _ => None,
            }
        }
        _ => None,
    }
}

fn with_suffix(head: Head, cond: Cond, text: &[u8]) -> Option<Word>
    ensures { result ≡ with_suffix head cond (suffix_of text.now) }
{
    let suffix = suffix_of(text)?;
    if may_have(head, suffix) {
        Some(Word::Plain(head, cond, suffix))
    } else {
        None
    }
}

#[tactic(auto, using(crate::proofs::WordLaws::short_plain))]
fn plain_of(text: &[u8]) -> Option<Word>
    ensures { result ≡ plain_of text.now }
{
    if text.len() < 3 {
        return None;
    }
    let (name, rest) = text.split_at(3);
    let head = head_of(name)?;
    if rest.len() < 2 {
        return with_suffix(head, Cond::Al, rest);
    }
    let (front, after) = rest.split_at(2);
    match cond_of(front) {
        Some(c) => with_suffix(head, c, after),
        None => with_suffix(head, Cond::Al, rest),
    }
}

/// The word that a text in upper case spells.
#[tactic(auto, unfolding(crate::specs::Words::word_of))]
pub(crate) fn word_of(text: &[u8]) -> Option<Word>
    ensures { result ≡ word_of text.now }
{
    if text == b"ORG".as_slice() {
        Some(Word::Org)
    } else if text == b"DCD".as_slice() {
        Some(Word::Dcd)
    } else if let Some(w) = branch_of(text) {
        Some(w)
    } else {
        plain_of(text)
    }
}

// Whether the text is the same in upper case.
fn is_wholly_upper(text: &[u8]) -> bool
    ensures { result ≡ list_all (λ b. b == to_ascii_uppercase b) text.now }
{
    text.iter().all(|b| *b == b.to_ascii_uppercase())
}

// Whether the text is the same in lower case.
fn is_wholly_lower(text: &[u8]) -> bool
    ensures { result ≡ list_all (λ b. b == to_ascii_lowercase b) text.now }
{
    text.iter().all(|b| *b == b.to_ascii_lowercase())
}

fn read_spelling(alloc: Global, text: &[u8]) -> Result<Option<Word>, AllocError>
    ensures { IfOk result (λ word. word ≡ spelled_word_of text.now) }
{
    // Most sources are in upper case, whose words need no copy.
    if is_wholly_upper(text) {
        return Ok(word_of(text));
    }
    if !is_wholly_lower(text) {
        return Ok(None);
    }
    let upper = text.to_ascii_uppercase(alloc)?;
    Ok(word_of(&upper))
}

/// The word that a text spells, wholly in upper or in lower case. No text spells two. Fails where an
/// allocation fails.
pub(crate) fn spelled_word(alloc: Global, text: &[u8]) -> Result<Option<Word>, AllocError>
    ensures found { IfOk result (λ word. IfSome word (λ w. IsSpelling text.now w)) }
    ensures only { IfOk result (λ word. (w : Word) → IsSpelling text.now w → word ≡ Some w) }
    ensures exact { IfOk result (λ word. word ≡ spelled_word_of text.now) }
{
    read_spelling(alloc, text)
}
