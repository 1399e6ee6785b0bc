ghost use Rattle.std.specs.Prelude.{◌≡◌, ◌<◌, ◌∷◌, ◌++◌, ℕ, List, MatchOption};
ghost use Rattle.std.specs.Fmt.{decimal};
ghost use Rattle.bus_ticks.specs.declared.space.TheConstants.{SPACE_END};
ghost use Rattle.walks.specs.declared.limits.TheConstants.{COST_LIMIT};
ghost use Rattle.asm_text.specs.Hex.{hex};
ghost use Rattle.certificate.specs.Words.{AreCalls, ToFits, label_words, list_words, to_words};
ghost use Rattle.certificate.specs.declared.walk.To.{To};
ghost use Rattle.control_flow.specs.declared.edges.Label.{Label};

use crate::numbers::{decimal_at, hex_at};
use crate::splitting::{after_front, cut_at};
use crate::walk::To;
use control_flow::{Calls, Label};

/// The address that the words begin with, and the words after its blank.
pub(crate) fn address_first(words: &[u8]) -> Option<(u32, &[u8])>
    ensures { MatchOption result
        ((a : ℕ) (rest : List ℕ) → a < SPACE_END → words.now ≡ hex a ++ 32 ∷ rest → ⊥)
        (λ p. (p.0 < SPACE_END) × (words.now ≡ hex p.0 ++ 32 ∷ p.1.now)) }
{
    let (word, rest) = cut_at(b' ', words)?;
    Some((hex_at(word)?, rest))
}

/// The number that the words begin with, and the words after its blank.
pub(crate) fn number_first(words: &[u8]) -> Option<(u64, &[u8])>
    ensures { MatchOption result
        ((n : ℕ) (rest : List ℕ) → n < COST_LIMIT → words.now ≡ decimal n ++ 32 ∷ rest → ⊥)
        (λ p. (p.0 < COST_LIMIT) × (words.now ≡ decimal p.0 ++ 32 ∷ p.1.now)) }
{
    let (word, rest) = cut_at(b' ', words)?;
    Some((decimal_at(word)?, rest))
}

/// The label that the words begin with, and the words after its blank.
pub(crate) fn label_first(words: &[u8]) -> Option<(Label, &[u8])>
    ensures { MatchOption result
        ((label : Label) (rest : List ℕ) → words.now ≡ label_words label ++ 32 ∷ rest → ⊥)
        (λ p. words.now ≡ label_words p.0 ++ 32 ∷ p.1.now) }
{
    if let Some(rest) = after_front(words, b"do ") {
        return Some((Label::Do, rest));
    }
    if let Some(rest) = after_front(words, b"skip ") {
        return Some((Label::Skip, rest));
    }
    None
}

/// Where the words first say that the edge leads, and the words after the blank.
pub(crate) fn to_first(words: &[u8]) -> Option<(To, &[u8])>
    ensures { MatchOption result
        ((to : To) (rest : List ℕ) → ToFits to → words.now ≡ to_words to ++ 32 ∷ rest → ⊥)
        (λ p. ToFits p.0 × (words.now ≡ to_words p.0 ++ 32 ∷ p.1.now)) }
{
    if let Some(rest) = after_front(words, b"exit ") {
        return Some((To::Exit, rest));
    }
    let (address, rest) = address_first(words)?;
    Some((To::At(address), rest))
}

/// The calls that the word spells.
pub(crate) fn calls_at(word: &[u8]) -> Option<Calls>
    ensures { MatchOption result ((calls : List ℕ) → AreCalls calls → word.now ≡ list_words calls → ⊥)
        (λ calls. AreCalls calls × (word.now ≡ list_words calls)) }
{
    if word == b"-".as_slice() {
        return Some(Calls::new());
    }
    let mut calls = Calls::new();
    let mut rest = word;
    while let Some((first, after)) = cut_at(b'/', rest) {
        calls = calls.with(hex_at(first)?)?;
        rest = after;
    }
    calls.with(hex_at(rest)?)
}
