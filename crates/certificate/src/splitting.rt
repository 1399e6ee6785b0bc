ghost use Rattle.std.specs.Prelude.{◌≡◌, ◌∷◌, ◌++◌, ℕ, List, MatchOption};
ghost use Rattle.std.specs.Str.Iter.{LacksByte};

use memchr::memchr;

/// The first line, without its line feed, and what follows it; `None` where no line ends.
pub(crate) fn line_first(text: &[u8]) -> Option<(&[u8], &[u8])>
    ensures { MatchOption result (LacksByte 10 text.now)
        (λ p. (text.now ≡ p.0.now ++ 10 ∷ p.1.now) × LacksByte 10 p.0.now) }
{
    match memchr(b'\n', text) {
        Some(at) => Some((&text[..at], &text[at + 1..])),
        None => None,
    }
}

/// What comes before the first such byte, and what follows it; `None` where there is none. For the
/// parts of a line, which are short.
pub(crate) fn cut_at(mark: u8, text: &[u8]) -> Option<(&[u8], &[u8])>
    ensures { MatchOption result (LacksByte mark text.now)
        (λ p. (text.now ≡ p.0.now ++ mark ∷ p.1.now) × LacksByte mark p.0.now) }
{
    for (i, byte) in text.iter().enumerate() {
        if *byte == mark {
            return Some((&text[..i], &text[i + 1..]));
        }
    }
    None
}

/// What follows the words `front`; `None` where the words do not begin with them.
#[inline]
pub(crate) fn after_front<'a>(words: &'a [u8], front: &[u8]) -> Option<&'a [u8]>
    ensures { MatchOption result ((rest : List ℕ) → words.now ≡ front.now ++ rest → ⊥)
        (λ rest. words.now ≡ front.now ++ rest.now) }
{
    let len = front.len();
    if words.len() < len {
        return None;
    }
    let (head, rest) = words.split_at(len);
    if head == front { Some(rest) } else { None }
}
