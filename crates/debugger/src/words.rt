ghost use Rattle.std.specs.Prelude.{◌≡◌, ◌∷◌, [], ◌≤◌, not, length, MatchOption};
ghost use Rattle.std.specs.List.{prefix_len};
ghost use Rattle.asm_text.specs.Pieces.{is_blank};
ghost use Rattle.debugger.specs.Words.{number_of, words_of};

use asm_text::{after_blanks, is_blank, read_hex};

fn word_len(text: &[u8]) -> usize
    ensures len { result ≡ prefix_len (λ b. not (is_blank b)) text.now }
    ensures within { result ≤ length text.now }
{
    text.iter().take_while(|b| !is_blank(**b)).count()
}

/// The first word of a line, and what follows it. None where there is no word.
pub(crate) fn first_word(line: &[u8]) -> Option<(&[u8], &[u8])>
    ensures { MatchOption result (words_of line.now ≡ [])
        (λ f. words_of line.now ≡ f.0.now ∷ words_of f.1.now) }
{
    let text = after_blanks(line);
    if text.is_empty() {
        return None;
    }
    let (word, rest) = text.split_at(word_len(text));
    Some((word, rest))
}

/// The number that a word spells: decimal, or hexadecimal after `&` or `0x`, below 2^32.
pub(crate) fn number_of(word: &[u8]) -> Option<u32>
    ensures { result ≡ number_of word.now }
{
    match word {
        [b'&', hex @ ..] => read_hex(hex),
        _ => asm_text::read_number(word),
    }
}
