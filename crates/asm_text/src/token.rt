ghost use Rattle.std.specs.Prelude.{◌≡◌, ◌∷◌, ◌<◌, ◌≤◌, length, map, drop, MatchOption, IfOk};
ghost use Rattle.std.specs.Prelude.{[], List, false};
ghost use Rattle.std.specs.List.{prefix_len};
ghost use Rattle.asm_text.specs.Pieces.{is_blank, is_name, mark_of, pieces, piece_of, Piece, first_blank};
ghost use Rattle.asm_text.specs.Lines.{Written, WellSpaced};
ghost use Rattle.asm_text.specs.Statements.{begins_blank_or_ends, drop_while};
ghost use Rattle.asm_text.specs.Statements.{word_ends};

use std::alloc::{AllocError, Global};

// How many pieces most lines have at most.
const USUAL: usize = 16;

/// A byte that is no letter, digit, `_`, blank or comma.
#[derive(Clone, Copy)]
pub enum Mark {
    /// `#`
    Hash,
    /// `-`
    Minus,
    /// `!`
    Bang,
    /// `^`
    Caret,
    /// `&`
    Ampersand,
    /// `[`
    OpenBracket,
    /// `]`
    CloseBracket,
    /// `{`
    OpenBrace,
    /// `}`
    CloseBrace,
    /// Any other, which no statement has.
    Other,
}

/// A piece of a line.
#[derive(Clone, Copy, Default)]
pub(crate) enum Token<'a> {
    /// Letters, digits and `_`, as many as are side by side.
    Run(&'a [u8]),
    /// A comma, with the blanks round it.
    Comma,
    /// Any other byte.
    Sign(Mark),
    /// Blanks between two pieces, neither of them a comma.
    #[default]
    Gap,
}

fn mark_of(b: u8) -> Mark
    ensures { result ≡ mark_of b }
{
    match b {
        b'#' => Mark::Hash,
        b'-' => Mark::Minus,
        b'!' => Mark::Bang,
        b'^' => Mark::Caret,
        b'&' => Mark::Ampersand,
        b'[' => Mark::OpenBracket,
        b']' => Mark::CloseBracket,
        b'{' => Mark::OpenBrace,
        b'}' => Mark::CloseBrace,
        _ => Mark::Other,
    }
}

/// Whether a byte is a space or a tab.
pub fn is_blank(b: u8) -> bool
    ensures { result ≡ is_blank b }
{
    b == b' ' || b == b'\t'
}

/// Whether a byte is a letter, a digit or `_`.
pub(crate) fn is_name(b: u8) -> bool
    ensures { result ≡ is_name b }
{
    b.is_ascii_alphanumeric() || b == b'_'
}

fn blanks_len(text: &[u8]) -> usize
    ensures len { result ≡ prefix_len is_blank text.now }
    ensures within { result ≤ length text.now }
{
    text.iter().take_while(|b| is_blank(**b)).count()
}

fn name_len(text: &[u8]) -> usize
    ensures len { result ≡ prefix_len is_name text.now }
    ensures within { result ≤ length text.now }
{
    text.iter().take_while(|b| is_name(**b)).count()
}

fn tail(text: &[u8]) -> &[u8]
    requires { 0 < length text.now }
    ensures { result.now ≡ drop 1 text.now }
{
    &text[1..]
}

/// What follows the blanks at the front of a text.
pub fn after_blanks(text: &[u8]) -> &[u8]
    ensures rest { result.now ≡ drop (prefix_len is_blank text.now) text.now }
    ensures within { length result.now ≤ length text.now }
{
    &text[blanks_len(text)..]
}

fn after_name(text: &[u8]) -> &[u8]
    ensures { result.now ≡ drop_while is_name text.now }
{
    &text[name_len(text)..]
}

fn begins_blank_or_ends(text: &[u8]) -> bool
    ensures { result ≡ begins_blank_or_ends text.now }
{
    match text {
        [] => true,
        [b, ..] => is_blank(*b),
    }
}

/// Whether a blank or nothing follows the word of a line, or comes where a word would end.
pub(crate) fn word_ends(line: &[u8]) -> bool
    ensures { result ≡ word_ends line.now }
{
    begins_blank_or_ends(after_name(after_blanks(after_name(line))))
}

// The first piece of a text that begins with no blank, and the text after it.
fn solid(text: &[u8]) -> Option<(Token<'_>, &[u8])>
    requires { first_blank text.now ≡ false }
    ensures { MatchOption result (text.now ≡ []) (λ found.
        (pieces text.now ≡ piece_of found.0 ∷ pieces found.1.now) × (length found.1.now < length text.now)) }
{
    if text.is_empty() {
        return None;
    }
    let b = text[0];
    if b == b',' {
        Some((Token::Comma, after_blanks(tail(text))))
    } else if is_name(b) {
        let (run, after) = text.split_at(name_len(text));
        Some((Token::Run(run), after))
    } else {
        Some((Token::Sign(mark_of(b)), tail(text)))
    }
}

/// The first piece, and the text after it.
pub(crate) fn next(text: &[u8]) -> Option<(Token<'_>, &[u8])>
    ensures { MatchOption result (pieces text.now ≡ []) (λ found.
        (pieces text.now ≡ piece_of found.0 ∷ pieces found.1.now) × (length found.1.now < length text.now)) }
{
    let rest = after_blanks(text);
    if rest.is_empty() {
        None
    } else if rest[0] != b',' && rest.len() < text.len() {
        Some((Token::Gap, rest))
    } else {
        solid(rest)
    }
}

/// The pieces of a line without its comment: the one list that is written in this way. Fails where an
/// allocation fails.
pub(crate) fn tokens(alloc: Global, line: &[u8]) -> Result<Vec<Token<'_>>, AllocError>
    ensures written { IfOk result (λ v. Written (map piece_of v.items) line.now) }
    ensures spaced { IfOk result (λ v. WellSpaced (map piece_of v.items)) }
    ensures only { IfOk result
        (λ v. (ps : List Piece) → Written ps line.now → WellSpaced ps → map piece_of v.items ≡ ps) }
    ensures exact { IfOk result (λ v. map piece_of v.items ≡ pieces line.now) }
{
    read_tokens(alloc, line)
}

fn read_tokens(alloc: Global, line: &[u8]) -> Result<Vec<Token<'_>>, AllocError>
    ensures exact { IfOk result (λ v. map piece_of v.items ≡ pieces line.now) }
{
    let mut found = Vec::with_capacity(alloc, USUAL)?;
    let mut rest = line;
    while let Some((token, after)) = next(rest) {
        found.push(token)?;
        rest = after;
    }
    Ok(found)
}
