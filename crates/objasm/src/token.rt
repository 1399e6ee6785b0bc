ghost use Rattle.std.specs.Prelude.{◌≡◌, ◌∷◌, ◌<◌, ◌≤◌, [], length, map, drop, MatchOption, IfOk, option_map};
ghost use Rattle.std.specs.List.{prefix_len};
ghost use Rattle.asm_text.specs.Pieces.{is_name};
ghost use Rattle.objasm.specs.Parts.{after_blanks, after_field, blank_len, field_len, first_field};
ghost use Rattle.objasm.specs.Parts.{front_blanks, is_over, lone_run};
ghost use Rattle.objasm.specs.Parts.{goes_on, is_blank_part, is_stop, part_of, parts};

use asm_text::is_blank;
use std::alloc::{AllocError, Global};

// How many parts most lines have at most.
const USUAL: usize = 24;

/// A part of a line.
#[derive(Clone, Copy)]
pub(crate) enum Token<'a> {
    /// Letters, digits and `_`, as many as are side by side.
    Run(&'a [u8]),
    /// Any other byte.
    Byte(u8),
}

// Whether a byte is a letter, a digit or `_`.
fn is_name(b: u8) -> bool
    ensures { result ≡ is_name b }
{
    b.is_ascii_alphanumeric() || b == b'_'
}

fn name_len(text: &[u8]) -> usize
    ensures len { result ≡ prefix_len is_name text.now }
    ensures within { result ≤ length text.now }
{
    text.iter().take_while(|b| is_name(**b)).count()
}

fn tail(text: &[u8]) -> &[u8]
    requires { 0 < length text.now }
    ensures { result.now ≡ drop 1 text.now }
{
    &text[1..]
}

// The first part of a text, and the text after it.
fn next(text: &[u8]) -> Option<(Token<'_>, &[u8])>
    ensures { MatchOption result (parts text.now ≡ []) (λ found.
        (parts text.now ≡ part_of found.0 ∷ parts found.1.now) × (length found.1.now < length text.now)) }
{
    if text.is_empty() {
        return None;
    }
    let b = text[0];
    if is_name(b) {
        let (run, after) = text.split_at(name_len(text));
        Some((Token::Run(run), after))
    } else {
        Some((Token::Byte(b), tail(text)))
    }
}

/// The parts of a text. Fails where an allocation fails.
pub(crate) fn tokens(alloc: Global, text: &[u8]) -> Result<Vec<Token<'_>>, AllocError>
    ensures { IfOk result (λ v. map part_of v.items ≡ parts text.now) }
{
    let mut found = Vec::with_capacity(alloc, USUAL)?;
    let mut rest = text;
    while let Some((token, after)) = next(rest) {
        found.push(token)?;
        rest = after;
    }
    Ok(found)
}

/// Whether a byte ends what is written in one place of a list of operands.
pub(crate) fn is_stop(b: u8) -> bool
    ensures { result ≡ is_stop b }
{
    matches!(b, b',' | b'#' | b'[' | b']' | b'{' | b'}' | b'!' | b'^')
}

fn is_blank_part(token: Token<'_>) -> bool
    ensures { result ≡ is_blank_part (part_of token.entry) }
{
    match token {
        Token::Run(_) => false,
        Token::Byte(b) => is_blank(b),
    }
}

fn goes_on(token: Token<'_>) -> bool
    ensures { result ≡ goes_on (part_of token.entry) }
{
    match token {
        Token::Run(_) => true,
        Token::Byte(b) => !is_stop(b),
    }
}

fn blanks(tokens: &[Token<'_>]) -> usize
    ensures len { result ≡ prefix_len (λ t. is_blank_part (part_of t)) tokens.now }
    ensures within { result ≤ length tokens.now }
{
    tokens.iter().take_while(|t| is_blank_part(**t)).count()
}

fn places(tokens: &[Token<'_>]) -> usize
    ensures len { result ≡ prefix_len (λ t. goes_on (part_of t)) tokens.now }
    ensures within { result ≤ length tokens.now }
{
    tokens.iter().take_while(|t| goes_on(**t)).count()
}

// How many blanks parts begin with.
fn blank_len(tokens: &[Token<'_>]) -> usize
    ensures len { result ≡ blank_len (map part_of tokens.now) }
    ensures within { result ≤ length tokens.now }
{
    blanks(tokens)
}

// How many parts are in front of the next stop.
fn field_len(tokens: &[Token<'_>]) -> usize
    ensures len { result ≡ field_len (map part_of tokens.now) }
    ensures within { result ≤ length tokens.now }
{
    places(tokens)
}

/// The parts after the blanks that parts begin with.
pub(crate) fn after_blanks<'a, 'b>(tokens: &'b [Token<'a>]) -> &'b [Token<'a>]
    ensures { map part_of result.now ≡ after_blanks (map part_of tokens.now) }
{
    &tokens[blank_len(tokens)..]
}

/// The blanks that parts begin with.
pub(crate) fn front_blanks<'a, 'b>(tokens: &'b [Token<'a>]) -> &'b [Token<'a>]
    ensures { map part_of result.now ≡ front_blanks (map part_of tokens.now) }
{
    &tokens[..blank_len(tokens)]
}

/// The parts in front of the next stop.
pub(crate) fn first_field<'a, 'b>(tokens: &'b [Token<'a>]) -> &'b [Token<'a>]
    ensures { map part_of result.now ≡ first_field (map part_of tokens.now) }
{
    &tokens[..field_len(tokens)]
}

/// The next stop, and the parts behind it.
pub(crate) fn after_field<'a, 'b>(tokens: &'b [Token<'a>]) -> &'b [Token<'a>]
    ensures { map part_of result.now ≡ after_field (map part_of tokens.now) }
{
    &tokens[field_len(tokens)..]
}

/// Whether no part is left.
pub(crate) fn is_over(tokens: &[Token<'_>]) -> bool
    ensures { result ≡ is_over (map part_of tokens.now) }
{
    match tokens {
        [] => true,
        _ => false,
    }
}

/// The run that parts are, but for blanks behind it.
pub(crate) fn lone_run<'a>(tokens: &[Token<'a>]) -> Option<&'a [u8]>
    ensures { option_map (λ run. run.now) result ≡ lone_run (map part_of tokens.now) }
{
    match tokens {
        [Token::Run(run), rest @ ..] => {
            if is_over(after_blanks(rest)) {
                Some(run)
            } else {
                None
            }
        }
        _ => None,
    }
}
