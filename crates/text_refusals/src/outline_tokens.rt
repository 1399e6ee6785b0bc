ghost use Rattle.std.specs.Prelude.{◌≡◌, ◌≤◌, drop, false, length, option_map, take};
ghost use Rattle.std.specs.List.{prefix_len};
ghost use Rattle.text_refusals.specs.Outline.{after_two, bare_at, bracket_at, first_token, has_escapes};
ghost use Rattle.text_refusals.specs.Outline.{in_tokens, is_bare, is_bracket, is_gap, is_quote, key_or_value};
ghost use Rattle.text_refusals.specs.Outline.{past_end, past_text, quoted_at, quoted_len, quotes_of};
ghost use Rattle.text_refusals.specs.Outline.{starts_byte};
ghost use Rattle.text_refusals.specs.Outline.{text_at, text_of, token_of, value_of};

use asm_text::{after_blanks, is_blank};

/// A value of a statement's text, or a key.
#[derive(Clone, Copy)]
pub(crate) enum OutlineValue<'a> {
    /// A bare word.
    Bare(&'a [u8]),
    /// The quotes before and after a text, one or three, and the text.
    Quoted(&'static [u8], &'a [u8]),
    /// The quotes before a text that goes on after its line, and what the line has of it.
    Cut(&'static [u8], &'a [u8]),
    /// An array, and whether it ends at once.
    Array(bool),
    /// A table in braces, and whether it ends at once.
    InlineTable(bool),
}

/// A part of a line of a statement's text.
#[derive(Clone, Copy)]
pub(crate) enum OutlineToken<'a> {
    /// What is between the others: a blank, a mark, or a comment.
    Gap,
    /// `[`, and whether the array ends at once.
    OpensArray(bool),
    /// `]`.
    ClosesArray,
    /// `{`, and whether the table ends at once.
    OpensTable(bool),
    /// `}`.
    ClosesTable,
    /// A word before `=`.
    Key(&'a [u8]),
    /// Any other word.
    OfValue(OutlineValue<'a>),
}

fn is_gap(byte: u8) -> bool
    ensures { result ≡ is_gap byte }
{
    is_blank(byte) || byte == b'\r' || byte == b'=' || byte == b','
}

fn is_quote(byte: u8) -> bool
    ensures { result ≡ is_quote byte }
{
    byte == b'"' || byte == b'\''
}

fn is_bracket(byte: u8) -> bool
    ensures { result ≡ is_bracket byte }
{
    byte == b'[' || byte == b']' || byte == b'{' || byte == b'}'
}

fn is_bare(byte: u8) -> bool
    ensures { result ≡ is_bare byte }
{
    !(is_gap(byte) || is_quote(byte) || is_bracket(byte) || byte == b'#')
}

fn bare_len(text: &[u8]) -> usize
    ensures len { result ≡ prefix_len is_bare text.now }
    ensures within { result ≤ length text.now }
{
    text.iter().take_while(|byte| is_bare(**byte)).count()
}

/// The bare word at the front.
pub(crate) fn bare_front(text: &[u8]) -> &[u8]
    ensures { result.now ≡ take (prefix_len is_bare text.now) text.now }
{
    &text[..bare_len(text)]
}

// How many quotes are at the front.
fn quotes_len(text: &[u8]) -> usize
    ensures len { result ≡ prefix_len is_quote text.now }
    ensures within { result ≤ length text.now }
{
    text.iter().take_while(|byte| is_quote(**byte)).count()
}

// The quotes around a text.
fn quotes_of(quote: u8, is_long: bool) -> &'static [u8]
    ensures { result.now ≡ quotes_of quote is_long }
{
    if quote == b'"' {
        if is_long {
            return b"\"\"\"";
        }
        return b"\"";
    }
    if is_long {
        return b"'''";
    }
    b"'"
}

// Whether a quote after a backslash ends nothing.
fn has_escapes(quotes: &[u8]) -> bool
    ensures { result ≡ has_escapes quotes.now }
{
    match quotes {
        [] => false,
        [byte, ..] => *byte == b'"',
    }
}

// How many bytes are before the quotes that end a text, or before the line's end.
#[tactic(auto, unfolding(crate::specs::Outline::quoted_len))]
fn quoted_len(quotes: &[u8], text: &[u8]) -> usize
    ensures len { result ≡ quoted_len quotes.now false text.now }
    ensures within { result ≤ length text.now }
{
    let escapes = has_escapes(quotes);
    let mut is_escaped = false;
    for len in 0..text.len() {
        if !is_escaped && text[len..].starts_with(quotes) {
            return len;
        }
        is_escaped = text[len] == b'\\' && escapes && !is_escaped;
    }
    text.len()
}

/// What follows the first bytes, if there are more.
pub(crate) fn after(text: &[u8], len: usize) -> &[u8]
    ensures { result.now ≡ drop len text.now }
{
    if len < text.len() { &text[len..] } else { b"" }
}

// What follows a text and its quotes.
fn past_text<'a>(quotes: &[u8], text: &'a [u8]) -> &'a [u8]
    ensures { result.now ≡ past_text quotes.now text.now }
{
    let rest = after(&text[quoted_len(quotes, text)..], quotes.len());
    &rest[quotes_len(rest)..]
}

/// What follows a text and its quotes, or None where it goes on after the line.
pub(crate) fn past_end<'a>(quotes: &[u8], text: &'a [u8]) -> Option<&'a [u8]>
    ensures { option_map (λ rest. rest.now) result ≡ past_end quotes.now text.now }
{
    if quoted_len(quotes, text) == text.len() {
        return None;
    }
    Some(past_text(quotes, text))
}

fn starts_byte(byte: u8, text: &[u8]) -> bool
    ensures { result ≡ starts_byte byte text.now }
{
    match text {
        [] => false,
        [first, ..] => *first == byte,
    }
}

// The words of a key.
fn text_of<'a>(value: OutlineValue<'a>) -> &'a [u8]
    ensures { result.now ≡ text_of (value_of value.entry) }
{
    match value {
        OutlineValue::Bare(text) => text,
        OutlineValue::Quoted(_, text) => text,
        OutlineValue::Cut(_, _) | OutlineValue::Array(_) | OutlineValue::InlineTable(_) => b"",
    }
}

// The token that a word is.
fn key_or_value<'a>(value: OutlineValue<'a>, after: &[u8]) -> OutlineToken<'a>
    ensures { token_of result ≡ key_or_value (value_of value.entry) after.now }
{
    if starts_byte(b'=', after_blanks(after)) {
        return OutlineToken::Key(text_of(value));
    }
    OutlineToken::OfValue(value)
}

// The token of a text, after its first quotes, and what follows it.
fn text_at<'a>(quotes: &'static [u8], rest: &'a [u8]) -> (OutlineToken<'a>, &'a [u8])
    ensures { in_tokens result ≡ text_at quotes.now rest.now }
{
    let Some(after) = past_end(quotes, rest) else {
        return (OutlineToken::OfValue(OutlineValue::Cut(quotes, rest)), b"");
    };
    let len = quoted_len(quotes, rest);
    (
        key_or_value(OutlineValue::Quoted(quotes, &rest[..len]), after),
        after,
    )
}

// What follows two such quotes.
fn after_two(quote: u8, text: &[u8]) -> Option<&[u8]>
    ensures { option_map (λ rest. rest.now) result ≡ after_two quote text.now }
{
    let [first, second, rest @ ..] = text else {
        return None;
    };
    if *first == quote && *second == quote {
        return Some(rest);
    }
    None
}

// The token of a text in quotes, after its first quote, and what follows it.
fn quoted_at(quote: u8, rest: &[u8]) -> (OutlineToken<'_>, &[u8])
    ensures { in_tokens result ≡ quoted_at quote rest.now }
{
    match after_two(quote, rest) {
        Some(long) => text_at(quotes_of(quote, true), long),
        None => text_at(quotes_of(quote, false), rest),
    }
}

// The token of a bare word, and what follows it.
fn bare_at(text: &[u8]) -> (OutlineToken<'_>, &[u8])
    ensures { in_tokens result ≡ bare_at text.now }
{
    let len = bare_len(text);
    let after = &text[len..];
    (key_or_value(OutlineValue::Bare(&text[..len]), after), after)
}

// The token that a bracket is.
fn bracket_at(byte: u8, rest: &[u8]) -> OutlineToken<'_>
    ensures { token_of result ≡ bracket_at byte rest.now }
{
    if byte == b'[' {
        return OutlineToken::OpensArray(starts_byte(b']', after_blanks(rest)));
    }
    if byte == b']' {
        return OutlineToken::ClosesArray;
    }
    if byte == b'{' {
        return OutlineToken::OpensTable(starts_byte(b'}', after_blanks(rest)));
    }
    OutlineToken::ClosesTable
}

/// The first token of a line's text, and what follows it, or None at its end.
pub(crate) fn first_token(text: &[u8]) -> Option<(OutlineToken<'_>, &[u8])>
    ensures { option_map in_tokens result ≡ first_token text.now }
{
    let (first, rest) = text.split_first()?;
    let byte = *first;
    if byte == b'#' {
        return Some((OutlineToken::Gap, b""));
    }
    if is_gap(byte) {
        return Some((OutlineToken::Gap, rest));
    }
    if is_bracket(byte) {
        return Some((bracket_at(byte, rest), rest));
    }
    if is_quote(byte) {
        return Some(quoted_at(byte, rest));
    }
    Some(bare_at(text))
}
