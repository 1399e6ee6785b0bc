ghost use Rattle.std.specs.Prelude.{◌≡◌, ◌<◌, ◌≤◌, ◌^◌, IfSome, IsTrue, MatchOption, length};
ghost use Rattle.std.specs.Char.{is_ascii_digit};
ghost use Rattle.std.specs.List.{list_all};
ghost use Rattle.std.specs.Str.Parse.{digits_value};
ghost use Rattle.image.specs.Labels.{address_of};
ghost use Rattle.statement.specs.Statement.{at_offset, by_words, is_number, last_sign, moved, sign_at};
ghost use Rattle.statement.specs.Statement.{text_address};

use crate::faults::{Read, StatementFault};
use image::Labels;
use memchr::memrchr2;
use toml_reading::in_space;

/// Whether bytes are added to a label's address or taken away from it.
#[derive(Clone, Copy)]
pub(crate) enum Sign {
    Plus,
    Minus,
}

// The index of the last sign. A label of a source has letters, digits and `_` alone (`is_label` in asm_text),
// so no text that is a label has one.
fn last_sign(text: &[u8]) -> Option<usize>
    ensures value { result ≡ last_sign text.now }
    ensures within { IfSome result (λ at. at < length text.now) }
{
    memrchr2(b'+', b'-', text)
}

fn sign_at(text: &[u8], at: usize) -> Sign
    requires { at < length text.now }
    ensures { result ≡ sign_at text.now at }
{
    if text[at] == b'+' {
        Sign::Plus
    } else {
        Sign::Minus
    }
}

fn are_digits(text: &[u8]) -> bool
    ensures { result ≡ list_all is_ascii_digit text.now }
{
    text.iter().all(|byte| byte.is_ascii_digit())
}

// Whether a text is one decimal digit or more.
fn is_number(text: &[u8]) -> bool
    ensures { result ≡ is_number text.now }
{
    !text.is_empty() && are_digits(text)
}

// The number that decimal digits spell, where it has 32 bits.
fn number_of(digits: &[u8]) -> Option<u32>
    requires { IsTrue (is_number digits.now) }
    ensures { MatchOption result (2 ^ 32 ≤ digits_value 10 digits.now) (λ n. n ≡ digits_value 10 digits.now) }
{
    match str::from_utf8(digits) {
        Ok(text) => text.parse().ok(),
        Err(_) => None,
    }
}

// The address so many bytes past that of a label, or before it.
fn moved(sign: Sign, bytes: u32, label: u32) -> Read<u32>
    ensures { result ≡ moved sign bytes label }
{
    let address = match sign {
        Sign::Plus => label.checked_add(bytes),
        Sign::Minus => label.checked_sub(bytes),
    };
    match address {
        Some(address) => in_space(i64::from(address)),
        None => Err(StatementFault::OutOfRange),
    }
}

// The same by whole words, where the digits spell the number of bytes. So many that they do not fit 32 bits
// lead out of memory from any label.
fn by_words(sign: Sign, digits: &[u8], label: u32) -> Read<u32>
    requires { IsTrue (is_number digits.now) }
    ensures { result ≡ by_words sign (digits_value 10 digits.now) label }
{
    let Some(bytes) = number_of(digits) else {
        return Err(StatementFault::OutOfRange);
    };
    if bytes % 4 == 0 {
        moved(sign, bytes, label)
    } else {
        Err(StatementFault::OutOfRange)
    }
}

// The address of a label's name, a sign and a number of bytes.
fn at_offset(labels: &Labels, text: &[u8]) -> Read<u32>
    ensures { result ≡ at_offset (address_of labels.now) text.now (last_sign text.now) }
{
    let Some(at) = last_sign(text) else {
        return Err(StatementFault::UnknownLabel);
    };
    let digits = &text[at + 1..];
    if !is_number(digits) {
        return Err(StatementFault::UnknownLabel);
    }
    match labels.get(&text[..at]) {
        Some(label) => by_words(sign_at(text, at), digits, label),
        None => Err(StatementFault::UnknownLabel),
    }
}

/// The address of a label, or of one with a number of bytes added or taken away.
pub(crate) fn text_address(labels: &Labels, text: &[u8]) -> Read<u32>
    ensures { result ≡ text_address (address_of labels.now) text.now }
{
    match labels.get(text) {
        Some(address) => in_space(i64::from(address)),
        None => at_offset(labels, text),
    }
}
