//! Begun statements as such that can be read: something stands for each `"?"` that may be left open.

ghost use Rattle.std.specs.Prelude.{◌≡◌, ◌++◌, ◌∷◌, ◌||◌, IfOk};
ghost use Rattle.text_draft.specs.Closed.{begins_mark, closed, closed_from, closes, has_mark};
ghost use Rattle.text_draft.specs.Closed.{has_mark_from, is_blank, may_close, spot_after, spot_after_key};
ghost use Rattle.text_draft.specs.Closed.{spot_behind, spot_if, spot_in_mark, stands_for, stands_for_first};

use std::alloc::{AllocError, Global};
use text_rows::put;

/// The key of what is stated.
#[derive(Clone, Copy)]
pub enum Key {
    To,
    Bound,
    Other,
}

/// Where a byte stands, by what is in front of it.
#[derive(Clone, Copy)]
pub enum Spot {
    Elsewhere,
    /// Behind the first letters of `to` and `bound`.
    T,
    B,
    Bo,
    Bou,
    Boun,
    /// Behind `to` or `bound`, and blanks.
    Behind(Key),
    /// Behind a key, `=` and blanks.
    Equals(Key),
    InString,
    Comment,
    /// Behind the first byte of a `"?"` that is all of the destinations, and behind its second.
    WholeMark,
    WholeQuote,
    /// Behind the first byte of a `"?"` that is a bound.
    BoundMark,
    /// Behind the first byte of any other `"?"` for which something stands, and behind the second of both.
    Mark,
    Quote,
}

/// Whether a byte is a blank of a line.
pub(crate) fn is_blank(byte: u8) -> bool
    ensures { result ≡ is_blank byte }
{
    byte == b' ' || byte == b'\t'
}

// Whether a `"?"` begins with the byte, in front of the rest.
fn begins_mark(byte: u8, rest: &[u8]) -> bool
    ensures { result ≡ begins_mark byte rest.now }
{
    byte == b'"' && rest.starts_with(b"?\"")
}

fn spot_behind(byte: u8) -> Spot
    ensures { result ≡ spot_behind byte }
{
    match byte {
        b't' => Spot::T,
        b'b' => Spot::B,
        b'=' => Spot::Equals(Key::Other),
        b'"' => Spot::InString,
        b'#' => Spot::Comment,
        _ => Spot::Elsewhere,
    }
}

// The spot behind a byte that goes on with a key if it is a letter.
fn spot_if(letter: u8, next: Spot, byte: u8) -> Spot
    ensures { result ≡ spot_if letter next byte }
{
    if byte == letter {
        next
    } else {
        spot_behind(byte)
    }
}

fn spot_after_key(key: Key, byte: u8) -> Spot
    ensures { result ≡ spot_after_key key byte }
{
    if byte == b'=' {
        return Spot::Equals(key);
    }
    if is_blank(byte) {
        return Spot::Behind(key);
    }
    spot_behind(byte)
}

fn spot_after_equals(key: Key, byte: u8) -> Spot
    ensures { result ≡ spot_after (Spot.Equals key) byte }
{
    if is_blank(byte) {
        return Spot::Equals(key);
    }
    spot_behind(byte)
}

fn spot_in_string(byte: u8) -> Spot
    ensures { result ≡ spot_after Spot.InString byte }
{
    if byte == b'"' || byte == b'\n' {
        return Spot::Elsewhere;
    }
    Spot::InString
}

fn spot_in_comment(byte: u8) -> Spot
    ensures { result ≡ spot_after Spot.Comment byte }
{
    if byte == b'\n' {
        return Spot::Elsewhere;
    }
    Spot::Comment
}

// The spot behind a byte that begins no `"?"` for which something stands.
fn spot_after(spot: Spot, byte: u8) -> Spot
    ensures { result ≡ spot_after spot byte }
{
    match spot {
        Spot::T => spot_if(b'o', Spot::Behind(Key::To), byte),
        Spot::B => spot_if(b'o', Spot::Bo, byte),
        Spot::Bo => spot_if(b'u', Spot::Bou, byte),
        Spot::Bou => spot_if(b'n', Spot::Boun, byte),
        Spot::Boun => spot_if(b'd', Spot::Behind(Key::Bound), byte),
        Spot::Behind(key) => spot_after_key(key, byte),
        Spot::Equals(key) => spot_after_equals(key, byte),
        Spot::InString => spot_in_string(byte),
        Spot::Comment => spot_in_comment(byte),
        Spot::WholeMark => Spot::WholeQuote,
        Spot::Mark | Spot::BoundMark => Spot::Quote,
        Spot::WholeQuote | Spot::Quote => Spot::Elsewhere,
        Spot::Elsewhere => spot_behind(byte),
    }
}

// Whether something may stand for a `"?"` there.
fn may_close(spot: Spot) -> bool
    ensures { result ≡ may_close spot }
{
    match spot {
        Spot::Equals(Key::Other) => false,
        Spot::InString | Spot::Comment | Spot::WholeQuote | Spot::Quote => false,
        _ => true,
    }
}

// Whether such a `"?"` begins with the byte, in front of the rest.
fn closes(spot: Spot, byte: u8, rest: &[u8]) -> bool
    ensures { result ≡ closes spot byte rest.now }
{
    may_close(spot) && begins_mark(byte, rest)
}

// The spot behind the first byte of such a `"?"`.
fn spot_in_mark(spot: Spot) -> Spot
    ensures { result ≡ spot_in_mark spot }
{
    match spot {
        Spot::Equals(Key::To) => Spot::WholeMark,
        Spot::Equals(Key::Bound) => Spot::BoundMark,
        _ => Spot::Mark,
    }
}

// What stands for a byte that begins no such `"?"`.
fn stands_for(spot: Spot, byte: u8) -> u8
    ensures { result ≡ stands_for spot byte }
{
    match spot {
        Spot::WholeMark | Spot::Mark => b'0',
        Spot::WholeQuote => b']',
        Spot::BoundMark | Spot::Quote => b' ',
        _ => byte,
    }
}

// What stands for the first byte of such a `"?"`.
fn stands_for_first(spot: Spot) -> &'static [u8]
    ensures { result.now ≡ stands_for_first spot }
{
    match spot {
        Spot::Equals(Key::To) => b"[",
        Spot::Equals(Key::Bound) => b"1048576",
        _ => b" ",
    }
}

// Adds what stands for a byte, in front of the rest, and answers the spot behind it.
fn push_closed(new: &mut Vec<u8>, spot: Spot, byte: u8, rest: &[u8]) -> Result<Spot, AllocError>
    ensures { IfOk result
        (λ behind. new.new.items ++ closed_from behind rest.now
        ≡ new.old.items ++ closed_from spot (byte ∷ rest.now)) }
{
    if closes(spot, byte, rest) {
        put(new, stands_for_first(spot))?;
        return Ok(spot_in_mark(spot));
    }
    new.push(stands_for(spot, byte))?;
    Ok(spot_after(spot, byte))
}

/// A begun statement as one that can be read, with the same lines. In place of a `"?"` behind `to =` there is
/// a list with 0 alone, in place of one behind `bound =` the greatest bound that a loop may have, 1,048,576,
/// and in place of one among the elements of a list 0. A destination 0 stands for what is left open. Behind
/// any other `=`, and in a comment, a `"?"` stays.
///
/// # Errors
///
/// An allocation failed.
pub fn closed(alloc: Global, text: &[u8]) -> Result<Vec<u8>, AllocError>
    ensures { IfOk result (λ new. new.items ≡ closed text.now) }
{
    let mut new = Vec::new(alloc);
    let mut spot = Spot::Elsewhere;
    for (i, byte) in text.iter().enumerate() {
        spot = push_closed(&mut new, spot, *byte, &text[i + 1..])?;
    }
    Ok(new)
}

/// Whether a begun statement has a `"?"` for which something stands in the closed one.
pub(crate) fn has_mark(text: &[u8]) -> bool
    ensures { result ≡ has_mark text.now }
{
    let mut spot = Spot::Elsewhere;
    for (i, byte) in text.iter().enumerate() {
        if closes(spot, *byte, &text[i + 1..]) {
            return true;
        }
        spot = spot_after(spot, *byte);
    }
    false
}
