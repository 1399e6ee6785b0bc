//! Values that are no list of others.

ghost use Rattle.std.specs.Prelude.{◌≡◌, ◌≤◌, ◌<◌, IfSome, length, option_map};
ghost use Rattle.arm2_decode.specs.Bits.{bit_of_word, bits};
ghost use Rattle.arm2_decode.specs.Conditions.{condition_holds};
ghost use Rattle.arm2_effect.specs.ProgramCounter.{flags_of};
ghost use Rattle.json_trace.specs.Json.{boolean, name_value};
ghost use Rattle.json_trace.specs.StepLine.{IsTextValue, cond_named, exception_of, flag_letter, flags_text};
ghost use Rattle.json_trace.specs.StepLine.{is_done, mode_name, stop_of, word_or_null};

use arm2_decode::{Cond, Field, Flags, bit_of_word, holds};
use arm2_effect::{Kind, Mode, Vector};
use arrayvec::ArrayString;
use asm_text::WORD_LINE_ROOM;
use assembler::disassemble;
use text_trace::{exception_name, hex_word, why_name};

/// The most bytes of a word as a value: its eight digits in quotes.
pub(crate) const WORD_ROOM: usize = 10;

/// The most bytes of the name of an exception, or of why a machine stops, in quotes.
pub(crate) const NAME_ROOM: usize = 18;

/// The most bytes of a word's line in quotes.
pub(crate) const TEXT_ROOM: usize = WORD_LINE_ROOM + 2;

/// `true` or `false`.
pub fn boolean(is_set: bool) -> &'static str
    ensures { result.now ≡ boolean is_set }
{
    match is_set {
        true => "true",
        false => "false",
    }
}

/// A word, or `null`.
pub(crate) fn word_or_null(word: Option<u32>) -> ArrayString<WORD_ROOM>
    ensures { result.bytes ≡ word_or_null word }
{
    let mut value = ArrayString::new();
    match word {
        Some(word) => {
            value.push_str("\"");
            value.push_str(hex_word(word).as_str());
            value.push_str("\"");
        }
        None => value.push_str("null"),
    }
    value
}

/// The line of a word at its address, or `null`.
pub(crate) fn text_value(word: Option<u32>, at: u32) -> ArrayString<TEXT_ROOM>
    ensures { IsTextValue word at result.bytes }
{
    let mut value = ArrayString::new();
    match word {
        Some(word) => {
            let line = disassemble(word, at);
            value.push_str("\"");
            // Every line of a word is ASCII.
            value.push_str(unsafe { str::from_utf8_unchecked(line.items()) });
            value.push_str("\"");
        }
        None => value.push_str("null"),
    }
    value
}

/// A name, or `null`.
pub(crate) fn name_value(name: Option<&str>) -> ArrayString<NAME_ROOM>
    requires { IfSome name (λ n. length n.now ≤ 16) }
    ensures { result.bytes ≡ name_value (option_map (λ n. n.now) name.entry) }
{
    let mut value = ArrayString::new();
    match name {
        Some(name) => {
            value.push_str("\"");
            value.push_str(name);
            value.push_str("\"");
        }
        None => value.push_str("null"),
    }
    value
}

/// The name of the exception that a step took.
pub(crate) fn exception_of(kind: Kind) -> Option<&'static str>
    ensures name { option_map (λ n. n.now) result ≡ exception_of kind }
    ensures short { IfSome result (λ n. length n.now ≤ 16) }
{
    match kind {
        Kind::Plain => None,
        Kind::Taken(vector) => Some(exception_name(vector)),
        Kind::Stopped(_) => None,
    }
}

/// Why a step stopped the machine.
pub(crate) fn stop_of(kind: Kind) -> Option<&'static str>
    ensures name { option_map (λ n. n.now) result ≡ stop_of kind }
    ensures short { IfSome result (λ n. length n.now ≤ 16) }
{
    match kind {
        Kind::Plain => None,
        Kind::Taken(_) => None,
        Kind::Stopped(why) => Some(why_name(why)),
    }
}

// The condition of a word.
fn cond_of(word: u32) -> Cond
    ensures { result ≡ cond_named (bits 31 28 word) }
{
    Cond::of(Field::<31, 28>::get(word))
}

// Whether a word's condition holds by the flags in R15.
fn passes(word: u32, r15: u32) -> bool
    ensures { result ≡ condition_holds (cond_named (bits 31 28 word)) (flags_of r15) }
{
    let flags = Flags {
        negative: bit_of_word(r15, 31),
        zero: bit_of_word(r15, 30),
        carry: bit_of_word(r15, 29),
        overflow: bit_of_word(r15, 28),
    };
    holds(cond_of(word), flags)
}

/// Whether a step carried out the word that it fetched, by R15 before it.
pub(crate) fn is_done(word: Option<u32>, r15: u32, kind: Kind) -> bool
    ensures { result ≡ is_done word r15 kind }
{
    match (word, kind) {
        (Some(word), Kind::Plain | Kind::Taken(Vector::Swi)) => passes(word, r15),
        (None, _) | (_, Kind::Taken(_) | Kind::Stopped(_)) => false,
    }
}

// A flag's letter: a capital where it is set.
fn flag_letter(r15: u32, bit: u32, clear: u8) -> u8
    requires bit { bit < 32 }
    requires letter { 97 ≤ clear }
    requires small { clear ≤ 122 }
    ensures letter { result ≡ flag_letter (bit_of_word r15 bit) clear }
    ensures ascii { result < 128 }
{
    if bit_of_word(r15, bit) {
        clear - 32
    } else {
        clear
    }
}

/// N, Z, C, V, I and F, each as a capital where it is set.
pub fn flags_text(r15: u32) -> ArrayString<6>
    ensures { result.bytes ≡ flags_text r15 }
{
    let letters = [
        flag_letter(r15, 31, b'n'),
        flag_letter(r15, 30, b'z'),
        flag_letter(r15, 29, b'c'),
        flag_letter(r15, 28, b'v'),
        flag_letter(r15, 27, b'i'),
        flag_letter(r15, 26, b'f'),
    ];
    let mut text = ArrayString::new();
    // Letters are ASCII.
    text.push_str(unsafe { str::from_utf8_unchecked(&letters) });
    text
}

/// The name of a mode.
pub fn mode_name(mode: Mode) -> &'static str
    ensures { result.now ≡ mode_name mode }
{
    match mode {
        Mode::User => "user",
        Mode::Fiq => "fiq",
        Mode::Irq => "irq",
        Mode::Svc => "svc",
    }
}
