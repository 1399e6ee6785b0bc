ghost use Rattle.std.specs.Prelude.{◌≡◌, ◌++◌, MatchResult, length, string_bytes};
ghost use Rattle.asm_text.specs.Hex.{hex8};
ghost use Rattle.text_trace.specs.TraceText.{stop_text, ticks_text, why_name};

use arm2_exec::Why;
use arrayvec::ArrayString;
use asm_text::hex8;
use std::alloc::AllocError;

/// Adds a line of processor ticks, and of the ticks that passed with those of bursts, in decimal.
///
/// # Errors
///
/// An allocation failed; the text is then as it was.
pub fn write_ticks(out: &mut String, ticks: u128, elapsed: u128) -> Result<(), AllocError>
    ensures { MatchResult result
        (λ _. string_bytes out.new ≡ string_bytes out.old ++ ticks_text ticks elapsed)
        (λ _. string_bytes out.new ≡ string_bytes out.old) }
{
    let line = format!(in *out.allocator(); "ticks {ticks} elapsed {elapsed}\n")?;
    out.push_str(line.as_str())
}

/// The name of the reason for which a machine stopped.
pub fn why_name(why: Why) -> &'static str
    ensures { result.now ≡ why_name why }
{
    match why {
        Why::Unallocated => "Unallocated",
        Why::UnsupportedWrite => "UnsupportedWrite",
    }
}

/// Adds a line that says why a machine stopped and at which address, in hexadecimal.
///
/// # Errors
///
/// An allocation failed; the text is then as it was.
pub fn write_stop(out: &mut String, why: Why, address: u32) -> Result<(), AllocError>
    ensures { MatchResult result (λ _. string_bytes out.new ≡ string_bytes out.old ++ stop_text why address)
        (λ _. string_bytes out.new ≡ string_bytes out.old) }
{
    let name = why_name(why);
    let line = format!(in *out.allocator(); "stopped {name} at {address:X}\n")?;
    out.push_str(line.as_str())
}

/// A word in eight upper-case hexadecimal digits.
pub fn hex_word(word: u32) -> ArrayString<8>
    ensures text { result.bytes ≡ hex8 word }
    ensures len { length result.bytes ≡ 8 }
{
    let digits = hex8(word);
    let mut text = ArrayString::new();
    // Digits are ASCII.
    text.push_str(unsafe { str::from_utf8_unchecked(&digits) });
    text
}
