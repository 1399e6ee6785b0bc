ghost use Rattle.std.specs.Prelude.{◌≡◌, ◌<◌, ℕ, MatchOption};
ghost use Rattle.std.specs.Fmt.{decimal};
ghost use Rattle.bus_ticks.specs.declared.space.TheConstants.{SPACE_END};
ghost use Rattle.asm_text.specs.Hex.{hex, hex_digit};

use walks::COST_LIMIT;

/// The number below 2^63 that the bytes spell in decimal.
pub(crate) fn decimal_at(word: &[u8]) -> Option<u64>
    ensures { MatchOption result ((n : ℕ) → n < COST_LIMIT → word.now ≡ decimal n → ⊥)
        (λ n. (n < COST_LIMIT) × (word.now ≡ decimal n)) }
{
    let mut number: u64 = 0;
    for byte in word {
        // With one more digit it is too large.
        if number >= 1 << 60 {
            return None;
        }
        let digit = char::from(*byte).to_digit(10)?;
        number = number * 10 + u64::from(digit);
    }
    if number >= COST_LIMIT {
        return None;
    }
    // A leading zero is no part of the one spelling.
    match word {
        [] => None,
        [b'0', _, ..] => None,
        _ => Some(number),
    }
}

// The value of an upper-case hex digit.
fn digit_at(byte: u8) -> Option<u32>
    ensures { MatchOption result ((d : ℕ) → d < 16 → byte ≡ hex_digit d → ⊥)
        (λ d. (d < 16) × (byte ≡ hex_digit d)) }
{
    match byte {
        b'0'..=b'9' => Some(u32::from(byte - b'0')),
        b'A'..=b'F' => Some(u32::from(byte - b'A') + 10),
        _ => None,
    }
}

/// The number below 4000000 (hex) that the bytes spell in upper-case hex.
pub(crate) fn hex_at(word: &[u8]) -> Option<u32>
    ensures { MatchOption result ((n : ℕ) → n < SPACE_END → word.now ≡ hex n → ⊥)
        (λ n. (n < SPACE_END) × (word.now ≡ hex n)) }
{
    let [first, rest @ ..] = word else {
        return None;
    };
    let mut number = digit_at(*first)?;
    for byte in rest {
        // A leading zero is no part of the one spelling, and the number is to stay below 2^26.
        if number == 0 {
            return None;
        }
        if number >= 1 << 22 {
            return None;
        }
        number = number * 16 + digit_at(*byte)?;
    }
    Some(number)
}
