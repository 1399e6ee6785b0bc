ghost use Rattle.std.specs.Prelude.{◌≡◌, ◌<◌};
ghost use Rattle.asm_text.specs.Hex.{hex, hex8, hex_digit};

use arrayvec::ArrayVec;

// The upper-case hexadecimal digit of a number below 16.
fn hex_digit(n: u32) -> u8
    requires { n < 16 }
    ensures { result ≡ hex_digit n }
{
    let n = n as u8;
    if n < 10 { b'0' + n } else { b'A' - 10 + n }
}

/// A number in upper-case hexadecimal, without leading zeros.
pub fn hex(number: u64) -> ArrayVec<u8, 16>
    ensures { result.items ≡ hex number }
{
    if number < 16 {
        let mut text = ArrayVec::new();
        text.push(hex_digit(number as u32));
        return text;
    }
    let mut text = hex(number / 16);
    text.push(hex_digit((number % 16) as u32));
    text
}

/// A word in eight upper-case hexadecimal digits, the highest first.
pub fn hex8(word: u32) -> [u8; 8]
    ensures { result ≡ hex8 word }
{
    let n1 = word / 16;
    let n2 = n1 / 16;
    let n3 = n2 / 16;
    let n4 = n3 / 16;
    let n5 = n4 / 16;
    let n6 = n5 / 16;
    let n7 = n6 / 16;
    [
        hex_digit(n7 % 16),
        hex_digit(n6 % 16),
        hex_digit(n5 % 16),
        hex_digit(n4 % 16),
        hex_digit(n3 % 16),
        hex_digit(n2 % 16),
        hex_digit(n1 % 16),
        hex_digit(word % 16),
    ]
}
