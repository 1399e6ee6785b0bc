//! Numbers in upper-case hexadecimal, two digits at a time.
ghost use Rattle.std.specs.Prelude.{◌≡◌, ◌+◌, ◌/◌, ◌%◌, ◌<◌, ◌≤◌, ◌++◌, ◌∷◌, drop, length};
ghost use Rattle.asm_text.specs.Hex.{hex, hex_digit};

// The digits of each byte.
static PAIRS: [u8; 512] = *b"\
    000102030405060708090A0B0C0D0E0F101112131415161718191A1B1C1D1E1F\
    202122232425262728292A2B2C2D2E2F303132333435363738393A3B3C3D3E3F\
    404142434445464748494A4B4C4D4E4F505152535455565758595A5B5C5D5E5F\
    606162636465666768696A6B6C6D6E6F707172737475767778797A7B7C7D7E7F\
    808182838485868788898A8B8C8D8E8F909192939495969798999A9B9C9D9E9F\
    A0A1A2A3A4A5A6A7A8A9AAABACADAEAFB0B1B2B3B4B5B6B7B8B9BABBBCBDBEBF\
    C0C1C2C3C4C5C6C7C8C9CACBCCCDCECFD0D1D2D3D4D5D6D7D8D9DADBDCDDDEDF\
    E0E1E2E3E4E5E6E7E8E9EAEBECEDEEEFF0F1F2F3F4F5F6F7F8F9FAFBFCFDFEFF";

#[inline]
fn write_pair(byte: u32, buf: &mut [u8], at: usize)
    requires { (byte < 256) × (at + 2 ≤ length buf.old) }
    ensures { drop at buf.new ≡ hex_digit (byte / 16) ∷ hex_digit (byte % 16) ∷ drop (at + 2) buf.old }
{
    let from = byte as usize * 2;
    buf[at] = PAIRS[from];
    buf[at + 1] = PAIRS[from + 1];
}

/// Writes the digits so that they end at `end`, and returns where they start.
#[inline]
pub(crate) fn write_hex(n: u32, buf: &mut [u8], end: usize) -> usize
    requires { (length (hex n) ≤ end) × (end ≤ length buf.old) }
    ensures start { result + length (hex n) ≡ end }
    ensures written { drop result buf.new ≡ hex n ++ drop end buf.old }
{
    let mut left = n;
    let mut at = end;
    while left >= 256 {
        at -= 2;
        write_pair(left % 256, buf, at);
        left /= 256;
    }
    if left >= 16 {
        write_pair(left, buf, at - 2);
        return at - 2;
    }
    buf[at - 1] = PAIRS[left as usize * 2 + 1];
    at - 1
}
