ghost use Rattle.std.specs.Prelude.{◌≡◌, ◌≤◌, ◌<◌, ◌+◌, ◌-◌, ◌*◌, ◌^◌};
ghost use Rattle.arm2_decode.specs.Bits.{bit_of_word, bits};
ghost use Rattle.arm2_decode.specs.Allowed.{bit_of};

/// Whether a bit of a word, counted from 0, is set.
#[inline(always)]
pub fn bit_of_word(word: u32, bit: u32) -> bool
    requires in_word { bit < 32 }
    ensures { result ≡ bit_of_word word bit }
{
    (word >> bit) & 1 == 1
}

/// The bits HI to LO of a word of 32 bits, counted from 0, as one number.
pub struct Field<const HI: u32, const LO: u32>;

impl<const HI: u32, const LO: u32> Field<HI, LO> {
    /// The field as a number.
    pub fn get(word: u32) -> u32
        requires ordered { LO ≤ HI }
        requires in_word { HI < 32 }
        ensures { result ≡ bits HI LO word }
    {
        (word >> LO) & (u32::MAX >> (31 - (HI - LO)))
    }

    /// The number at the field's place.
    pub fn put(value: u32) -> u32
        requires ordered { LO ≤ HI }
        requires in_word { HI < 32 }
        requires fits { value < 2 ^ (HI + 1 - LO) }
        ensures { result ≡ value * 2 ^ LO }
    {
        value << LO
    }

    /// Whether the one bit of the field is set.
    pub fn is_set(word: u32) -> bool
        requires one_bit { HI ≡ LO }
        requires in_word { HI < 32 }
        ensures { bit_of result ≡ bits HI LO word }
    {
        Self::get(word) == 1
    }

    /// The bit at the field's place.
    pub fn put_bit(set: bool) -> u32
        requires one_bit { HI ≡ LO }
        requires in_word { HI < 32 }
        ensures { result ≡ bit_of set * 2 ^ LO }
    {
        if set { Self::put(1) } else { 0 }
    }
}
