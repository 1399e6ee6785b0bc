//! The processor's addresses, in bytes: RAM from 0, then I/O, then ROM.

ghost use Rattle.std.specs.Prelude.{◌≡◌, ◌<◌, ◌%◌};
ghost use Rattle.bus_ticks.specs.Prices.{ahead_of, is_word_address, word_address};

/// FIQ's vector: where the processor goes on when it takes FIQ.
pub const FIQ_VECTOR: u32 = 0x1C;

/// Where logical RAM ends, and physical RAM begins.
pub const PHYSICAL_START: u32 = 0x200_0000;

/// Where I/O begins with its slow devices, and RAM ends.
pub const IO_START: u32 = 0x300_0000;

/// Where the first medium devices begin.
pub const MEDIUM_START: u32 = 0x308_0000;

/// Where the first fast devices begin.
pub const FAST_START: u32 = 0x310_0000;

/// Where the first synchronous devices begin.
pub const SYNCHRONOUS_START: u32 = 0x318_0000;

/// Where ROM begins, and I/O ends.
pub const ROM_START: u32 = 0x340_0000;

/// Where the high half of ROM begins, which has a time field of its own.
pub const HIGH_ROM_START: u32 = 0x380_0000;

/// Where ROM and all addresses end: 2^26.
pub const SPACE_END: u32 = 0x400_0000;

/// The address of word number `word` of a block, counted from the word that holds `lowest`: a multiple of 4,
/// which wraps at [`SPACE_END`].
pub fn word_address(lowest: u32, word: u32) -> u32
    requires below { lowest < SPACE_END }
    requires few { word < 16 }
    ensures address { result ≡ word_address lowest word }
    ensures below { result < SPACE_END }
{
    4 * (lowest / 4 + word) % SPACE_END
}

/// Whether a number is the address of a word, in bytes: a multiple of 4 below [`SPACE_END`].
pub fn is_word_address(number: u32) -> bool
    ensures { result ≡ is_word_address number }
{
    number % 4 == 0 && number < SPACE_END
}

/// The address so many bytes on, which wraps at [`SPACE_END`].
pub fn ahead_of(address: u32, bytes: u32) -> u32
    ensures sum { result ≡ ahead_of address bytes }
    ensures fits { result < SPACE_END }
    ensures aligned { address % 4 ≡ 0 → bytes % 4 ≡ 0 → result % 4 ≡ 0 }
{
    address.wrapping_add(bytes) % SPACE_END
}
