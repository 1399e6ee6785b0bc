//! Where the words of an image may be, and how many there may be.

ghost use Rattle.std.specs.Prelude.{◌≡◌};
ghost use Rattle.image.specs.Image.{is_past_ram, lies_in_memory, may_hold};

use bus_ticks::{IO_START, ROM_START, SPACE_END};

/// The most words of an image.
pub const MOST_WORDS: usize = 65_536;

/// The most segments of an image, which are its maximal runs of words side by side.
pub const MOST_SEGMENTS: usize = 16;

/// Whether the addresses from `from` up to `to`, without `to`, lie in RAM or in ROM: below I/O, or above it
/// and below [`SPACE_END`].
pub fn lies_in_memory(from: u64, to: u64) -> bool
    ensures { result ≡ lies_in_memory from to }
{
    to <= u64::from(IO_START) || (from >= u64::from(ROM_START) && to <= u64::from(SPACE_END))
}

/// Whether a word may be at an address: a multiple of 4 in RAM or in ROM, not in I/O.
pub fn may_hold(address: u32) -> bool
    ensures { result ≡ may_hold address }
{
    let from = u64::from(address);
    address % 4 == 0 && lies_in_memory(from, from + 4)
}

/// Where physical RAM ends with the largest pages, 128 of 32 KB.
pub const LARGEST_RAM_END: u32 = 0x240_0000;

/// Whether the address is from 2400000 to 2FFFFFF, where no RAM is fitted even with the largest pages.
pub fn is_past_ram(address: u32) -> bool
    ensures { result ≡ is_past_ram address }
{
    LARGEST_RAM_END <= address && address < IO_START
}
