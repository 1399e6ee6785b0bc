ghost use Rattle.std.specs.Prelude.{◌≡◌, ◌≤◌};
ghost use Rattle.memc.specs.Memory.{can_map, shift_of_size};
ghost use Rattle.memc.specs.declared.spots.MemcFault.TheVariants.{Memory};

use crate::pages::PHYSICAL_PAGES;
use std::alloc::{AllocError, AllocFailed};
use thiserror::Error;

/// The size of a page.
#[derive(Clone, Copy, Debug, PartialEq, Eq)]
pub enum PageSize {
    /// 4 KB
    K4,
    /// 8 KB
    K8,
    /// 16 KB
    K16,
    /// 32 KB
    K32,
}

impl PageSize {
    /// The number of bits of a place in a page: a page is 2^shift bytes.
    pub fn shift(self) -> u32
        ensures shift { result ≡ shift_of_size self }
        ensures bounds { (12 ≤ result) × (result ≤ 15) }
    {
        match self {
            PageSize::K4 => 12,
            PageSize::K8 => 13,
            PageSize::K16 => 14,
            PageSize::K32 => 15,
        }
    }

    /// Whether a logical page of this size, by number, can be mapped on a physical page at a level: logical
    /// pages in the first 2^25 bytes, 128 physical pages and the levels 0 to 3.
    pub fn can_map(self, physical: u32, logical: u32, level: u32) -> bool
        ensures { result ≡ can_map (shift_of_size self) physical logical level }
    {
        can_map(self.shift(), physical, logical, level)
    }
}

/// The same for pages of 2^shift bytes.
pub(crate) fn can_map(shift: u32, physical: u32, logical: u32, level: u32) -> bool
    requires { shift ≤ 15 }
    ensures { result ≡ can_map shift physical logical level }
{
    logical < 1 << (25 - shift) && physical < PHYSICAL_PAGES && level < 4
}

/// What answers an access.
#[derive(Clone, Copy, Debug, PartialEq, Eq)]
pub enum Spot {
    /// A word of the fitted RAM, by its place in bytes: a multiple of 4 below 128 pages.
    Ram(u32),
    /// A load from ROM, from 3400000 on, by its address.
    Rom(u32),
    /// The devices, from 3000000 to 33FFFFF, by the address.
    Io(u32),
    /// A store to the video controller, from 3400000 to 35FFFFF, by its address.
    Vidc(u32),
    /// A store that sets the control fields, by its address, which holds them.
    Control(u32),
    /// A store that maps a page of 4 KB, from 3800000 on, by its address, which names the pages.
    Translator(u32),
    /// A store to a DMA address register, which has no effect, by its address.
    Ignored(u32),
}

/// Why an access is refused. Where several hold, the first of them is answered.
#[derive(Clone, Copy, Debug, PartialEq, Eq, Drop, Error)]
pub enum Refused {
    /// No physical page holds the logical address, or the physical address is past the fitted RAM.
    #[error("NoPage")]
    NoPage,
    /// User mode has no right to the access.
    #[error("Protected")]
    Protected,
    /// A store that would change the page size, or a translator write with pages of another size than 4 KB.
    #[error("UnsupportedWrite")]
    UnsupportedWrite,
}

/// Why pages are not mapped.
#[derive(Clone, Copy, Debug, PartialEq, Eq, Drop, Error)]
pub enum MapFault {
    /// A page or level that there is not: 128 physical pages, logical ones up to 2^25 bytes, levels 0 to 3.
    #[error("OutOfRange")]
    OutOfRange,
}

/// Why a memory is not made, or does not take ROM words.
#[derive(Clone, Copy, Debug, PartialEq, Eq, Drop, Error)]
pub enum MemcFault {
    /// An allocation failed.
    #[error("Memory")]
    Memory,
}

impl From<AllocError> for MemcFault {
    ghost from_gives = { λ _ fault. fault ≡ Memory };

    fn from(_refused: AllocError) -> MemcFault {
        MemcFault::Memory
    }
}

impl<T: Drop> From<AllocFailed<T>> for MemcFault {
    ghost from_gives = { λ _ fault. fault ≡ Memory };

    fn from(_refused: AllocFailed<T>) -> MemcFault {
        MemcFault::Memory
    }
}
