ghost use Rattle.std.specs.Prelude.{◌≡◌, ◌/◌, ◌^◌, ◌<◌, ◌≤◌, slice_index, slice_set, IfOk, IfSome};
ghost use Rattle.bus_ticks.specs.declared.space.TheConstants.{PHYSICAL_START};
ghost use Rattle.memc.specs.declared.pages.TheConstants.{PHYSICAL_PAGES};
ghost use Rattle.memc.specs.Paged.{IsShift, page_at, mapped, unmapped, IsFresh, IsWhole, place_of};
ghost use Rattle.memc.specs.Paged.{fitted_bytes};

use std::alloc::{AllocError, Global};
use std::marker::Model;

/// How many physical pages of RAM there are, of whatever size.
pub const PHYSICAL_PAGES: u32 = 128;

/// Where a logical page lies, and its level of protection.
#[derive(Clone, Copy, Debug, PartialEq, Eq)]
pub struct Entry {
    /// The physical page, from 0 to 127.
    pub physical: u8,
    /// The level, from 0 to 3.
    pub level: u8,
}

/// The physical pages, of `2^shift` bytes, under a table of logical pages and its inverse. The shift is
/// from 12 to 15, and stays.
#[derive(Drop)]
pub struct Pages {
    shift: u32,
    words: Vec<u32>,
    table: Vec<Option<Entry>>,
    held: Vec<Option<u16>>,
}

impl Model for Pages {
    ghost use Rattle.memc.specs.Table.{IsPaged, Sized};

    ghost Value = { Sized };

    ghost view = { λ p. record {
      shift = p.shift;
      paged = record { words = p.words.items; pages = p.table.items };
    } };

    ghost invariant = { λ p. IsPaged p.shift p.words.items p.table.items p.held.items };
}

impl Pages {
    /// All words 0, and each of the first 128 logical pages on the physical page of its number, at level 0.
    ///
    /// # Errors
    ///
    /// An allocation failed.
    pub fn new(alloc: Global, shift: u32) -> Result<Self, AllocError>
        requires { IsShift shift }
        ensures shift { IfOk result (λ p. p.shift ≡ shift) }
        ensures fresh { IfOk result (λ p. IsFresh shift p.paged) }
    {
        let mut table = vec![in alloc; None; 1usize << (25 - shift)]?;
        let mut held = vec![in alloc; None; PHYSICAL_PAGES as usize]?;
        for i in 0..PHYSICAL_PAGES as usize {
            table[i] = Some(Entry {
                physical: i as u8,
                level: 0,
            });
            held[i] = Some(i as u16);
        }
        let words = vec![in alloc; 0; 1usize << (shift + 5)]?;
        Ok(Pages {
            shift,
            words,
            table,
            held,
        })
    }

    /// A page is 2^shift bytes.
    pub fn shift(&self) -> u32
        ensures shift { result ≡ self.now.shift }
        ensures bounds { (12 ≤ result) × (result ≤ 15) }
    {
        self.shift
    }

    /// The bytes of the fitted RAM.
    pub fn fitted_bytes(&self) -> u32
        ensures bytes { result ≡ fitted_bytes self.now.shift }
        ensures whole { IsWhole self.now.shift self.now.paged }
    {
        PHYSICAL_PAGES << self.shift
    }

    /// The word at a physical place.
    #[inline(always)]
    pub fn load(&self, place: u32) -> u32
        requires { place < fitted_bytes self.now.shift }
        ensures { result ≡ slice_index self.now.paged.words (place / 4) }
    {
        self.words[(place / 4) as usize]
    }

    /// Puts a word at a physical place.
    #[inline(always)]
    pub fn store(&mut self, place: u32, word: u32)
        requires { place < fitted_bytes self.old.shift }
        ensures { self.new ≡ record self.old {
          paged
              = record self.old.paged { words = slice_set self.old.paged.words (place / 4) word };
        } }
    {
        self.words[(place / 4) as usize] = word;
    }

    /// The page of a logical address, which is below 2^25.
    #[inline(always)]
    pub fn page_at(&self, address: u32) -> Option<Entry>
        requires { address < PHYSICAL_START }
        ensures page { result ≡ page_at self.now.paged (address / 2 ^ self.now.shift) }
        ensures fitted { IfSome result (λ e. e.physical < PHYSICAL_PAGES) }
    {
        self.table[(address >> self.shift) as usize]
    }

    /// The bytes of a page.
    #[inline(always)]
    pub fn page_size(&self) -> u32
        ensures bytes { result ≡ 2 ^ self.now.shift }
        ensures bounds { (4096 ≤ result) × (result ≤ 32768) }
        ensures whole { IsWhole self.now.shift self.now.paged }
    {
        1 << self.shift
    }

    /// The place of the word that a logical address names, on a physical page.
    #[inline(always)]
    pub fn place_of(&self, physical: u8, address: u32) -> u32
        requires { physical < PHYSICAL_PAGES }
        ensures place { result ≡ place_of self.now.shift physical address }
        ensures fitted { result < fitted_bytes self.now.shift }
    {
        ((physical as u32) << self.shift) | (address & ((1 << self.shift) - 1)) / 4 * 4
    }

    /// Takes a physical page off the map.
    pub fn unmap(&mut self, physical: u8)
        requires { physical < PHYSICAL_PAGES }
        ensures { self.new ≡ record self.old { paged = unmapped physical self.old.paged } }
    {
        if let Some(logical) = self.held[physical as usize] {
            self.table[logical as usize] = None;
            self.held[physical as usize] = None;
        }
    }

    /// Puts a logical page on a physical page. Both lose what they had.
    pub fn map(&mut self, physical: u8, logical: u16, level: u8)
        requires physical { physical < PHYSICAL_PAGES }
        requires logical { logical < PHYSICAL_START / 2 ^ self.old.shift }
        requires level { level < 4 }
        ensures { self.new
            ≡ record self.old { paged = mapped physical logical level self.old.paged } }
    {
        self.unmap(physical);
        if let Some(entry) = self.table[logical as usize] {
            self.held[entry.physical as usize] = None;
        }
        self.table[logical as usize] = Some(Entry { physical, level });
        self.held[physical as usize] = Some(logical);
    }
}
