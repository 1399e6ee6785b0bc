ghost use Rattle.std.specs.Prelude.{◌≡◌, ℕ, ◌*◌, ◌/◌, ◌^◌, ◌<◌, ◌≤◌, IfOk, ◌↔◌, OnErr, OnOk, IfSome};
ghost use Rattle.std.specs.Prelude.{MatchOption, false};
ghost use Rattle.bus_ticks.specs.declared.space.TheConstants.{SPACE_END};
ghost use Rattle.memc.specs.declared.pages.TheConstants.{PHYSICAL_PAGES};
ghost use Rattle.memc.specs.Paged.{fitted_bytes, page_at, place_of, IsWhole};
ghost use Rattle.memc.specs.Memory.{located, logical_at, physical_at, written_at, shift_of_size, IsStart};
ghost use Rattle.memc.specs.Memory.{IsMemorySpot, IsRamSpot, Fits, word_at, stored, with_map};
ghost use Rattle.memc.specs.Memory.{without_page, translated, with_control, with_rom, rom_word, last_word};
ghost use Rattle.memc.specs.Memory.{can_map, control_of, allowed, HasNoRun, IsRun};

use crate::pages::{Entry, PHYSICAL_PAGES, Pages};
use crate::spots::{MapFault, MemcFault, PageSize, Refused, Spot, can_map};
use bus_ticks::{IO_START, PHYSICAL_START, ROM_START, RomTimes};
use std::alloc::Global;
use std::collections::BTreeMap;
use std::marker::Model;

/// Where, for stores, the DMA and control range begins.
pub(crate) const DMA_AND_CONTROL: u32 = 0x360_0000;

/// Where, for stores, the translator begins.
pub(crate) const TRANSLATOR: u32 = 0x380_0000;

// What a store to the control range sets, but the page size. The fields of the video and sound DMA have no
// effect.
#[derive(Clone, Copy)]
struct ControlFields {
    rom_times: RomTimes,
    video_dma: bool,
    sound_dma: bool,
    system: bool,
}

/// The memory controller, with RAM and the words of ROM.
#[derive(Drop)]
pub struct Memc {
    pages: Pages,
    control: ControlFields,
    rom: BTreeMap<u32, u32>,
}

impl Model for Memc {
    ghost use Rattle.memc.specs.Memory.{Memory};

    ghost Value = { Memory };

    ghost use Rattle.memc.specs.View.{memory_in};

    ghost view = { memory_in };
}

impl Memc {
    /// All words of RAM 0, no ROM words, and all control fields 0.
    ///
    /// Each of the first 128 logical pages lies on the physical page of its number, at level 0; no other is
    /// mapped.
    ///
    /// # Errors
    ///
    /// `Memory`: an allocation failed.
    pub fn new(alloc: Global, size: PageSize) -> Result<Memc, MemcFault>
        ensures { IfOk result (λ m. IsStart (shift_of_size size) m) }
    {
        Ok(Memc {
            pages: Pages::new(alloc, size.shift())?,
            control: control_of(0),
            rom: BTreeMap::new(alloc),
        })
    }

    /// Where an access at an address below 2^26 goes.
    ///
    /// # Errors
    ///
    /// The first of the reasons why the access is refused, in the order of [`Refused`].
    #[inline(always)]
    pub fn locate(&self, address: u32, user: bool, store: bool) -> Result<Spot, Refused>
        requires { address < SPACE_END }
        ensures located { result ≡ located self.now address user store }
        ensures fitted { IfOk result (Fits self.now.shift) }
        ensures whole { IsWhole self.now.shift self.now.paged }
    {
        let _limit = self.fitted_bytes();
        if address < PHYSICAL_START {
            return self.logical_at(address, user, store);
        }
        self.beyond(address, user, store)
    }

    /// The place of the first of so many words, from the one that an address below 2^26 names on, where one
    /// page of logical RAM has them all and the access is granted: word `i` is then at the place + 4 `i`.
    ///
    /// None: the address is past logical RAM, the words reach past its page, or the access is refused.
    #[inline(always)]
    pub fn locate_run(&self, address: u32, words: u32, user: bool, store: bool) -> Option<u32>
        requires below { address < SPACE_END }
        requires few { words ≤ 16 }
        ensures run { MatchOption result (HasNoRun self.now address words user store)
            (λ place. IsRun self.now address words user store place) }
        ensures whole { IsWhole self.now.shift self.now.paged }
    {
        let size = self.page_size();
        if address >= PHYSICAL_START {
            return None;
        }
        if address % size / 4 * 4 + 4 * words > size {
            return None;
        }
        match self.logical_at(address, user, store) {
            Ok(Spot::Ram(place)) => Some(place),
            _ => None,
        }
    }

    // Where an access past logical RAM goes.
    #[inline(never)]
    fn beyond(&self, address: u32, user: bool, store: bool) -> Result<Spot, Refused>
        requires past { PHYSICAL_START ≤ address }
        requires below { address < SPACE_END }
        ensures located { result ≡ located self.now address user store }
        ensures fitted { IfOk result (Fits self.now.shift) }
    {
        let limit = self.fitted_bytes();
        if address < IO_START {
            return physical_at(address - PHYSICAL_START, limit, user);
        }
        if user && (store || address < ROM_START) {
            return Err(Refused::Protected);
        }
        if address < ROM_START {
            return Ok(Spot::Io(address));
        }
        if store {
            return self.written_at(address);
        }
        Ok(Spot::Rom(address))
    }

    /// The word at a spot of RAM or ROM that `locate` returned. It is 0 where ROM has no word.
    #[inline(always)]
    pub fn load(&self, spot: Spot) -> u32
        requires { IsMemorySpot self.now.shift spot }
        ensures { result ≡ word_at self.now spot }
    {
        match spot {
            Spot::Ram(place) => self.pages.load(place),
            Spot::Rom(address) => self.rom_word(address),
            _ => unreachable!(),
        }
    }

    /// Puts a word at a spot of RAM that `locate` returned.
    #[inline(always)]
    pub fn store(&mut self, spot: Spot, word: u32)
        requires { IsRamSpot self.old.shift spot }
        ensures { self.new ≡ stored spot word self.old }
    {
        match spot {
            Spot::Ram(place) => self.pages.store(place, word),
            _ => unreachable!(),
        }
    }

    /// Sets the control fields by the address of a control write. The page size stays.
    pub fn control(&mut self, address: u32)
        ensures { self.new ≡ with_control address self.old }
    {
        self.control = control_of(address);
    }

    /// Maps a page of 4 KB by the address of a translator write, which names both pages and the level.
    ///
    /// Both pages lose what they had. No words move.
    pub fn translator(&mut self, address: u32)
        requires { self.old.shift ≡ 12 }
        ensures { self.new ≡ translated address self.old }
    {
        let physical = address % 0x80;
        let logical = address / 0x400 % 4 * 0x800 + address / 0x1000 % 0x800;
        let level = address / 0x100 % 4;
        self.pages.map(physical as u8, logical as u16, level as u8);
    }

    /// Puts a logical page on a physical page. Both lose what they had. No words move.
    ///
    /// # Errors
    ///
    /// `OutOfRange`: there are 128 physical pages, logical ones up to 2^25 bytes, and the levels 0 to 3. The
    /// memory is then as it was.
    pub fn map(&mut self, physical: u32, logical: u32, level: u32) -> Result<(), MapFault>
        ensures ok { OnOk result (self.new ≡ with_map physical logical level self.old) }
        ensures unchanged { OnErr result (self.new ≡ self.old) }
        ensures refused { (result ≡ Err MapFault.OutOfRange)
            ↔ (can_map self.old.shift physical logical level ≡ false) }
    {
        if !can_map(self.shift(), physical, logical, level) {
            return Err(MapFault::OutOfRange);
        }
        self.pages.map(physical as u8, logical as u16, level as u8);
        Ok(())
    }

    /// Takes a physical page off the map. No words move.
    ///
    /// # Errors
    ///
    /// `OutOfRange`: a physical page above 127. The memory is then as it was.
    pub fn unmap(&mut self, physical: u32) -> Result<(), MapFault>
        ensures ok { OnOk result (self.new ≡ without_page physical self.old) }
        ensures unchanged { OnErr result (self.new ≡ self.old) }
        ensures refused { (result ≡ Err MapFault.OutOfRange) ↔ (PHYSICAL_PAGES ≤ physical) }
    {
        if physical >= PHYSICAL_PAGES {
            return Err(MapFault::OutOfRange);
        }
        self.pages.unmap(physical as u8);
        Ok(())
    }

    /// Puts words into ROM, each by its address, a multiple of 4 from 3400000 to 3FFFFFC.
    ///
    /// Of two words for one address, and over one that is there, the last stays. No load finds a word at
    /// another address. It copies the words that are there, so a caller passes all words in one call.
    ///
    /// # Errors
    ///
    /// `Memory`: an allocation failed; the memory is then as it was.
    pub fn add_rom(&mut self, _alloc: Global, words: &[(u32, u32)]) -> Result<(), MemcFault>
        ensures ok { OnOk result (self.new ≡ with_rom words.now self.old) }
        ensures words { OnOk result
            ((address : ℕ)
            → rom_word self.new.rom address ≡ last_word words.now address (rom_word self.old.rom address)) }
        ensures unchanged { OnErr result (self.new ≡ self.old) }
    {
        let mut rom = self.rom.clone()?;
        for &(address, word) in words {
            rom.insert(address, word)?;
        }
        self.rom = rom;
        Ok(())
    }

    /// The time fields of low and high ROM.
    #[inline(always)]
    pub fn rom_times(&self) -> RomTimes
        ensures { result ≡ self.now.control.rom_times }
    {
        self.control.rom_times
    }

    #[inline(always)]
    fn logical_at(&self, address: u32, user: bool, store: bool) -> Result<Spot, Refused>
        requires { address < PHYSICAL_START }
        ensures located { result ≡ logical_at self.now address user store }
        ensures fitted { IfOk result (Fits self.now.shift) }
    {
        match self.page_at(address) {
            None => Err(Refused::NoPage),
            Some(entry) => {
                if self.allowed(entry.level, user, store) {
                    Ok(Spot::Ram(self.place_of(entry.physical, address)))
                } else {
                    Err(Refused::Protected)
                }
            }
        }
    }

    // What a store from 3400000 on reaches.
    fn written_at(&self, address: u32) -> Result<Spot, Refused>
        ensures located { result ≡ written_at self.now.shift address }
        ensures fitted { IfOk result (Fits self.now.shift) }
    {
        if address < DMA_AND_CONTROL {
            return Ok(Spot::Vidc(address));
        }
        if address < TRANSLATOR {
            if address / 0x2_0000 % 8 != 7 {
                return Ok(Spot::Ignored(address));
            }
            if address / 4 % 4 + 12 == self.shift() {
                return Ok(Spot::Control(address));
            }
            return Err(Refused::UnsupportedWrite);
        }
        if self.shift() == 12 {
            return Ok(Spot::Translator(address));
        }
        Err(Refused::UnsupportedWrite)
    }

    // The word of ROM that an address names: 0 where there is none.
    #[inline(never)]
    fn rom_word(&self, address: u32) -> u32
        ensures { result ≡ rom_word self.now.rom (address / 4 * 4) }
    {
        self.rom.get(&(address / 4 * 4)).copied().unwrap_or(0)
    }

    fn shift(&self) -> u32
        ensures shift { result ≡ self.now.shift }
        ensures bounds { (12 ≤ result) × (result ≤ 15) }
    {
        self.pages.shift()
    }

    fn fitted_bytes(&self) -> u32
        ensures bytes { result ≡ fitted_bytes self.now.shift }
        ensures whole { IsWhole self.now.shift self.now.paged }
    {
        self.pages.fitted_bytes()
    }

    #[inline(always)]
    fn page_size(&self) -> u32
        ensures bytes { result ≡ 2 ^ self.now.shift }
        ensures bounds { (4096 ≤ result) × (result ≤ 32768) }
        ensures whole { IsWhole self.now.shift self.now.paged }
    {
        self.pages.page_size()
    }

    #[inline(always)]
    fn page_at(&self, address: u32) -> Option<Entry>
        requires { address < PHYSICAL_START }
        ensures page { result ≡ page_at self.now.paged (address / 2 ^ self.now.shift) }
        ensures fitted { IfSome result (λ e. e.physical < PHYSICAL_PAGES) }
    {
        self.pages.page_at(address)
    }

    #[inline(always)]
    fn place_of(&self, physical: u8, address: u32) -> u32
        requires { physical < PHYSICAL_PAGES }
        ensures place { result ≡ place_of self.now.shift physical address }
        ensures fitted { result < fitted_bytes self.now.shift }
    {
        self.pages.place_of(physical, address)
    }

    // Whether a level of protection lets an access pass.
    #[inline(always)]
    fn allowed(&self, level: u8, user: bool, store: bool) -> bool
        ensures { result ≡ allowed self.now.control.system level user store }
    {
        !user
            || level == 0
            || if store {
                self.control.system && level == 1
            } else {
                self.control.system || level == 1
            }
    }
}

// An access to physical RAM, of which `limit` bytes are fitted.
fn physical_at(place: u32, limit: u32, user: bool) -> Result<Spot, Refused>
    ensures located { result ≡ physical_at limit place user }
    ensures fitted { (shift : ℕ) → limit ≡ fitted_bytes shift → IfOk result (Fits shift) }
{
    if place >= limit {
        return Err(Refused::NoPage);
    }
    if user {
        return Err(Refused::Protected);
    }
    Ok(Spot::Ram(place / 4 * 4))
}

// The control fields in the address of a control write.
fn control_of(address: u32) -> ControlFields
    ensures { result ≡ control_of address }
{
    ControlFields {
        rom_times: RomTimes {
            low: address / 0x10 % 4,
            high: address / 0x40 % 4,
        },
        video_dma: address / 0x400 % 2 == 1,
        sound_dma: address / 0x800 % 2 == 1,
        system: address / 0x1000 % 2 == 1,
    }
}
