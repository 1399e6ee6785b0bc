ghost use Rattle.std.specs.Prelude.{◌≡◌, ◌⊎◌, ◌<◌, false, true, All, IfOk, IfErr, OnOk, OnErr};
ghost use Rattle.bus_ticks.specs.declared.space.TheConstants.{SPACE_END};
ghost use Rattle.loader.specs.Loading.{lacks_page, loaded, put_at, put_words, rom_words, spot_of, with_ram};
ghost use Rattle.loader.specs.declared.loading.LoadFault.TheVariants.{Memory};

use arm2_exec::Machine;
use image::Image;
use memc::{Memc, MemcFault, Spot};
use std::alloc::{AllocError, AllocFailed, Global};
use thiserror::Error;

/// Why words are not put into memory.
#[derive(Clone, Copy, Debug, PartialEq, Eq, Drop, Error)]
pub enum LoadFault {
    /// An allocation failed.
    #[error("Memory")]
    Memory,
    /// A word's address leads to no RAM or ROM of the machine: its logical page is not mapped, or its
    /// physical one not fitted.
    #[error("NoPage")]
    NoPage,
}

impl From<AllocError> for LoadFault {
    ghost from_gives = { λ _ fault. fault ≡ Memory };

    fn from(_refused: AllocError) -> LoadFault {
        LoadFault::Memory
    }
}

impl<T: Drop> From<AllocFailed<T>> for LoadFault {
    ghost from_gives = { λ _ fault. fault ≡ Memory };

    fn from(_refused: AllocFailed<T>) -> LoadFault {
        LoadFault::Memory
    }
}

impl From<MemcFault> for LoadFault {
    ghost from_gives = { λ _ fault. fault ≡ Memory };

    fn from(_refused: MemcFault) -> LoadFault {
        LoadFault::Memory
    }
}

// The words that go to ROM, where each word goes to RAM or ROM.
fn rom_words(alloc: Global, memc: &Memc, words: &[(u32, u32)]) -> Result<Vec<(u32, u32)>, LoadFault>
    requires below { All (λ e. e.0 < SPACE_END) words.now }
    ensures rom { IfOk result (λ rom. rom.items ≡ rom_words memc.now words.now) }
    ensures fits { OnOk result (lacks_page memc.now words.now ≡ false) }
    ensures fault { IfErr result
        (λ fault. (fault ≡ LoadFault.Memory)
        ⊎ ((fault ≡ LoadFault.NoPage) × (lacks_page memc.now words.now ≡ true))) }
{
    let mut rom = Vec::new(alloc);
    for &(address, word) in words {
        match memc.locate(address, false, false) {
            Ok(Spot::Rom(address)) => rom.push((address, word))?,
            Ok(_) => {}
            Err(_) => return Err(LoadFault::NoPage),
        }
    }
    Ok(rom)
}

// Stores a word where it goes to RAM.
fn store_word(memc: &mut Memc, address: u32, word: u32)
    requires below { address < SPACE_END }
    ensures { memc.new ≡ put_at (spot_of memc.old address) word memc.old }
{
    if let Ok(Spot::Ram(place)) = memc.locate(address, false, false) {
        memc.store(Spot::Ram(place), word);
    }
}

// Stores the words that go to RAM, in turn.
fn store_words(memc: &mut Memc, words: &[(u32, u32)])
    requires below { All (λ e. e.0 < SPACE_END) words.now }
    ensures { memc.new ≡ with_ram words.now memc.old }
{
    for &(address, word) in words {
        store_word(memc, address, word);
    }
}

// Puts words into memory, in their order.
fn load_words(alloc: Global, memc: &mut Memc, words: &[(u32, u32)]) -> Result<(), LoadFault>
    requires below { All (λ e. e.0 < SPACE_END) words.now }
    ensures ok { OnOk result (memc.new ≡ loaded words.now memc.old) }
    ensures fits { OnOk result (lacks_page memc.old words.now ≡ false) }
    ensures fault { IfErr result
        (λ fault. (fault ≡ LoadFault.Memory)
        ⊎ ((fault ≡ LoadFault.NoPage) × (lacks_page memc.old words.now ≡ true))) }
    ensures unchanged { OnErr result (memc.new ≡ memc.old) }
{
    let rom = rom_words(alloc, memc, words)?;
    memc.add_rom(alloc, &rom)?;
    store_words(memc, words);
    Ok(())
}

/// Puts words into a machine's memory by their addresses, which are below 2^26: each where a privileged load
/// of its address reads, and in the order of the list, so that of two that lead to one place the later one
/// stays.
///
/// All other words, the page map, the control fields, the registers and the devices stay. It takes time
/// linear in the words of the list and of ROM.
///
/// # Errors
///
/// `NoPage`: a word's address leads to no RAM or ROM of the machine. `Memory`: an allocation failed. After
/// either the machine is as it was.
pub fn put_words(
    alloc: Global,
    machine: &mut Machine,
    words: &[(u32, u32)],
) -> Result<(), LoadFault>
    requires below { All (λ e. e.0 < SPACE_END) words.now }
    ensures ok { OnOk result (machine.new ≡ put_words words.now machine.old) }
    ensures fits { OnOk result (lacks_page machine.old.bus.memc words.now ≡ false) }
    ensures fault { IfErr result
        (λ fault. (fault ≡ LoadFault.Memory)
        ⊎ ((fault ≡ LoadFault.NoPage) × (lacks_page machine.old.bus.memc words.now ≡ true))) }
    ensures unchanged { OnErr result (machine.new ≡ machine.old) }
{
    load_words(alloc, machine.memc_mut(), words)
}

/// Puts the words of an image into a machine's memory, as [`put_words`] does, in the order of their
/// addresses, so that of two that lead to one place the higher one's stays.
///
/// # Errors
///
/// Those of [`put_words`]; after either the machine is as it was.
pub fn load(alloc: Global, machine: &mut Machine, image: &Image) -> Result<(), LoadFault>
    ensures ok { OnOk result (machine.new ≡ put_words image.now machine.old) }
    ensures fits { OnOk result (lacks_page machine.old.bus.memc image.now ≡ false) }
    ensures fault { IfErr result
        (λ fault. (fault ≡ LoadFault.Memory)
        ⊎ ((fault ≡ LoadFault.NoPage) × (lacks_page machine.old.bus.memc image.now ≡ true))) }
    ensures unchanged { OnErr result (machine.new ≡ machine.old) }
{
    image.whole();
    let words = image.listed(alloc)?;
    put_words(alloc, machine, &words)
}
