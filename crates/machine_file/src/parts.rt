ghost use Rattle.std.specs.Prelude.{◌≡◌, ◌≢◌, ◌↔◌, All, Err, IfOk, IsTrue};
ghost use Rattle.image.specs.Image.{may_hold};
ghost use Rattle.bus_ticks.specs.Prices.{is_word_address};
ghost use Rattle.machine_file.specs.Parts.{IsBuilt, IsInRange, HasNoneTwice, stated_by};

use crate::events::{MOST_STEPS, Schedule};
use crate::flags::PsrFlags;
use crate::ioc_settings::IocSetting;
use crate::machine_faults::MachineFileFault;
use crate::machine_files::MachineFile;
use crate::pages::{Controller, MappedPage, Pages, RomFields, are_mappable, are_single};
use crate::processor::{Processor, StartAddress};
use crate::registers::Bank;
use crate::vidc_settings::VidcSetting;
use crate::words::{PutWords, have_own_addresses};
use arm2_effect::Mode;
use bus_ticks::is_word_address;
use image::may_hold;
use indexmap::IndexMap;
use memc::PageSize;
use std::alloc::{AllocError, Global};

/// The registers of a machine.
#[derive(Clone, Copy)]
pub struct ProcessorParts {
    /// The address in R15, in bytes: a multiple of 4 from 0 to 3FFFFFC.
    pub pc: u32,
    pub mode: Mode,
    /// The flags of R15.
    pub flags: PsrFlags,
    /// The words of the registers but R15, in the order of [`arm2_effect::Reg`].
    pub registers: [u32; 26],
}

/// What its memory controller holds.
#[derive(Drop)]
pub struct ControllerParts {
    pub size: PageSize,
    /// MEMC's time field of low ROM, from 0 to 3.
    pub low_rom: u32,
    /// MEMC's time field of high ROM, from 0 to 3.
    pub high_rom: u32,
    /// The mapped pages, no logical and no physical page twice: none where the map after a reset stays.
    pub pages: Vec<MappedPage>,
}

/// How long it runs, and what it loads among the devices.
#[derive(Clone, Copy)]
pub struct ScheduleParts {
    /// How many steps the machine takes: [`MOST_STEPS`] at most.
    pub steps: u32,
    /// The word that a load among the devices reads where IOC has no register.
    pub port: u32,
}

/// What a machine file states, but for events, of a machine whose IOC and VIDC are as after a reset.
#[derive(Drop)]
pub struct MachineParts {
    pub processor: ProcessorParts,
    pub controller: ControllerParts,
    pub schedule: ScheduleParts,
    /// The words that are put into memory after the image, each with its address in front: no two at one
    /// address, each address a multiple of 4 in RAM or in ROM.
    pub words: Vec<(u32, u32)>,
}

fn are_held(words: &[(u32, u32)]) -> bool
    ensures { IsTrue result ↔ All (λ w. IsTrue (may_hold w.0)) words.now }
{
    words.iter().all(|word| may_hold(word.0))
}

fn are_in_range(parts: &MachineParts) -> bool
    ensures { IsTrue result ↔ IsInRange (stated_by parts.now) }
{
    if !is_word_address(parts.processor.pc) {
        return false;
    }
    if parts.controller.low_rom > 3 {
        return false;
    }
    if parts.controller.high_rom > 3 {
        return false;
    }
    if !are_mappable(parts.controller.size, &parts.controller.pages) {
        return false;
    }
    if parts.schedule.steps > MOST_STEPS {
        return false;
    }
    are_held(&parts.words)
}

fn has_none_twice(alloc: Global, parts: &MachineParts) -> Result<bool, AllocError>
    ensures { IfOk result (λ test. IsTrue test ↔ HasNoneTwice (stated_by parts.now)) }
{
    let pages = are_single(alloc, &parts.controller.pages)?;
    let words = have_own_addresses(alloc, &parts.words)?;
    Ok(pages && words)
}

fn processor(alloc: Global, parts: ProcessorParts) -> Result<Processor, AllocError>
    requires { IsTrue (is_word_address parts.pc) }
    ensures { IfOk result (λ p. p
        ≡ record { pc = parts.pc; mode = parts.mode; flags = parts.flags; registers = parts.registers }) }
{
    Ok(Processor {
        pc: StartAddress { address: parts.pc },
        mode: parts.mode,
        flags: parts.flags,
        registers: Bank {
            words: Vec::from_slice(alloc, &parts.registers)?,
        },
    })
}

fn built(alloc: Global, parts: MachineParts) -> Result<MachineFile, AllocError>
    requires in_range { IsInRange (stated_by parts) }
    requires once { HasNoneTwice (stated_by parts) }
    ensures { IfOk result (λ file. file ≡ stated_by parts) }
{
    let MachineParts {
        processor: registers,
        controller,
        schedule,
        words,
    } = parts;
    let processor = processor(alloc, registers)?;
    let rom = RomFields {
        low: controller.low_rom,
        high: controller.high_rom,
    };
    let pages = Pages {
        size: controller.size,
        pages: controller.pages,
    };
    Ok(MachineFile {
        processor,
        controller: Controller { rom, pages },
        schedule: Schedule {
            steps: schedule.steps,
            port: schedule.port,
            events: IndexMap::new(alloc),
        },
        words: PutWords { words },
        ioc: IocSetting::of_reset(),
        vidc: VidcSetting::of_reset(),
    })
}

impl MachineFile {
    /// The machine file that states the parts, without events, with IOC and VIDC as after a reset.
    ///
    /// # Errors
    ///
    /// `OutOfRange`: a number is none of those that its part takes, or MEMC cannot map a page. `Twice`: a
    /// logical or a physical page, or the address of a word, appears twice; numbers out of range come first.
    /// `Memory` only where an allocation failed.
    pub fn of_parts(alloc: Global, parts: MachineParts) -> Result<MachineFile, MachineFileFault>
        ensures { result ≢ Err MachineFileFault.Memory → IsBuilt (stated_by parts) result }
    {
        if !are_in_range(&parts) {
            return Err(MachineFileFault::OutOfRange);
        }
        if !has_none_twice(alloc, &parts)? {
            return Err(MachineFileFault::Twice);
        }
        Ok(built(alloc, parts)?)
    }
}
