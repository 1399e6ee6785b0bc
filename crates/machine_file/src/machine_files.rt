ghost use Rattle.std.specs.Prelude.{◌≡◌, ◌≢◌, ◌≤◌, ◌<◌, All, Err, IfOk, IsTrue, length, true};
ghost use Rattle.std.specs.Map.{keys_of};
ghost use Rattle.bus_ticks.specs.declared.space.TheConstants.{SPACE_END};
ghost use Rattle.image.specs.Image.{may_hold};
ghost use Rattle.toml.specs.View.{table_view};
ghost use Rattle.toml_reading.specs.Documents.{are_distinct};
ghost use Rattle.toml_reading.specs.Readings.{pair, reading_map};
ghost use Rattle.machine_file.specs.MachineFaults.{machine_faults};
ghost use Rattle.machine_file.specs.MachineFile.{IsMachineFile, controller_in, machine_in, processor_in};
ghost use Rattle.machine_file.specs.MachineFile.{devices_in, schedule_in, stated_of, put_words_in};

use crate::events::{Event, Schedule, schedule_in};
use crate::flags::PsrFlags;
use crate::ioc_settings::{IocSetting, ioc_in};
use crate::machine_faults::{MachineFileFault, Read};
use crate::pages::{Controller, MappedPage, controller_in};
use crate::processor::{Processor, processor_in};
use crate::vidc_settings::{VidcSetting, vidc_in};
use crate::words::{PutWords, put_words_in};
use arm2_effect::Mode;
use indexmap::IndexMap;
use memc::PageSize;
use std::alloc::{AllocError, Global};
use std::marker::Model;
use toml::Table;
use toml_reading::{document, of_keys, pair};

/// The keys of a machine file.
pub const MACHINE_KEYS: &[&str] = &[
    "pc",
    "pages",
    "mode",
    "flags",
    "low_rom",
    "high_rom",
    "steps",
    "port",
    "registers",
    "map",
    "event",
    "word",
    "ioc",
    "vidc",
];

/// The state from which a machine starts, the words that are put into its memory after the image, and what
/// comes from outside in its steps.
#[derive(Drop)]
pub struct MachineFile {
    pub(crate) processor: Processor,
    pub(crate) controller: Controller,
    pub(crate) schedule: Schedule,
    pub(crate) words: PutWords,
    pub(crate) ioc: IocSetting,
    pub(crate) vidc: VidcSetting,
}

impl Model for MachineFile {
    ghost use Rattle.machine_file.specs.Stated.{Stated};

    ghost Value = { Stated };

    ghost view = { λ f. record {
      processor = f.processor;
      controller = f.controller;
      schedule = f.schedule;
      words = f.words;
      ioc = f.ioc;
      vidc = f.vidc;
    } };
}

impl MachineFile {
    /// The address in R15, in bytes: a multiple of 4 from 0 to 3FFFFFC.
    pub fn pc(&self) -> u32
        ensures { result ≡ self.now.processor.pc }
    {
        self.processor.pc.address
    }

    /// The processor's mode.
    pub fn mode(&self) -> Mode
        ensures { result ≡ self.now.processor.mode }
    {
        self.processor.mode
    }

    /// The flags of R15.
    pub fn flags(&self) -> PsrFlags
        ensures { result ≡ self.now.processor.flags }
    {
        self.processor.flags
    }

    /// The words of the registers but R15, in the order of [`arm2_effect::Reg`]: 26.
    pub fn registers(&self) -> &[u32]
        ensures words { result.now ≡ self.now.processor.registers }
        ensures all { length result.now ≡ 26 }
    {
        &self.processor.registers.words
    }

    /// The size of a page.
    pub fn page_size(&self) -> PageSize
        ensures { result ≡ self.now.controller.size }
    {
        self.controller.pages.size
    }

    /// MEMC's time field of low ROM.
    pub fn low_rom(&self) -> u32
        ensures field { result ≡ self.now.controller.low_rom }
        ensures range { result ≤ 3 }
    {
        self.controller.rom.low
    }

    /// MEMC's time field of high ROM.
    pub fn high_rom(&self) -> u32
        ensures field { result ≡ self.now.controller.high_rom }
        ensures range { result ≤ 3 }
    {
        self.controller.rom.high
    }

    /// The mapped pages, in the order of the text: none where the map after a reset stays.
    pub fn pages(&self) -> &[MappedPage]
        ensures { result.now ≡ self.now.controller.pages }
    {
        &self.controller.pages.pages
    }

    /// How many steps the machine takes.
    pub fn steps(&self) -> u32
        ensures { result ≡ self.now.schedule.steps }
    {
        self.schedule.steps
    }

    /// The word that a load among the devices reads where IOC has no register, before any event changes it.
    pub fn port(&self) -> u32
        ensures { result ≡ self.now.schedule.port }
    {
        self.schedule.port
    }

    /// The events by their steps, in the order of the text.
    pub fn events(&self) -> &IndexMap<u32, Event>
        ensures { result.now.entries ≡ self.now.schedule.events }
    {
        &self.schedule.events
    }

    /// The words that are put into memory after the image, each with its address in front, in the order of
    /// the text: no two at one address, none in I/O.
    pub fn words(&self) -> &[(u32, u32)]
        ensures words { result.now ≡ self.now.words }
        ensures addresses { All (λ e. IsTrue (may_hold e.0)) result.now }
        ensures below { All (λ e. e.0 < SPACE_END) result.now }
        ensures once { are_distinct (keys_of result.now) ≡ true }
    {
        &self.words.words
    }
}

type Devices = (IocSetting, VidcSetting);

type Given = (Schedule, (PutWords, Devices));

type Parts = (Processor, (Controller, Given));

fn devices_in(table: &Table) -> Read<Devices>
    ensures { result ≡ devices_in (table_view table.now) }
{
    pair(ioc_in(table), vidc_in(table))
}

// The words that are put into memory, and the devices.
fn placed(alloc: Global, table: &Table) -> Result<Read<(PutWords, Devices)>, AllocError>
    ensures { IfOk result
        (λ parts. parts
        ≡ pair machine_faults (put_words_in (table_view table.now)) (devices_in (table_view table.now))) }
{
    let words = put_words_in(alloc, table)?;
    Ok(pair(words, devices_in(table)))
}

// What comes from outside, the words and the devices.
fn given(alloc: Global, table: &Table) -> Result<Read<Given>, AllocError>
    ensures { IfOk result
        (λ parts. parts
        ≡ pair machine_faults (schedule_in (table_view table.now))
        (pair machine_faults (put_words_in (table_view table.now)) (devices_in (table_view table.now)))) }
{
    let schedule = schedule_in(alloc, table)?;
    Ok(pair(schedule, placed(alloc, table)?))
}

// The memory controller, the schedule of the inputs, the words and the devices.
fn surroundings(alloc: Global, table: &Table) -> Result<Read<(Controller, Given)>, AllocError>
    ensures { IfOk result
        (λ parts. parts
        ≡ pair machine_faults (controller_in (table_view table.now))
        (pair machine_faults (schedule_in (table_view table.now))
        (pair machine_faults (put_words_in (table_view table.now)) (devices_in (table_view table.now))))) }
{
    let controller = controller_in(alloc, table)?;
    Ok(pair(controller, given(alloc, table)?))
}

fn parts(alloc: Global, table: &Table) -> Result<Read<Parts>, AllocError>
    ensures { IfOk result
        (λ parts. parts
        ≡ pair machine_faults (processor_in (table_view table.now))
        (pair machine_faults (controller_in (table_view table.now))
        (pair machine_faults (schedule_in (table_view table.now))
        (pair machine_faults (put_words_in (table_view table.now)) (devices_in (table_view table.now)))))) }
{
    let processor = processor_in(alloc, table)?;
    Ok(pair(processor, surroundings(alloc, table)?))
}

fn stated(parts: Read<Parts>) -> Read<MachineFile>
    ensures { result ≡ reading_map stated_of parts }
{
    parts.map(|(processor, (controller, (schedule, (words, (ioc, vidc)))))| MachineFile {
        processor,
        controller,
        schedule,
        words,
        ioc,
        vidc,
    })
}

// What the table states.
fn machine_in(alloc: Global, table: &Table) -> Result<Read<MachineFile>, AllocError>
    ensures { IfOk result (λ reading. reading ≡ machine_in (table_view table.now)) }
{
    let file = stated(parts(alloc, table)?);
    Ok(of_keys(MACHINE_KEYS, table, file))
}

/// The machine that a file states.
///
/// # Errors
///
/// Of several faults over the whole text the first is answered, in the order of [`MachineFileFault`];
/// `Memory` only where an allocation failed.
pub fn read_machine(alloc: Global, text: &[u8]) -> Result<MachineFile, MachineFileFault>
    ensures { result ≢ Err MachineFileFault.Memory → IsMachineFile text.now result }
{
    match document(alloc, text)? {
        Some(table) => machine_in(alloc, &table)?,
        None => Err(MachineFileFault::NotToml),
    }
}
