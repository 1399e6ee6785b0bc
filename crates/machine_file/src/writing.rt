ghost use Rattle.std.specs.Prelude.{◌≡◌, ◌++◌, ◌≤◌, ◌<◌, ◌^◌, All, Ok, false, [], IfOk, codes, length, map};
ghost use Rattle.std.specs.Prelude.{string_bytes};
ghost use Rattle.std.specs.List.{zip};
ghost use Rattle.toml.specs.Data.{string};
ghost use Rattle.toml.specs.Text.{IsDocumentText};
ghost use Rattle.toml.specs.View.{table_view, view};
ghost use Rattle.machine_file.specs.MachineFile.{IsMachineFile};
ghost use Rattle.machine_file.specs.MachineRules.{kilobytes};
ghost use Rattle.machine_file.specs.Written.{byte_rows, controller_rows, cycle_rows, device_rows};
ghost use Rattle.machine_file.specs.Written.{display_rows, document_of, ioc_rows, letter_if, letters_of};
ghost use Rattle.machine_file.specs.Written.{mode_name, page_data, processor_rows, register_row};
ghost use Rattle.machine_file.specs.Written.{register_table, schedule_rows, table_of, timer_rows, vidc_rows};
ghost use Rattle.machine_file.specs.Written.{with_key, with_rows, word_data, word_list_rows};

use crate::events::Schedule;
use crate::flags::PsrFlags;
use crate::ioc_settings::{IocSetting, TimerSetting};
use crate::keys::{
    list_value, set, set_number, set_optional, set_text, some_number, table_value, unless_zero,
};
use crate::machine_files::MachineFile;
use crate::pages::{Controller, MappedPage};
use crate::processor::Processor;
use crate::registers::NAMES;
use crate::rules::keeps_rules;
use crate::vidc_settings::{RateBits, TenBits, VidcSetting};
use arm2_effect::Mode;
use memc::PageSize;
use std::alloc::{AllocError, Global};
use toml::{Table, Value};

// ## The processor

fn mode_name(mode: Mode) -> &'static str
    ensures { result.now ≡ mode_name mode }
{
    match mode {
        Mode::User => "user",
        Mode::Fiq => "fiq",
        Mode::Irq => "irq",
        Mode::Svc => "svc",
    }
}

fn push_letter(text: &mut String, set: bool, letter: &str) -> Result<(), AllocError>
    ensures { IfOk result
        (λ _. string_bytes text.new ≡ string_bytes text.old ++ letter_if set letter.now) }
{
    if !set {
        return Ok(());
    }
    text.push_str(letter)
}

fn letters(alloc: Global, flags: PsrFlags) -> Result<String, AllocError>
    ensures { IfOk result (λ text. string_bytes text ≡ letters_of flags) }
{
    let mut text = String::new(alloc);
    push_letter(&mut text, flags.negative, "N")?;
    push_letter(&mut text, flags.zero, "Z")?;
    push_letter(&mut text, flags.carry, "C")?;
    push_letter(&mut text, flags.overflow, "V")?;
    push_letter(&mut text, flags.irq_masked, "I")?;
    push_letter(&mut text, flags.fiq_masked, "F")?;
    Ok(text)
}

fn set_flags(alloc: Global, table: &mut Table, flags: PsrFlags) -> Result<(), AllocError>
    ensures { IfOk result
        (λ _. table_view table.new
        ≡ with_key (codes "flags") (string (letters_of flags)) (table_view table.old)) }
{
    let letters = letters(alloc, flags)?;
    set(alloc, table, "flags", Value::from(letters))
}

fn set_words(
    alloc: Global,
    table: &mut Table,
    names: &[&str],
    words: &[u32],
) -> Result<(), AllocError>
    requires { length words.now ≤ length names.now }
    ensures { IfOk result
        (λ _. table_view table.new
        ≡ with_rows (table_view table.old)
        (map register_row (zip (map (λ n. n.now) names.now) words.now))) }
{
    for (i, word) in words.iter().enumerate() {
        set_optional(alloc, table, names[i], unless_zero(*word))?;
    }
    Ok(())
}

fn register_table(alloc: Global, words: &[u32]) -> Result<Table, AllocError>
    requires { length words.now ≡ 26 }
    ensures { IfOk result (λ table. table_view table ≡ register_table words.now) }
{
    let mut table = Table::new(alloc);
    set_words(alloc, &mut table, &NAMES, words)?;
    Ok(table)
}

fn set_processor(alloc: Global, table: &mut Table, processor: &Processor) -> Result<(), AllocError>
    ensures { IfOk result
        (λ _. table_view table.new
        ≡ with_rows (table_view table.old) (processor_rows processor.now)) }
{
    set_number(alloc, table, "pc", processor.pc.address)?;
    set_text(alloc, table, "mode", mode_name(processor.mode))?;
    set_flags(alloc, table, processor.flags)?;
    let registers = register_table(alloc, &processor.registers.words)?;
    set_optional(alloc, table, "registers", table_value(registers))
}

// ## The memory controller

fn kilobytes(size: PageSize) -> u32
    ensures { result ≡ kilobytes size }
{
    match size {
        PageSize::K4 => 4,
        PageSize::K8 => 8,
        PageSize::K16 => 16,
        PageSize::K32 => 32,
    }
}

fn page_value(alloc: Global, page: MappedPage) -> Result<Value, AllocError>
    ensures { IfOk result (λ value. view value ≡ page_data page) }
{
    let mut table = Table::new(alloc);
    set_number(alloc, &mut table, "logical", page.logical)?;
    set_number(alloc, &mut table, "physical", page.physical)?;
    set_number(alloc, &mut table, "level", page.level)?;
    Ok(Value::from(table))
}

fn page_values(alloc: Global, pages: &[MappedPage]) -> Result<Vec<Value>, AllocError>
    ensures { IfOk result (λ values. map view values.items ≡ map page_data pages.now) }
{
    let mut values = Vec::new(alloc);
    for page in pages {
        values.push(page_value(alloc, *page)?)?;
    }
    Ok(values)
}

fn set_controller(
    alloc: Global,
    table: &mut Table,
    controller: &Controller,
) -> Result<(), AllocError>
    ensures { IfOk result
        (λ _. table_view table.new
        ≡ with_rows (table_view table.old) (controller_rows controller.now)) }
{
    set_number(alloc, table, "pages", kilobytes(controller.pages.size))?;
    set_number(alloc, table, "low_rom", controller.rom.low)?;
    set_number(alloc, table, "high_rom", controller.rom.high)?;
    let pages = page_values(alloc, &controller.pages.pages)?;
    set_optional(alloc, table, "map", list_value(pages))
}

// ## The steps, and the words that are put into memory

fn set_schedule(alloc: Global, table: &mut Table, schedule: &Schedule) -> Result<(), AllocError>
    ensures { IfOk result
        (λ _. table_view table.new
        ≡ with_rows (table_view table.old) (schedule_rows schedule.now)) }
{
    set_number(alloc, table, "steps", schedule.steps)?;
    set_number(alloc, table, "port", schedule.port)
}

fn word_value(alloc: Global, word: (u32, u32)) -> Result<Value, AllocError>
    ensures value { IfOk result (λ value. view value ≡ word_data word) }
    ensures bound { word.1 < 2 ^ 32 }
{
    let mut table = Table::new(alloc);
    set_number(alloc, &mut table, "at", word.0)?;
    set_number(alloc, &mut table, "value", word.1)?;
    Ok(Value::from(table))
}

fn word_values(alloc: Global, words: &[(u32, u32)]) -> Result<Vec<Value>, AllocError>
    ensures values { IfOk result (λ values. map view values.items ≡ map word_data words.now) }
    ensures bound { IfOk result (λ _. All (λ w. w.1 < 2 ^ 32) words.now) }
{
    let mut values = Vec::new(alloc);
    for word in words {
        values.push(word_value(alloc, *word)?)?;
    }
    Ok(values)
}

fn set_put_words(alloc: Global, table: &mut Table, words: &[(u32, u32)]) -> Result<(), AllocError>
    ensures rows { IfOk result
        (λ _. table_view table.new
        ≡ with_rows (table_view table.old) (word_list_rows words.now)) }
    ensures bound { IfOk result (λ _. All (λ w. w.1 < 2 ^ 32) words.now) }
{
    let values = word_values(alloc, words)?;
    set_optional(alloc, table, "word", list_value(values))
}

// ## The devices

fn set_timer(
    alloc: Global,
    table: &mut Table,
    latch: &str,
    count: &str,
    timer: TimerSetting,
) -> Result<(), AllocError>
    ensures { IfOk result
        (λ _. table_view table.new
        ≡ with_rows (table_view table.old) (timer_rows latch.now count.now timer)) }
{
    set_optional(alloc, table, latch, unless_zero(u32::from(timer.latch)))?;
    set_optional(alloc, table, count, some_number(timer.count.map(u32::from)))
}

fn set_bytes(alloc: Global, table: &mut Table, ioc: &IocSetting) -> Result<(), AllocError>
    ensures { IfOk result
        (λ _. table_view table.new
        ≡ with_rows (table_view table.old) (byte_rows ioc.now)) }
{
    set_optional(alloc, table, "mask_a", unless_zero(u32::from(ioc.mask_a)))?;
    set_optional(alloc, table, "mask_b", unless_zero(u32::from(ioc.mask_b)))?;
    set_optional(
        alloc,
        table,
        "mask_fiq",
        unless_zero(u32::from(ioc.mask_fiq)),
    )?;
    set_optional(
        alloc,
        table,
        "requests_a",
        unless_zero(u32::from(ioc.requests_a.bits)),
    )
}

fn set_ioc_rows(alloc: Global, table: &mut Table, ioc: &IocSetting) -> Result<(), AllocError>
    ensures { IfOk result
        (λ _. table_view table.new
        ≡ with_rows (table_view table.old) (ioc_rows ioc.now)) }
{
    set_bytes(alloc, table, ioc)?;
    set_timer(alloc, table, "timer_0", "count_0", ioc.timer_0)?;
    set_timer(alloc, table, "timer_1", "count_1", ioc.timer_1)
}

fn ioc_table(alloc: Global, ioc: &IocSetting) -> Result<Table, AllocError>
    ensures { IfOk result (λ table. table_view table ≡ table_of (ioc_rows ioc.now)) }
{
    let mut table = Table::new(alloc);
    set_ioc_rows(alloc, &mut table, ioc)?;
    Ok(table)
}

fn value_in(register: &TenBits) -> u32
    ensures { result ≡ register.now }
{
    register.value
}

fn value_of(register: &Option<TenBits>) -> Option<u32>
    ensures { result ≡ register.now }
{
    match register {
        Some(register) => Some(register.value),
        None => None,
    }
}

fn rate_in(rate: &RateBits) -> u32
    ensures { result ≡ rate.now }
{
    rate.bits
}

fn set_cycles(alloc: Global, table: &mut Table, vidc: &VidcSetting) -> Result<(), AllocError>
    ensures { IfOk result
        (λ _. table_view table.new
        ≡ with_rows (table_view table.old) (cycle_rows vidc.now)) }
{
    let horizontal = some_number(value_of(&vidc.horizontal_cycle));
    set_optional(alloc, table, "horizontal_cycle", horizontal)?;
    let vertical = some_number(value_of(&vidc.vertical_cycle));
    set_optional(alloc, table, "vertical_cycle", vertical)
}

fn set_display(alloc: Global, table: &mut Table, vidc: &VidcSetting) -> Result<(), AllocError>
    ensures { IfOk result
        (λ _. table_view table.new
        ≡ with_rows (table_view table.old) (display_rows vidc.now)) }
{
    set_optional(
        alloc,
        table,
        "display_end",
        unless_zero(value_in(&vidc.display_end)),
    )?;
    set_optional(
        alloc,
        table,
        "pixel_rate",
        unless_zero(rate_in(&vidc.pixel_rate)),
    )?;
    set_optional(alloc, table, "ticks", unless_zero(vidc.ticks))
}

fn set_vidc_rows(alloc: Global, table: &mut Table, vidc: &VidcSetting) -> Result<(), AllocError>
    ensures { IfOk result
        (λ _. table_view table.new
        ≡ with_rows (table_view table.old) (vidc_rows vidc.now)) }
{
    set_cycles(alloc, table, vidc)?;
    set_display(alloc, table, vidc)
}

fn vidc_table(alloc: Global, vidc: &VidcSetting) -> Result<Table, AllocError>
    ensures { IfOk result (λ table. table_view table ≡ table_of (vidc_rows vidc.now)) }
{
    let mut table = Table::new(alloc);
    set_vidc_rows(alloc, &mut table, vidc)?;
    Ok(table)
}

fn set_devices(alloc: Global, table: &mut Table, file: &MachineFile) -> Result<(), AllocError>
    ensures { IfOk result
        (λ _. table_view table.new
        ≡ with_rows (table_view table.old) (device_rows file.now.ioc file.now.vidc)) }
{
    let ioc = ioc_table(alloc, &file.ioc)?;
    set_optional(alloc, table, "ioc", table_value(ioc))?;
    let vidc = vidc_table(alloc, &file.vidc)?;
    set_optional(alloc, table, "vidc", table_value(vidc))
}

// ## The file

// The words that are put into memory, and the devices.
fn set_placed(alloc: Global, table: &mut Table, file: &MachineFile) -> Result<(), AllocError>
    ensures rows { IfOk result
        (λ _. table_view table.new
        ≡ with_rows (table_view table.old)
        (word_list_rows file.now.words ++ device_rows file.now.ioc file.now.vidc)) }
    ensures bound { IfOk result (λ _. All (λ w. w.1 < 2 ^ 32) file.now.words) }
{
    set_put_words(alloc, table, &file.words.words)?;
    set_devices(alloc, table, file)
}

fn document(alloc: Global, file: &MachineFile) -> Result<Table, AllocError>
    ensures document { IfOk result (λ table. table_view table ≡ document_of file.now) }
    ensures bound { IfOk result (λ _. All (λ w. w.1 < 2 ^ 32) file.now.words) }
{
    let mut table = Table::new(alloc);
    set_processor(alloc, &mut table, &file.processor)?;
    set_controller(alloc, &mut table, &file.controller)?;
    set_schedule(alloc, &mut table, &file.schedule)?;
    set_placed(alloc, &mut table, file)?;
    Ok(table)
}

/// The text of a machine file without events, which [`read_machine`](crate::machine_files::read_machine)
/// reads back as the same file. It has all keys but those of registers that are 0, of devices where these are
/// as after a reset, and of empty lists and tables.
///
/// # Errors
///
/// An allocation failed.
pub fn write_machine(alloc: Global, file: &MachineFile) -> Result<String, AllocError>
    requires { file.now.schedule.events ≡ [] }
    ensures text { IfOk result
        (λ text. IsDocumentText false (document_of file.now) (string_bytes text)) }
    ensures reads_back { IfOk result (λ text. IsMachineFile (string_bytes text) (Ok file.now)) }
{
    keeps_rules(file);
    let table = document(alloc, file)?;
    match toml::table_to_string(alloc, &table) {
        Ok(text) => Ok(text),
        Err(_) => Err(AllocError),
    }
}
