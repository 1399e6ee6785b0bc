ghost use Rattle.std.specs.Prelude.{◌≡◌, ◌≤◌, IfOk, map};
ghost use Rattle.std.specs.List.{list_all};
ghost use Rattle.toml.specs.View.{table_view, view};
ghost use Rattle.memc.specs.Memory.{shift_of_size};
ghost use Rattle.toml_reading.specs.Documents.{are_distinct};
ghost use Rattle.machine_file.specs.MachineFile.{are_single, controller_in, is_mappable, mapped, page_at};
ghost use Rattle.machine_file.specs.MachineFile.{page_in, page_of, pages_in, rom_in, size_at, size_in};
ghost use Rattle.machine_file.specs.MachineFile.{size_of};

use crate::machine_faults::{MachineFileFault, Read};
use memc::PageSize;
use std::alloc::{AllocError, Global};
use std::marker::Model;
use toml::{Table, Value};
use toml_reading::{
    Entry, are_all_distinct, number_in, number_or, of_keys, pair, required, tables, value_at,
};

/// The keys of a mapped page's table.
pub(crate) const MAP_KEYS: &[&str] = &["logical", "physical", "level"];

/// A logical page on a physical page, both by number, with its level of protection.
#[derive(Clone, Copy, Debug, PartialEq, Eq)]
pub struct MappedPage {
    /// Below 2^25 bytes divided by the page size.
    pub logical: u32,
    /// From 0 to 127.
    pub physical: u32,
    /// From 0 to 3.
    pub level: u32,
}

pub(crate) fn size_of(number: i64) -> Read<PageSize>
    ensures { result ≡ size_of number }
{
    match u32::try_from(number) {
        Ok(4) => Ok(PageSize::K4),
        Ok(8) => Ok(PageSize::K8),
        Ok(16) => Ok(PageSize::K16),
        Ok(32) => Ok(PageSize::K32),
        _ => Err(MachineFileFault::OutOfRange),
    }
}

fn size_at(value: &Value) -> Read<PageSize>
    ensures { result ≡ size_at (view value.now) }
{
    required(value.as_integer(), size_of)
}

pub(crate) fn size_in(table: &Table) -> Read<PageSize>
    ensures { result ≡ size_in (table_view table.now) }
{
    value_at(table, "pages").map_or(Ok(PageSize::K4), size_at)
}

fn page_of(numbers: ((u32, u32), u32)) -> MappedPage
    ensures { result ≡ page_of numbers }
{
    let ((logical, physical), level) = numbers;
    MappedPage {
        logical,
        physical,
        level,
    }
}

fn page_in(table: &Table) -> Read<MappedPage>
    ensures { result ≡ page_in (table_view table.now) }
{
    let ends = pair(
        number_in(table, "logical", u32::MAX),
        number_in(table, "physical", u32::MAX),
    );
    let numbers = pair(ends, number_in(table, "level", u32::MAX));
    of_keys(MAP_KEYS, table, numbers.map(page_of))
}

impl Entry<(), MachineFileFault> for MappedPage {
    ghost reads = { λ _. page_at };

    fn read(_alloc: Global, _context: &(), value: &Value) -> Result<Read<MappedPage>, AllocError> {
        Ok(required(value.as_table(), page_in))
    }
}

/// Whether each of these pages, of this size, can be mapped.
pub(crate) fn are_mappable(size: PageSize, pages: &[MappedPage]) -> bool
    ensures { result ≡ list_all (is_mappable (shift_of_size size)) pages.now }
{
    pages.iter().all(|page| size.can_map(page.physical, page.logical, page.level))
}

// Whether no logical page is in the list twice.
fn have_own_logical(alloc: Global, pages: &[MappedPage]) -> Result<bool, AllocError>
    ensures { IfOk result (λ test. test ≡ are_distinct (map (λ p. p.logical) pages.now)) }
{
    let numbers: Vec<u32> = pages.iter().map(|page| page.logical).collect(alloc)?;
    are_all_distinct(alloc, &numbers)
}

// Whether no physical page is in the list twice.
fn have_own_physical(alloc: Global, pages: &[MappedPage]) -> Result<bool, AllocError>
    ensures { IfOk result (λ test. test ≡ are_distinct (map (λ p. p.physical) pages.now)) }
{
    let numbers: Vec<u32> = pages.iter().map(|page| page.physical).collect(alloc)?;
    are_all_distinct(alloc, &numbers)
}

/// Whether no logical and no physical page is in the list twice.
pub(crate) fn are_single(alloc: Global, pages: &[MappedPage]) -> Result<bool, AllocError>
    ensures { IfOk result (λ test. test ≡ are_single pages.now) }
{
    let logical = have_own_logical(alloc, pages)?;
    let physical = have_own_physical(alloc, pages)?;
    Ok(logical && physical)
}

/// Pages that can be mapped beside one another.
#[derive(Drop)]
pub(crate) struct Pages {
    pub(crate) size: PageSize,
    pub(crate) pages: Vec<MappedPage>,
}

impl Model for Pages {
    ghost use Rattle.std.specs.Prelude.{◌≡◌, true, List};
    ghost use Rattle.std.specs.List.{list_all};
    ghost use Rattle.memc.specs.Memory.{shift_of_size};
    ghost use Rattle.memc.specs.declared.spots.PageSize.{PageSize};
    ghost use Rattle.machine_file.specs.MachineFile.{are_single, is_mappable};
    ghost use Rattle.machine_file.specs.declared.pages.MappedPage.{MappedPage};

    ghost Value = { PageSize × List MappedPage };

    ghost view = { λ p. (p.size, p.pages.items) };

    ghost invariant = { λ p. (list_all (is_mappable (shift_of_size p.size)) p.pages.items ≡ true)
        × (are_single p.pages.items ≡ true) };
}

fn mappable(
    alloc: Global,
    size: PageSize,
    pages: Vec<MappedPage>,
) -> Result<Read<Pages>, AllocError>
    ensures { IfOk result (λ reading. reading ≡ mapped (size, pages.items)) }
{
    if !are_mappable(size, &pages) {
        return Ok(Err(MachineFileFault::OutOfRange));
    }
    if !are_single(alloc, &pages)? {
        return Ok(Err(MachineFileFault::Twice));
    }
    Ok(Ok(Pages { size, pages }))
}

fn pages_in(alloc: Global, table: &Table) -> Result<Read<Pages>, AllocError>
    ensures { IfOk result (λ reading. reading ≡ pages_in (table_view table.now)) }
{
    let listed = tables(alloc, &(), value_at(table, "map"))?;
    match pair(size_in(table), listed) {
        Ok((size, listed)) => mappable(alloc, size, listed),
        Err(fault) => Ok(Err(fault)),
    }
}

/// MEMC's time fields of low and high ROM, each from 0 to 3.
#[derive(Clone, Copy)]
pub(crate) struct RomFields {
    pub(crate) low: u32,
    pub(crate) high: u32,
}

impl Model for RomFields {
    ghost use Rattle.std.specs.Prelude.{◌≤◌, ℕ};

    ghost Value = { ℕ × ℕ };

    ghost view = { λ f. (f.low, f.high) };

    ghost invariant = { λ f. (f.low ≤ 3) × (f.high ≤ 3) };

    ghost inverse = { λ p. record { low = p.0; high = p.1 } };
}

fn rom_in(table: &Table) -> Read<RomFields>
    ensures { result ≡ rom_in (table_view table.now) }
{
    let fields = pair(
        number_or(table, "low_rom", 3, 0),
        number_or(table, "high_rom", 3, 0),
    );
    match fields {
        Ok((low, high)) => Ok(RomFields { low, high }),
        Err(fault) => Err(fault),
    }
}

/// The memory controller as a file states it.
#[derive(Drop)]
pub(crate) struct Controller {
    pub(crate) rom: RomFields,
    pub(crate) pages: Pages,
}

impl Model for Controller {
    ghost use Rattle.machine_file.specs.Stated.{Controller};
    ghost use Rattle.machine_file.specs.MachineFile.{controller_of};

    ghost Value = { Controller };

    ghost view = { λ c. controller_of (c.rom, c.pages) };
}

/// The memory controller that the file's table states.
pub(crate) fn controller_in(alloc: Global, table: &Table) -> Result<Read<Controller>, AllocError>
    ensures { IfOk result (λ reading. reading ≡ controller_in (table_view table.now)) }
{
    let parts = pair(rom_in(table), pages_in(alloc, table)?);
    Ok(parts.map(|(rom, pages)| Controller { rom, pages }))
}
