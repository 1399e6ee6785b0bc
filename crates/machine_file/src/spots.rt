//! What of a machine file or of a cycle profile may have a fault.

ghost use Rattle.std.specs.Prelude.{◌≡◌};
ghost use Rattle.machine_file.specs.MachinePlaces.{list_key, number_key, number_list, table_key};
ghost use Rattle.machine_file.specs.ProfilePlaces.{price_key};

/// What of a table may have a fault: a key, by the bytes of its name.
#[derive(Clone, Copy)]
pub enum Part<'a> {
    /// A key that the table may not have.
    Unknown(&'a [u8]),
    /// A key that is there: its value.
    Value(&'a [u8]),
    /// A key that has to be there and is not.
    Missing(&'a [u8]),
}

/// A table in a machine file.
#[derive(Clone, Copy)]
pub enum MachineTable {
    /// The words of the registers.
    Registers,
    /// IOC at the start.
    Ioc,
    /// VIDC at the start.
    Vidc,
}

/// A list of tables in a machine file.
#[derive(Clone, Copy)]
pub enum MachineList {
    /// The mapped pages.
    Pages,
    Events,
    /// The words that are put into memory.
    Words,
}

/// A number in the tables of a list.
#[derive(Clone, Copy)]
pub enum EntryNumber {
    /// Of a logical page.
    Logical,
    /// Of a physical page.
    Physical,
    /// The level of a mapped page.
    Level,
    /// The step of an event.
    Step,
    /// The address of a word.
    Address,
}

/// What of a machine file may have a fault. Entries of lists are counted from 0.
#[derive(Clone, Copy)]
pub enum MachineSpot<'a> {
    /// A key of the file itself.
    Own(Part<'a>),
    /// The flags, of which a letter is there twice.
    FlagTwice,
    /// The value at a table's key, which is no table.
    NoInner(MachineTable),
    /// A key of a table.
    Inner(MachineTable, Part<'a>),
    /// The value at a list's key, which is no list.
    NoList(MachineList),
    /// An entry of a list, which is no table.
    NoTable(MachineList, usize),
    /// A key of an entry of a list.
    Listed(MachineList, usize, Part<'a>),
    /// A number of a mapped page, with which MEMC cannot map it.
    Unmappable(EntryNumber, usize),
    /// An entry whose page, step or address an earlier one of its list has.
    Second(EntryNumber, usize),
}

/// A list of four prices in a cycle profile.
#[derive(Clone, Copy)]
pub enum PriceList {
    /// Of ROM, by time field.
    Rom,
    /// Of slow, medium, fast and synchronous devices.
    Io,
}

/// An order that the prices of a profile keep.
#[derive(Clone, Copy)]
pub enum PriceOrder {
    /// `s` is at most `quad`.
    SByQuad,
    /// `quad` is at most `n`.
    QuadByN,
    /// `n` is at most the dearest device.
    NByDevices,
    /// The dearest ROM is at most the dearest device.
    RomByDevices,
    /// `control` is at most the dearest device.
    ControlByDevices,
}

/// What of a cycle profile may have a fault.
#[derive(Clone, Copy)]
pub enum ProfileSpot<'a> {
    /// A key.
    Own(Part<'a>),
    /// A price of a list, counted from 0.
    Item(PriceList, usize),
    /// One of the fifteen prices, in the order of a profile's fields: its range.
    Price(usize),
    /// Two prices, or a price and the dearest of others.
    Disordered(PriceOrder),
}

/// The key of a table in a machine file.
pub fn table_key(table: MachineTable) -> &'static str
    ensures { result.now ≡ table_key table }
{
    match table {
        MachineTable::Registers => "registers",
        MachineTable::Ioc => "ioc",
        MachineTable::Vidc => "vidc",
    }
}

/// The key of a list in a machine file.
pub fn list_key(list: MachineList) -> &'static str
    ensures { result.now ≡ list_key list }
{
    match list {
        MachineList::Pages => "map",
        MachineList::Events => "event",
        MachineList::Words => "word",
    }
}

/// The list whose tables have the number.
pub fn number_list(number: EntryNumber) -> MachineList
    ensures { result ≡ number_list number }
{
    match number {
        EntryNumber::Logical | EntryNumber::Physical | EntryNumber::Level => MachineList::Pages,
        EntryNumber::Step => MachineList::Events,
        EntryNumber::Address => MachineList::Words,
    }
}

/// The key of a number in its table.
pub fn number_key(number: EntryNumber) -> &'static str
    ensures { result.now ≡ number_key number }
{
    match number {
        EntryNumber::Logical => "logical",
        EntryNumber::Physical => "physical",
        EntryNumber::Level => "level",
        EntryNumber::Step => "step",
        EntryNumber::Address => "at",
    }
}

/// The key of a list in a cycle profile.
pub fn price_key(list: PriceList) -> &'static str
    ensures { result.now ≡ price_key list }
{
    match list {
        PriceList::Rom => "rom",
        PriceList::Io => "io",
    }
}
