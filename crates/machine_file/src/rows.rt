//! What the keys of a machine file's tables take.

ghost use Rattle.std.specs.Prelude.{◌≡◌, map};
ghost use Rattle.machine_file.specs.MachineFaultRules.{file_shape, ioc_shape, vidc_shape};
ghost use Rattle.machine_file.specs.MachinePlaces.{shape_in};
ghost use Rattle.machine_file.specs.MachinePlaceTests.{row_of};

use crate::events::{EVENT_KEYS, LAST_STEP, MOST_STEPS};
use crate::pages::MAP_KEYS;
use crate::spots::MachineList;
use crate::vidc_settings::LAST_VALUE;
use crate::words::WORD_KEYS;

/// What a key takes.
#[derive(Clone, Copy)]
pub(crate) enum Takes {
    /// A number from 0 to a limit.
    UpTo(u32),
    /// An address of the program.
    Address,
    /// The address of a word in RAM or in ROM.
    PutAddress,
    /// The size of a page in KB.
    Size,
    /// A byte of latched requests.
    LatchedBits,
    /// The name of a mode.
    ModeName,
    /// Letters of flags.
    FlagLetters,
    /// A list of names of lines.
    LineNames,
}

/// A key, what it takes, and whether it has to be there.
pub(crate) type Row = (&'static str, Takes, bool);

pub(crate) const WORD: Takes = Takes::UpTo(u32::MAX);

const FILE_ROWS: &[Row] = &[
    ("pc", Takes::Address, true),
    ("mode", Takes::ModeName, false),
    ("flags", Takes::FlagLetters, false),
    ("low_rom", Takes::UpTo(3), false),
    ("high_rom", Takes::UpTo(3), false),
    ("pages", Takes::Size, false),
    ("steps", Takes::UpTo(MOST_STEPS), false),
    ("port", WORD, false),
];

const PAGE_ROWS: &[Row] = &[
    ("logical", WORD, true),
    ("physical", WORD, true),
    ("level", WORD, true),
];

const EVENT_ROWS: &[Row] = &[
    ("step", Takes::UpTo(LAST_STEP), true),
    ("bursts", HALF, false),
    ("lines", Takes::LineNames, false),
    ("port", WORD, false),
];

const WORD_ROWS: &[Row] = &[("at", Takes::PutAddress, true), ("value", WORD, true)];

const BYTE: Takes = Takes::UpTo(u8::MAX as u32);

const HALF: Takes = Takes::UpTo(u16::MAX as u32);

const TEN_BITS: Takes = Takes::UpTo(LAST_VALUE);

const IOC_ROWS: &[Row] = &[
    ("mask_a", BYTE, false),
    ("mask_b", BYTE, false),
    ("mask_fiq", BYTE, false),
    ("requests_a", Takes::LatchedBits, false),
    ("timer_0", HALF, false),
    ("count_0", HALF, false),
    ("timer_1", HALF, false),
    ("count_1", HALF, false),
];

const VIDC_ROWS: &[Row] = &[
    ("horizontal_cycle", TEN_BITS, false),
    ("vertical_cycle", TEN_BITS, false),
    ("display_end", TEN_BITS, false),
    ("pixel_rate", Takes::UpTo(3), false),
    ("ticks", WORD, false),
];

/// The rows of IOC's table.
pub(crate) fn ioc_rows() -> &'static [Row]
    ensures { map row_of result.now ≡ ioc_shape.rows }
{
    IOC_ROWS
}

/// The rows of VIDC's table.
pub(crate) fn vidc_rows() -> &'static [Row]
    ensures { map row_of result.now ≡ vidc_shape.rows }
{
    VIDC_ROWS
}

/// The rows of the file itself, but for the keys of its tables.
pub(crate) fn file_rows() -> &'static [Row]
    ensures { map row_of result.now ≡ file_shape.rows }
{
    FILE_ROWS
}

/// The rows of the tables of a list.
pub(crate) fn rows_in(list: MachineList) -> &'static [Row]
    ensures { map row_of result.now ≡ (shape_in list).rows }
{
    match list {
        MachineList::Pages => PAGE_ROWS,
        MachineList::Events => EVENT_ROWS,
        MachineList::Words => WORD_ROWS,
    }
}

/// The keys that a table of a list may have.
pub fn keys_in(list: MachineList) -> &'static [&'static str]
    ensures { map (λ k. k.now) result.now ≡ (shape_in list).keys }
{
    match list {
        MachineList::Pages => MAP_KEYS,
        MachineList::Events => EVENT_KEYS,
        MachineList::Words => WORD_KEYS,
    }
}
