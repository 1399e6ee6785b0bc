ghost use Rattle.std.specs.Prelude.{◌≡◌, IfOk};
ghost use Rattle.std.specs.Map.{keys_of};
ghost use Rattle.toml_reading.specs.Readings.{reading_map};
ghost use Rattle.toml.specs.View.{table_view, view};
ghost use Rattle.toml_reading.specs.Documents.{once};
ghost use Rattle.machine_file.specs.MachineFile.{counts_in, event_at, event_in, event_of};
ghost use Rattle.machine_file.specs.MachineFile.{events_in, line_at, lines_at};
ghost use Rattle.machine_file.specs.MachineFile.{lines_in, port_at, port_in, schedule_in};
ghost use Rattle.ioc.specs.LineNames.{line_named};
ghost use Rattle.machine_file.specs.MachineFile.{union};

use crate::machine_faults::{MachineFileFault, Read};
use crate::numbers::half_or_zero;
use bitflags::Flags;
use indexmap::IndexMap;
use ioc::Lines;
use std::alloc::{AllocError, Global};
use std::marker::Model;
use toml::{Table, Value};
use toml_reading::{
    Entry, by_number, list, number_at, number_in, number_or, of_keys, pair, required, tables,
    value_at,
};

/// How many steps a machine file asks for at most, and how many where it says nothing.
pub(crate) const MOST_STEPS: u32 = 65_536;

/// The last step that an event can be at: steps are counted from 0.
pub(crate) const LAST_STEP: u32 = MOST_STEPS - 1;

/// The keys of an event's table.
pub(crate) const EVENT_KEYS: &[&str] = &["step", "bursts", "lines", "port"];

/// What comes from outside from a step on.
#[derive(Clone, Copy, Debug, PartialEq, Eq)]
pub struct Event {
    /// DMA bursts that stretch that step alone.
    pub bursts: u16,
    /// The lines that are active from that step on, where the event has them.
    pub lines: Option<Lines>,
    /// The port's word from that step on, where the event has one.
    pub port: Option<u32>,
}

pub(crate) fn line_named(name: &str) -> Option<Lines>
    ensures { result ≡ line_named name.now }
{
    Lines::from_name(name)
}

fn line_at(value: &Value) -> Read<Lines>
    ensures { result ≡ line_at (view value.now) }
{
    required(value.as_str().and_then(line_named), Ok)
}

impl Entry<(), MachineFileFault> for Lines {
    ghost reads = { λ _. line_at };

    fn read(_alloc: Global, _context: &(), value: &Value) -> Result<Read<Lines>, AllocError> {
        Ok(line_at(value))
    }
}

fn union(lines: &[Lines]) -> Lines
    ensures { result ≡ union lines.now }
{
    let mut all = Lines::empty();
    for line in lines {
        all.insert(*line);
    }
    all
}

fn lines_at(alloc: Global, value: &Value) -> Result<Read<Option<Lines>>, AllocError>
    ensures { IfOk result (λ lines. lines ≡ lines_at (view value.now)) }
{
    match list(alloc, &(), value)? {
        Ok(lines) => Ok(Ok(Some(union(&lines)))),
        Err(fault) => Ok(Err(fault)),
    }
}

fn lines_in(alloc: Global, table: &Table) -> Result<Read<Option<Lines>>, AllocError>
    ensures { IfOk result (λ lines. lines ≡ lines_in (table_view table.now)) }
{
    match value_at(table, "lines") {
        Some(value) => lines_at(alloc, value),
        None => Ok(Ok(None)),
    }
}

fn port_at(value: &Value) -> Read<Option<u32>>
    ensures { result ≡ port_at (view value.now) }
{
    number_at(value, u32::MAX).map(Some)
}

fn port_in(table: &Table) -> Read<Option<u32>>
    ensures { result ≡ port_in (table_view table.now) }
{
    value_at(table, "port").map_or(Ok(None), port_at)
}

fn event_of(parts: (u32, (u16, (Option<Lines>, Option<u32>)))) -> (u32, Event)
    ensures { result ≡ event_of parts }
{
    let (step, (bursts, (lines, port))) = parts;
    let event = Event {
        bursts,
        lines,
        port,
    };
    (step, event)
}

fn event_in(alloc: Global, table: &Table) -> Result<Read<(u32, Event)>, AllocError>
    ensures { IfOk result (λ event. event ≡ event_in (table_view table.now)) }
{
    let held = pair(lines_in(alloc, table)?, port_in(table));
    let rest = pair(half_or_zero(table, "bursts"), held);
    let event = pair(number_in(table, "step", LAST_STEP), rest).map(event_of);
    Ok(of_keys(EVENT_KEYS, table, event))
}

impl Entry<(), MachineFileFault> for (u32, Event) {
    ghost reads = { λ _. event_at };

    fn read(alloc: Global, _context: &(), value: &Value) -> Result<Read<(u32, Event)>, AllocError> {
        match value.as_table() {
            Some(table) => event_in(alloc, table),
            None => Ok(Err(MachineFileFault::WrongKind)),
        }
    }
}

/// What comes from outside, as a file states it.
#[derive(Drop)]
pub(crate) struct Schedule {
    pub(crate) steps: u32,
    pub(crate) port: u32,
    pub(crate) events: IndexMap<u32, Event>,
}

impl Model for Schedule {
    ghost use Rattle.std.specs.Prelude.{◌≤◌};
    ghost use Rattle.machine_file.specs.declared.events.TheConstants.{MOST_STEPS};
    ghost use Rattle.machine_file.specs.Stated.{Schedule};

    ghost Value = { Schedule };

    ghost view = { λ s. record { steps = s.steps; port = s.port; events = s.events.entries } };

    ghost invariant = { λ s. s.steps ≤ MOST_STEPS };
}

fn counts_in(table: &Table) -> Read<(u32, u32)>
    ensures { result ≡ counts_in (table_view table.now) }
{
    pair(
        number_or(table, "steps", MOST_STEPS, MOST_STEPS),
        number_or(table, "port", u32::MAX, 0),
    )
}

fn each_once(
    alloc: Global,
    events: Vec<(u32, Event)>,
) -> Result<Read<IndexMap<u32, Event>>, AllocError>
    ensures { IfOk result
        (λ reading. reading_map (λ m. m.entries) reading
        ≡ once MachineFileFault.Twice keys_of events.items) }
{
    match by_number(alloc, events)? {
        Some(events) => Ok(Ok(events)),
        None => Ok(Err(MachineFileFault::Twice)),
    }
}

fn events_in(alloc: Global, table: &Table) -> Result<Read<IndexMap<u32, Event>>, AllocError>
    ensures { IfOk result
        (λ reading. reading_map (λ m. m.entries) reading ≡ events_in (table_view table.now)) }
{
    match tables(alloc, &(), value_at(table, "event"))? {
        Ok(events) => each_once(alloc, events),
        Err(fault) => Ok(Err(fault)),
    }
}

/// What the file's table states to come from outside.
pub(crate) fn schedule_in(alloc: Global, table: &Table) -> Result<Read<Schedule>, AllocError>
    ensures { IfOk result (λ reading. reading ≡ schedule_in (table_view table.now)) }
{
    match pair(counts_in(table), events_in(alloc, table)?) {
        Ok(((steps, port), events)) => Ok(Ok(Schedule {
            steps,
            port,
            events,
        })),
        Err(fault) => Ok(Err(fault)),
    }
}
