ghost use Rattle.std.specs.Prelude.{◌≡◌, IfOk, map, option_map};
ghost use Rattle.toml.specs.View.{table_view, view};
ghost use Rattle.image.specs.Labels.{address_of};
ghost use Rattle.toml_reading.specs.Documents.{once};
ghost use Rattle.toml_reading.specs.Readings.{and_then, items_in};
ghost use Rattle.statement.specs.Statement.{access_at, access_in, address_at, address_in, address_or};
ghost use Rattle.statement.specs.Statement.{class_named_at};
ghost use Rattle.statement.specs.Statement.{class_in, class_name};
ghost use Rattle.statement.specs.Statement.{destinations, destinations_at, target_of_kind, kind_at, kind_in};
ghost use Rattle.statement.specs.Statement.{leave_named_at, loop_at, loop_in, loop_of, loop_parts};
ghost use Rattle.statement.specs.Statement.{named_class, named_kind, named_leave, named_returns};
ghost use Rattle.statement.specs.Statement.{returns_named_at};
ghost use Rattle.statement.specs.Statement.{some_destinations, target_at, target_in};

use crate::faults::{Read, StatementFault};
use crate::offsets::text_address;
use crate::stated::{Loop, Returns, Target, TargetKind};
use bus_ticks::Class;
use image::Labels;
use std::alloc::{AllocError, Global};
use toml::{Table, Value};
use toml_reading::{
    Entry, are_all_distinct, in_space, number_in, of_keys, pair, read_list_up_to, required,
    value_at, values_of,
};
use walks::MOST_ROUNDS;

/// The keys of a loop's table.
pub const LOOP_KEYS: &[&str] = &["header", "first", "last", "bound"];

/// The keys of a target's table.
pub const TARGET_KEYS: &[&str] = &["at", "kind", "to"];

/// The keys of an access's table.
pub const ACCESS_KEYS: &[&str] = &["at", "class"];

/// The most destinations of a target.
pub const MOST_DESTINATIONS: usize = 64;

/// An address, as an integer or as a text that names a label.
pub(crate) fn address_at(labels: &Labels, value: &Value) -> Read<u32>
    ensures { result ≡ address_at (address_of labels.now) (view value.now) }
{
    if let Some(number) = value.as_integer() {
        return in_space(number);
    }
    required(value.as_str(), |text| text_address(labels, text.as_bytes()))
}

/// The address at a key that must be there.
pub(crate) fn address_in(labels: &Labels, table: &Table, key: &str) -> Read<u32>
    ensures { result ≡ address_in (address_of labels.now) key.now (table_view table.now) }
{
    required(value_at(table, key), |value| address_at(labels, value))
}

/// The address at a key that may be missing.
pub(crate) fn address_or(labels: &Labels, table: &Table, key: &str, missing: u32) -> Read<u32>
    ensures { result ≡ address_or (address_of labels.now) key.now missing (table_view table.now) }
{
    value_at(table, key).map_or(Ok(missing), |value| address_at(labels, value))
}

// The loop of its first and last word, its header and its bound.
fn loop_of(parts: ((u32, u32), (u32, u32))) -> Loop
    ensures { result ≡ loop_of parts }
{
    let ((first, last), (header, bound)) = parts;
    Loop {
        header,
        first,
        last,
        bound,
    }
}

fn loop_parts(labels: &Labels, table: &Table) -> Read<((u32, u32), (u32, u32))>
    ensures { result ≡ loop_parts (address_of labels.now) (table_view table.now) }
{
    let ends = pair(
        address_in(labels, table, "first"),
        address_in(labels, table, "last"),
    );
    let rest = pair(
        address_in(labels, table, "header"),
        number_in(table, "bound", MOST_ROUNDS),
    );
    pair(ends, rest)
}

fn loop_in(labels: &Labels, table: &Table) -> Read<Loop>
    ensures { result ≡ loop_in (address_of labels.now) (table_view table.now) }
{
    let reading = loop_parts(labels, table).map(loop_of);
    of_keys(LOOP_KEYS, table, reading)
}

impl Entry<Labels, StatementFault> for Loop {
    ghost reads = { λ labels. loop_at (address_of labels) };

    fn read(_alloc: Global, labels: &Labels, value: &Value) -> Result<Read<Loop>, AllocError> {
        Ok(required(value.as_table(), |table| loop_in(labels, table)))
    }
}

/// An address.
impl Entry<Labels, StatementFault> for u32 {
    ghost reads = { λ labels. address_at (address_of labels) };

    fn read(_alloc: Global, labels: &Labels, value: &Value) -> Result<Read<u32>, AllocError> {
        Ok(address_at(labels, value))
    }
}

/// The name of a class of addresses in a statement.
pub fn class_name(class: Class) -> &'static str
    ensures { result.now ≡ class_name class }
{
    match class {
        Class::Any => "any",
        Class::Ram => "ram",
        Class::Rom => "rom",
        Class::Io => "io",
        Class::Slow => "slow",
        Class::Medium => "medium",
        Class::Fast => "fast",
        Class::Synchronous => "synchronous",
    }
}

/// The class that a word names for the addresses to which a handler leaves. No handler leaves to the devices
/// of one speed.
pub fn named_leave(word: &[u8]) -> Option<Class>
    ensures { result ≡ named_leave word.now }
{
    if word == class_name(Class::Any).as_bytes() {
        return Some(Class::Any);
    }
    if word == class_name(Class::Ram).as_bytes() {
        return Some(Class::Ram);
    }
    if word == class_name(Class::Rom).as_bytes() {
        return Some(Class::Rom);
    }
    if word == class_name(Class::Io).as_bytes() {
        return Some(Class::Io);
    }
    None
}

/// The class that a word names for the addresses that a word loads or stores.
pub fn named_class(word: &[u8]) -> Option<Class>
    ensures { result ≡ named_class word.now }
{
    if word == class_name(Class::Slow).as_bytes() {
        return Some(Class::Slow);
    }
    if word == class_name(Class::Medium).as_bytes() {
        return Some(Class::Medium);
    }
    if word == class_name(Class::Fast).as_bytes() {
        return Some(Class::Fast);
    }
    if word == class_name(Class::Synchronous).as_bytes() {
        return Some(Class::Synchronous);
    }
    named_leave(word)
}

/// The class that a value names for the addresses to which a handler leaves.
pub(crate) fn leave_named_at(value: &Value) -> Read<Class>
    ensures { result ≡ leave_named_at (view value.now) }
{
    let word = value.as_str().map(str::as_bytes);
    required(word.and_then(named_leave), Ok)
}

/// The class that a value names for the addresses that a word loads or stores.
pub(crate) fn class_named_at(value: &Value) -> Read<Class>
    ensures { result ≡ class_named_at (view value.now) }
{
    let word = value.as_str().map(str::as_bytes);
    required(word.and_then(named_class), Ok)
}

/// What a word at the key `returns` says of words that write R15 and have no stated target.
pub fn named_returns(word: &[u8]) -> Option<Returns>
    ensures { result ≡ named_returns word.now }
{
    if word == b"assumed".as_slice() {
        return Some(Returns::Assumed);
    }
    if word == b"stated".as_slice() {
        return Some(Returns::Stated);
    }
    None
}

/// What a value says of such words.
pub(crate) fn returns_named_at(value: &Value) -> Read<Returns>
    ensures { result ≡ returns_named_at (view value.now) }
{
    let word = value.as_str().map(str::as_bytes);
    required(word.and_then(named_returns), Ok)
}

pub(crate) fn class_in(table: &Table) -> Read<Class>
    ensures { result ≡ class_in (table_view table.now) }
{
    required(value_at(table, "class"), class_named_at)
}

fn access_in(labels: &Labels, table: &Table) -> Read<(u32, Class)>
    ensures { result ≡ access_in (address_of labels.now) (table_view table.now) }
{
    let reading = pair(address_in(labels, table, "at"), class_in(table));
    of_keys(ACCESS_KEYS, table, reading)
}

impl Entry<Labels, StatementFault> for (u32, Class) {
    ghost reads = { λ labels. access_at (address_of labels) };

    fn read(
        _alloc: Global,
        labels: &Labels,
        value: &Value,
    ) -> Result<Read<(u32, Class)>, AllocError> {
        Ok(required(value.as_table(), |table| access_in(labels, table)))
    }
}

/// The kind of target that a word names in a statement.
pub fn named_kind(word: &[u8]) -> Option<TargetKind>
    ensures { result ≡ named_kind word.now }
{
    if word == b"jump".as_slice() {
        return Some(TargetKind::Jump);
    }
    if word == b"call".as_slice() {
        return Some(TargetKind::Call);
    }
    if word == b"return".as_slice() {
        return Some(TargetKind::Return);
    }
    if word == b"leave".as_slice() {
        return Some(TargetKind::Leave);
    }
    None
}

fn kind_at(value: &Value) -> Read<TargetKind>
    ensures { result ≡ kind_at (view value.now) }
{
    let word = value.as_str().map(str::as_bytes);
    required(word.and_then(named_kind), Ok)
}

pub(crate) fn kind_in(table: &Table) -> Read<TargetKind>
    ensures { result ≡ kind_in (table_view table.now) }
{
    required(value_at(table, "kind"), kind_at)
}

// The list, where no address is in it twice.
fn each_once(alloc: Global, to: Vec<u32>) -> Result<Read<Vec<u32>>, AllocError>
    ensures { IfOk result (λ list. items_in list ≡ once StatementFault.Twice (λ ns. ns) to.items) }
{
    if are_all_distinct(alloc, &to)? {
        Ok(Ok(to))
    } else {
        Ok(Err(StatementFault::Twice))
    }
}

// The destinations of a jump or a call.
fn some_destinations(
    alloc: Global,
    labels: &Labels,
    values: &[Value],
) -> Result<Read<Vec<u32>>, AllocError>
    ensures { IfOk result
        (λ list. items_in list ≡ some_destinations (address_of labels.now) (map view values.now)) }
{
    if values.is_empty() {
        return Ok(Err(StatementFault::WrongKind));
    }
    match read_list_up_to(alloc, labels, values, MOST_DESTINATIONS)? {
        Ok(to) => each_once(alloc, to),
        Err(fault) => Ok(Err(fault)),
    }
}

fn destinations_at(
    alloc: Global,
    labels: &Labels,
    value: &Value,
) -> Result<Read<Vec<u32>>, AllocError>
    ensures { IfOk result (λ list. items_in list ≡ destinations_at (address_of labels.now) (view value.now)) }
{
    match values_of(value) {
        Some(values) => some_destinations(alloc, labels, values),
        None => Ok(Err(StatementFault::WrongKind)),
    }
}

fn destinations(
    alloc: Global,
    labels: &Labels,
    value: Option<&Value>,
    kind: TargetKind,
) -> Result<Read<Vec<u32>>, AllocError>
    ensures { IfOk result
        (λ list. items_in list
        ≡ destinations (address_of labels.now) (option_map (λ v. view v.now) value.entry) kind) }
{
    match kind {
        TargetKind::Jump | TargetKind::Call => match value {
            Some(value) => destinations_at(alloc, labels, value),
            None => Ok(Err(StatementFault::WrongKind)),
        },
        TargetKind::Return | TargetKind::Leave => match value {
            Some(_) => Ok(Err(StatementFault::WrongKind)),
            None => Ok(Ok(Vec::new(alloc))),
        },
    }
}

fn direct(
    alloc: Global,
    labels: &Labels,
    value: Option<&Value>,
    kind: Read<TargetKind>,
) -> Result<Read<Target>, AllocError>
    ensures { IfOk result
        (λ reading. reading
        ≡ and_then kind (target_of_kind (address_of labels.now) (option_map (λ v. view v.now) value.entry))) }
{
    let kind = match kind {
        Ok(kind) => kind,
        Err(fault) => return Ok(Err(fault)),
    };
    match destinations(alloc, labels, value, kind)? {
        Ok(to) => Ok(Ok(Target { kind, to })),
        Err(fault) => Ok(Err(fault)),
    }
}

fn target_in(
    alloc: Global,
    labels: &Labels,
    table: &Table,
) -> Result<Read<(u32, Target)>, AllocError>
    ensures { IfOk result (λ reading. reading ≡ target_in (address_of labels.now) (table_view table.now)) }
{
    let kind = kind_in(table);
    let target = direct(alloc, labels, value_at(table, "to"), kind)?;
    let reading = pair(address_in(labels, table, "at"), target);
    Ok(of_keys(TARGET_KEYS, table, reading))
}

impl Entry<Labels, StatementFault> for (u32, Target) {
    ghost reads = { λ labels. target_at (address_of labels) };

    fn read(
        alloc: Global,
        labels: &Labels,
        value: &Value,
    ) -> Result<Read<(u32, Target)>, AllocError> {
        match value.as_table() {
            Some(table) => target_in(alloc, labels, table),
            None => Ok(Err(StatementFault::WrongKind)),
        }
    }
}
