ghost use Rattle.std.specs.Prelude.{◌≡◌, map, option_map};
ghost use Rattle.toml.specs.View.{table_view, view};
ghost use Rattle.asm_text.specs.Registers.{register_of};
ghost use Rattle.image.specs.Labels.{address_of};
ghost use Rattle.statement.specs.Statement.{branch_at, branch_in, cycles_in, cycles_named_at, cycles_of};
ghost use Rattle.statement.specs.Statement.{first_in, last_in, multiply_at, multiply_in, pair_at};
ghost use Rattle.statement.specs.Statement.{named_taken, placed_rule, placed_stretch, register_in};
ghost use Rattle.statement.specs.Statement.{apart_at, register_named_at, rule_at, rule_in, rule_parts};
ghost use Rattle.statement.specs.Statement.{apart_of, taken_in, taken_named_at, two_values};

use crate::apart::ApartStretch;
use crate::entries::{address_at, address_in, address_or, class_in};
use crate::faults::{Read, StatementFault};
use crate::stated::{BaseRule, Taken};
use arm2_decode::Register;
use bus_ticks::{Class, SPACE_END};
use image::Labels;
use shifter::MOST_MULTIPLY_CYCLES;
use std::alloc::{AllocError, Global};
use toml::{Table, Value};
use toml_reading::{Entry, of_keys, pair, required, value_at, values_of};

/// The keys of the table of a rule for a base register.
pub const RULE_KEYS: &[&str] = &["register", "class", "first", "last"];

/// The keys of a multiply's table.
pub const MULTIPLY_KEYS: &[&str] = &["at", "cycles"];

/// The keys of a branch's table.
pub const BRANCH_KEYS: &[&str] = &["at", "taken"];

// The stretch from the first address to the last.
fn placed_stretch(ends: (u32, u32)) -> Read<ApartStretch>
    ensures { result ≡ placed_stretch ends }
{
    if ends.0 <= ends.1 {
        Ok(ApartStretch {
            first: ends.0,
            last: ends.1,
        })
    } else {
        Err(StatementFault::OutOfRange)
    }
}

fn two_values(values: &[Value]) -> Option<(&Value, &Value)>
    ensures { option_map (λ ends. (view ends.0.now, view ends.1.now)) result
        ≡ two_values (map view values.now) }
{
    match values {
        [first, last] => Some((first, last)),
        _ => None,
    }
}

/// The two values of a list of two.
pub(crate) fn pair_at(value: &Value) -> Option<(&Value, &Value)>
    ensures { option_map (λ ends. (view ends.0.now, view ends.1.now)) result ≡ pair_at (view value.now) }
{
    match values_of(value) {
        Some(values) => two_values(values),
        None => None,
    }
}

fn apart_of(labels: &Labels, first: &Value, last: &Value) -> Read<ApartStretch>
    ensures { result ≡ apart_of (address_of labels.now) (view first.now, view last.now) }
{
    pair(address_at(labels, first), address_at(labels, last)).and_then(placed_stretch)
}

fn apart_at(labels: &Labels, value: &Value) -> Read<ApartStretch>
    ensures { result ≡ apart_at (address_of labels.now) (view value.now) }
{
    match pair_at(value) {
        Some((first, last)) => apart_of(labels, first, last),
        None => Err(StatementFault::WrongKind),
    }
}

impl Entry<Labels, StatementFault> for ApartStretch {
    ghost reads = { λ labels. apart_at (address_of labels) };

    fn read(
        _alloc: Global,
        labels: &Labels,
        value: &Value,
    ) -> Result<Read<ApartStretch>, AllocError> {
        Ok(apart_at(labels, value))
    }
}

/// The register that a word names, as in a source: wholly in upper or in lower case.
pub fn named_register(word: &[u8]) -> Option<Register>
    ensures { result ≡ register_of word.now }
{
    asm_text::register_of(word)
}

fn register_named_at(value: &Value) -> Read<Register>
    ensures { result ≡ register_named_at (view value.now) }
{
    let word = value.as_str().map(str::as_bytes);
    required(word.and_then(named_register), Ok)
}

pub(crate) fn register_in(table: &Table) -> Read<Register>
    ensures { result ≡ register_in (table_view table.now) }
{
    required(value_at(table, "register"), register_named_at)
}

/// The first address of a rule's part: that of memory where nothing is said.
pub(crate) fn first_in(labels: &Labels, table: &Table) -> Read<u32>
    ensures { result ≡ first_in (address_of labels.now) (table_view table.now) }
{
    address_or(labels, table, "first", 0)
}

/// The last address of a rule's part: that of the last word of memory where nothing is said.
pub(crate) fn last_in(labels: &Labels, table: &Table) -> Read<u32>
    ensures { result ≡ last_in (address_of labels.now) (table_view table.now) }
{
    address_or(labels, table, "last", SPACE_END - 4)
}

// The rule of its register and class, and its first and last address.
fn placed_rule(parts: ((Register, Class), (u32, u32))) -> Read<BaseRule>
    ensures { result ≡ placed_rule parts }
{
    let ((register, class), (first, last)) = parts;
    if first <= last {
        Ok(BaseRule {
            register,
            first,
            last,
            class,
        })
    } else {
        Err(StatementFault::OutOfRange)
    }
}

fn rule_parts(labels: &Labels, table: &Table) -> Read<((Register, Class), (u32, u32))>
    ensures { result ≡ rule_parts (address_of labels.now) (table_view table.now) }
{
    let of_all = pair(register_in(table), class_in(table));
    let part = pair(first_in(labels, table), last_in(labels, table));
    pair(of_all, part)
}

fn rule_in(labels: &Labels, table: &Table) -> Read<BaseRule>
    ensures { result ≡ rule_in (address_of labels.now) (table_view table.now) }
{
    let reading = rule_parts(labels, table).and_then(placed_rule);
    of_keys(RULE_KEYS, table, reading)
}

impl Entry<Labels, StatementFault> for BaseRule {
    ghost reads = { λ labels. rule_at (address_of labels) };

    fn read(_alloc: Global, labels: &Labels, value: &Value) -> Result<Read<BaseRule>, AllocError> {
        Ok(required(value.as_table(), |table| rule_in(labels, table)))
    }
}

// The number, where it is from 1 to 16.
fn cycles_of(number: i64) -> Read<u32>
    ensures { result ≡ cycles_of number }
{
    match u32::try_from(number) {
        Ok(cycles) => {
            if 1 <= cycles && cycles <= MOST_MULTIPLY_CYCLES {
                Ok(cycles)
            } else {
                Err(StatementFault::OutOfRange)
            }
        }
        Err(_) => Err(StatementFault::OutOfRange),
    }
}

fn cycles_named_at(value: &Value) -> Read<u32>
    ensures { result ≡ cycles_named_at (view value.now) }
{
    required(value.as_integer(), cycles_of)
}

pub(crate) fn cycles_in(table: &Table) -> Read<u32>
    ensures { result ≡ cycles_in (table_view table.now) }
{
    required(value_at(table, "cycles"), cycles_named_at)
}

fn multiply_in(labels: &Labels, table: &Table) -> Read<(u32, u32)>
    ensures { result ≡ multiply_in (address_of labels.now) (table_view table.now) }
{
    let reading = pair(address_in(labels, table, "at"), cycles_in(table));
    of_keys(MULTIPLY_KEYS, table, reading)
}

/// The address of a multiply, and its cycles.
impl Entry<Labels, StatementFault> for (u32, u32) {
    ghost reads = { λ labels. multiply_at (address_of labels) };

    fn read(
        _alloc: Global,
        labels: &Labels,
        value: &Value,
    ) -> Result<Read<(u32, u32)>, AllocError> {
        Ok(required(value.as_table(), |table| { multiply_in(labels, table) }))
    }
}

/// Which way a word names, of words that have a condition.
pub fn named_taken(word: &[u8]) -> Option<Taken>
    ensures { result ≡ named_taken word.now }
{
    if word == b"always".as_slice() {
        return Some(Taken::Always);
    }
    if word == b"never".as_slice() {
        return Some(Taken::Never);
    }
    None
}

fn taken_named_at(value: &Value) -> Read<Taken>
    ensures { result ≡ taken_named_at (view value.now) }
{
    let word = value.as_str().map(str::as_bytes);
    required(word.and_then(named_taken), Ok)
}

pub(crate) fn taken_in(table: &Table) -> Read<Taken>
    ensures { result ≡ taken_in (table_view table.now) }
{
    required(value_at(table, "taken"), taken_named_at)
}

fn branch_in(labels: &Labels, table: &Table) -> Read<(u32, Taken)>
    ensures { result ≡ branch_in (address_of labels.now) (table_view table.now) }
{
    let reading = pair(address_in(labels, table, "at"), taken_in(table));
    of_keys(BRANCH_KEYS, table, reading)
}

impl Entry<Labels, StatementFault> for (u32, Taken) {
    ghost reads = { λ labels. branch_at (address_of labels) };

    fn read(
        _alloc: Global,
        labels: &Labels,
        value: &Value,
    ) -> Result<Read<(u32, Taken)>, AllocError> {
        Ok(required(value.as_table(), |table| branch_in(labels, table)))
    }
}
