ghost use Rattle.std.specs.Prelude.{◌≡◌, ◌≢◌, Err, IfOk, map};
ghost use Rattle.toml.specs.View.{table_view, view};
ghost use Rattle.toml_reading.specs.Documents.{are_distinct, once};
ghost use Rattle.toml_reading.specs.Readings.{items_in};
ghost use Rattle.given_facts.specs.GivenFile.{IsFactsFile, ends_in, fact_at, fact_in, fact_keys, facts_in};
ghost use Rattle.given_facts.specs.GivenFile.{has_key, is_range, listed_facts, named_register, numbers};
ghost use Rattle.given_facts.specs.GivenFile.{ordered, range_in, register_at, register_in, unless_pc};
ghost use Rattle.given_facts.specs.GivenFile.{value_in, word_in};

use crate::faults::{GivenFault, Read};
use arm2_decode::Register;
use known_words::Given;
use std::alloc::{AllocError, Global};
use toml::{Table, Value};
use toml_reading::{
    Entry, are_all_distinct, document, number_in, of_keys, pair, required, tables, value_at,
};

/// The keys of a file of facts.
pub(crate) const FILE_KEYS: &[&str] = &["given"];

// The keys of a fact of one word.
const VALUE_KEYS: &[&str] = &["register", "value"];

// Those of a range.
const RANGE_KEYS: &[&str] = &["register", "from", "to"];

fn has_key(table: &Table, key: &str) -> bool
    ensures { result ≡ has_key key.now (table_view table.now) }
{
    value_at(table, key).is_some()
}

// Whether the fact states a range, and not one value.
fn is_range(table: &Table) -> bool
    ensures { result ≡ is_range (table_view table.now) }
{
    has_key(table, "from") || has_key(table, "to")
}

/// The keys that a fact may have, all of which it has to have.
pub(crate) fn fact_keys(table: &Table) -> &'static [&'static str]
    ensures { map (λ k. k.now) result.now ≡ fact_keys (table_view table.now) }
{
    if is_range(table) {
        return RANGE_KEYS;
    }
    VALUE_KEYS
}

fn unless_pc(register: Register) -> Option<Register>
    ensures { result ≡ unless_pc register }
{
    if register.is_pc() {
        return None;
    }
    Some(register)
}

/// The register from R0 to R14 that a word names, as in a source: wholly in upper or in lower case.
pub(crate) fn named_register(word: &[u8]) -> Option<Register>
    ensures { result ≡ named_register word.now }
{
    asm_text::register_of(word).and_then(unless_pc)
}

fn register_at(value: &Value) -> Read<Register>
    ensures { result ≡ register_at (view value.now) }
{
    let word = value.as_str().map(str::as_bytes);
    required(word.and_then(named_register), Ok)
}

fn register_in(table: &Table) -> Read<Register>
    ensures { result ≡ register_in (table_view table.now) }
{
    required(value_at(table, "register"), register_at)
}

pub(crate) fn word_in(table: &Table, key: &str) -> Read<u32>
    ensures { result ≡ word_in key.now (table_view table.now) }
{
    number_in(table, key, u32::MAX)
}

fn ordered(ends: (u32, u32)) -> Read<(u32, u32)>
    ensures { result ≡ ordered ends }
{
    if ends.0 <= ends.1 {
        return Ok(ends);
    }
    Err(GivenFault::OutOfRange)
}

fn range_in(table: &Table) -> Read<(u32, u32)>
    ensures { result ≡ range_in (table_view table.now) }
{
    pair(word_in(table, "from"), word_in(table, "to")).and_then(ordered)
}

fn value_in(table: &Table) -> Read<(u32, u32)>
    ensures { result ≡ value_in (table_view table.now) }
{
    word_in(table, "value").map(|word| (word, word))
}

// The least and the greatest word.
fn ends_in(table: &Table) -> Read<(u32, u32)>
    ensures { result ≡ ends_in (table_view table.now) }
{
    if is_range(table) {
        return range_in(table);
    }
    value_in(table)
}

fn fact_in(table: &Table) -> Read<Given>
    ensures { result ≡ fact_in (table_view table.now) }
{
    let fact = pair(register_in(table), ends_in(table)).map(|(register, (low, high))| Given {
        register,
        low,
        high,
    });
    of_keys(fact_keys(table), table, fact)
}

impl Entry<(), GivenFault> for Given {
    ghost reads = { λ _. fact_at };

    fn read(_alloc: Global, _context: &(), value: &Value) -> Result<Read<Given>, AllocError> {
        Ok(required(value.as_table(), fact_in))
    }
}

// Whether no register has two facts.
fn have_own_registers(alloc: Global, facts: &[Given]) -> Result<bool, AllocError>
    ensures { IfOk result (λ test. test ≡ are_distinct (numbers facts.now)) }
{
    let numbers: Vec<u32> = facts
        .iter()
        .map(|fact| fact.register.number())
        .collect(alloc)?;
    are_all_distinct(alloc, &numbers)
}

fn each_once(alloc: Global, facts: Vec<Given>) -> Result<Read<Vec<Given>>, AllocError>
    ensures { IfOk result (λ reading. items_in reading ≡ once GivenFault.Twice numbers facts.items) }
{
    if !have_own_registers(alloc, &facts)? {
        return Ok(Err(GivenFault::Twice));
    }
    Ok(Ok(facts))
}

fn listed_facts(alloc: Global, table: &Table) -> Result<Read<Vec<Given>>, AllocError>
    ensures { IfOk result (λ reading. items_in reading ≡ listed_facts (table_view table.now)) }
{
    match tables(alloc, &(), value_at(table, "given"))? {
        Ok(facts) => each_once(alloc, facts),
        Err(fault) => Ok(Err(fault)),
    }
}

fn facts_in(alloc: Global, table: &Table) -> Result<Read<Vec<Given>>, AllocError>
    ensures { IfOk result (λ reading. items_in reading ≡ facts_in (table_view table.now)) }
{
    let facts = listed_facts(alloc, table)?;
    Ok(of_keys(FILE_KEYS, table, facts))
}

/// The facts that a file states, in the order of the text: each is a table `[[given]]` with a `register`, and
/// its word as `value`, or the least and the greatest as `from` and `to`.
///
/// # Errors
///
/// Of several faults over the whole text the first is answered, in the order of [`GivenFault`]; `Memory` only
/// where an allocation failed.
pub fn read_facts(alloc: Global, text: &[u8]) -> Result<Vec<Given>, GivenFault>
    ensures answer { result ≢ Err GivenFault.Memory → IsFactsFile text.now (items_in result) }
{
    match document(alloc, text)? {
        Some(table) => facts_in(alloc, &table)?,
        None => Err(GivenFault::NotToml),
    }
}
