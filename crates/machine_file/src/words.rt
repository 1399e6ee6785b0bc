ghost use Rattle.std.specs.Prelude.{◌≡◌, All, IfOk, IsTrue};
ghost use Rattle.std.specs.Map.{keys_of};
ghost use Rattle.toml.specs.View.{table_view, view};
ghost use Rattle.image.specs.Image.{may_hold};
ghost use Rattle.toml_reading.specs.Documents.{are_distinct, once};
ghost use Rattle.machine_file.specs.MachineFile.{put_address_at, put_address_in, put_address_of};
ghost use Rattle.machine_file.specs.MachineFile.{put_word_at, put_word_in, put_words_in};

use crate::machine_faults::{MachineFileFault, Read};
use image::may_hold;
use std::alloc::{AllocError, Global};
use std::marker::Model;
use toml::{Table, Value};
use toml_reading::{Entry, are_all_distinct, number_in, of_keys, pair, required, tables, value_at};

/// The keys of the table of a word that is put into memory.
pub(crate) const WORD_KEYS: &[&str] = &["at", "value"];

pub(crate) fn put_address_of(number: i64) -> Read<u32>
    ensures { result ≡ put_address_of number }
{
    match u32::try_from(number) {
        Ok(address) if may_hold(address) => Ok(address),
        _ => Err(MachineFileFault::OutOfRange),
    }
}

fn put_address_at(value: &Value) -> Read<u32>
    ensures { result ≡ put_address_at (view value.now) }
{
    required(value.as_integer(), put_address_of)
}

fn put_address_in(table: &Table) -> Read<u32>
    ensures { result ≡ put_address_in (table_view table.now) }
{
    required(value_at(table, "at"), put_address_at)
}

fn put_word_in(table: &Table) -> Read<(u32, u32)>
    ensures { result ≡ put_word_in (table_view table.now) }
{
    let word = pair(put_address_in(table), number_in(table, "value", u32::MAX));
    of_keys(WORD_KEYS, table, word)
}

impl Entry<(), MachineFileFault> for (u32, u32) {
    ghost reads = { λ _. put_word_at };

    fn read(_alloc: Global, _context: &(), value: &Value) -> Result<Read<(u32, u32)>, AllocError> {
        Ok(required(value.as_table(), put_word_in))
    }
}

/// Words by their addresses, none of them in I/O and no two at one.
#[derive(Drop)]
pub(crate) struct PutWords {
    pub(crate) words: Vec<(u32, u32)>,
}

impl Model for PutWords {
    ghost use Rattle.std.specs.Prelude.{◌≡◌, true, ℕ, List, All, IsTrue};
    ghost use Rattle.std.specs.Map.{keys_of};
    ghost use Rattle.image.specs.Image.{may_hold};
    ghost use Rattle.toml_reading.specs.Documents.{are_distinct};

    ghost Value = { List (ℕ × ℕ) };

    ghost view = { λ w. w.words.items };

    ghost invariant = { λ w. (All (λ e. IsTrue (may_hold e.0)) w.words.items)
        × (are_distinct (keys_of w.words.items) ≡ true) };
}

/// Whether no address is in the list twice.
pub(crate) fn have_own_addresses(alloc: Global, words: &[(u32, u32)]) -> Result<bool, AllocError>
    ensures { IfOk result (λ test. test ≡ are_distinct (keys_of words.now)) }
{
    let addresses: Vec<u32> = words.iter().map(|word| word.0).collect(alloc)?;
    are_all_distinct(alloc, &addresses)
}

fn each_once(alloc: Global, words: Vec<(u32, u32)>) -> Result<Read<PutWords>, AllocError>
    requires { All (λ e. IsTrue (may_hold e.0)) words.items }
    ensures { IfOk result (λ reading. reading ≡ once MachineFileFault.Twice keys_of words.items) }
{
    if !have_own_addresses(alloc, &words)? {
        return Ok(Err(MachineFileFault::Twice));
    }
    Ok(Ok(PutWords { words }))
}

/// The words that the file's table states.
pub(crate) fn put_words_in(alloc: Global, table: &Table) -> Result<Read<PutWords>, AllocError>
    ensures { IfOk result (λ reading. reading ≡ put_words_in (table_view table.now)) }
{
    match tables(alloc, &(), value_at(table, "word"))? {
        Ok(words) => each_once(alloc, words),
        Err(fault) => Ok(Err(fault)),
    }
}
