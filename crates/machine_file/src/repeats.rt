//! Numbers of entries that earlier entries have.

ghost use Rattle.std.specs.Prelude.{◌≡◌, ◌∷◌, ◌++◌, [], ℕ, IfOk, List, OnOk, Option, map};
ghost use Rattle.toml.specs.View.{table_view, view};
ghost use Rattle.toml_reading.specs.Lowest.{number_of_entry};
ghost use Rattle.machine_file.specs.MachinePlaceTests.{AreSeen, is_set, number_repeats, repeats, was_there};

use crate::entries::{entries_at, number_of_entry};
use crate::spots::{EntryNumber, list_key, number_key, number_list};
use std::alloc::{AllocError, Global};
use std::collections::BTreeSet;
use toml::{Table, Value};

// Adds the number, if there is one, and says whether it was there.
fn add(seen: &mut BTreeSet<u64>, number: Option<u64>) -> Result<bool, AllocError>
    ensures known { (before : List (Option ℕ)) → AreSeen before seen.old
        → IfOk result (λ known. known ≡ was_there before number) }
    ensures added { (before : List (Option ℕ)) → AreSeen before seen.old
        → OnOk result (AreSeen (before ++ number ∷ []) seen.new) }
{
    match number {
        Some(number) => {
            let is_new = seen.insert(number)?;
            Ok(!is_new)
        }
        None => Ok(false),
    }
}

// Of each number whether it is one of those before it.
fn repeats(alloc: Global, numbers: &[Option<u64>]) -> Result<Vec<bool>, AllocError>
    ensures { IfOk result (λ tests. tests.items ≡ repeats numbers.now) }
{
    let mut seen = BTreeSet::new(alloc);
    let mut tests = Vec::new(alloc);
    for number in numbers {
        let known = add(&mut seen, *number)?;
        tests.push(known)?;
    }
    Ok(tests)
}

/// The test at an index, false past the end.
pub(crate) fn is_set(tests: &[bool], index: usize) -> bool
    ensures { result ≡ is_set tests.now index }
{
    tests.get(index).copied().unwrap_or(false)
}

// The numbers at a key, of each entry the one that it has.
fn numbers_of(alloc: Global, entries: &[Value], key: &str) -> Result<Vec<Option<u64>>, AllocError>
    ensures { IfOk result
        (λ made. made.items ≡ map (λ e. number_of_entry key.now (view e)) entries.now) }
{
    let mut numbers = Vec::new(alloc);
    for entry in entries {
        numbers.push(number_of_entry(entry, key))?;
    }
    Ok(numbers)
}

/// Of each entry of the list whose tables have the number, whether an earlier one has the same.
///
/// # Errors
///
/// An allocation failed.
pub(crate) fn number_repeats(
    alloc: Global,
    table: &Table,
    number: EntryNumber,
) -> Result<Vec<bool>, AllocError>
    ensures { IfOk result (λ tests. tests.items ≡ number_repeats number (table_view table.now)) }
{
    let entries = entries_at(table, list_key(number_list(number)));
    let numbers = numbers_of(alloc, entries, number_key(number))?;
    repeats(alloc, &numbers)
}
