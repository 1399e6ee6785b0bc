ghost use Rattle.std.specs.Prelude.{◌≡◌, ◌∷◌, ◌++◌, [], ℕ, IfOk, List, OnOk, Option, Some, map, option_map};
ghost use Rattle.std.specs.List.{slice_get};
ghost use Rattle.std.specs.Option.{option_copied};
ghost use Rattle.toml.specs.View.{table_view, view};
ghost use Rattle.image.specs.Labels.{address_of};
ghost use Rattle.statement.specs.PlaceTests.{AreSeen, address_of_entry, address_of_table, address_of_value};
ghost use Rattle.statement.specs.PlaceTests.{destination_repeats, destinations_of, entry_repeats, is_covered};
ghost use Rattle.statement.specs.PlaceTests.{is_set, meetings, repeats, rule_meetings, stretch_of};
ghost use Rattle.statement.specs.PlaceTests.{stretch_of_entry, stretch_of_table, was_met, was_there};
ghost use Rattle.statement.specs.Stretches.{AreDisjoint, AreOf};
ghost use Rattle.statement.specs.declared.stretches.Stretch.{Stretch};

use crate::entries::{address_at, address_in};
use crate::facts::{first_in, last_in, register_in};
use crate::faults::Read;
use crate::parts::entries_at;
use crate::stretches::{Stretch, Stretches, cover};
use arm2_decode::Register;
use image::Labels;
use std::alloc::{AllocError, Global};
use std::collections::{BTreeMap, BTreeSet};
use toml::{Table, Value};

// Adds the number, if there is one, and says whether it was there.
fn add(seen: &mut BTreeSet<u32>, number: Option<u32>) -> Result<bool, AllocError>
    ensures known { (before : List (Option ℕ)) → AreSeen before seen.old
        → IfOk result (λ known. known ≡ was_there before number) }
    ensures added { (before : List (Option ℕ)) → AreSeen before seen.old
        → OnOk result (AreSeen (before ++ number ∷ []) seen.new) }
{
    match number {
        Some(number) => {
            let is_new = seen.insert(number)?;
            Ok(!is_new)
        }
        None => Ok(false),
    }
}

// Of each number whether it is one of those before it.
fn repeats(alloc: Global, numbers: &[Option<u32>]) -> Result<Vec<bool>, AllocError>
    ensures { IfOk result (λ tests. tests.items ≡ repeats numbers.now) }
{
    let mut seen = BTreeSet::new(alloc);
    let mut tests = Vec::new(alloc);
    for number in numbers {
        let known = add(&mut seen, *number)?;
        tests.push(known)?;
    }
    Ok(tests)
}

/// The test at an index, false past the end.
pub(crate) fn is_set(tests: &[bool], index: usize) -> bool
    ensures { result ≡ is_set tests.now index }
{
    tests.get(index).copied().unwrap_or(false)
}

/// The tests at an index.
pub(crate) fn tests_at(rows: &[Vec<bool>], index: usize) -> Option<&Vec<bool>>
    ensures { option_copied result ≡ slice_get rows.now index }
{
    rows.get(index)
}

fn address_of_table(labels: &Labels, table: &Table) -> Option<u32>
    ensures { result ≡ address_of_table (address_of labels.now) (table_view table.now) }
{
    address_in(labels, table, "at").ok()
}

// The address of the word that a target, an access, a multiply or a branch is for.
fn address_of_entry(labels: &Labels, entry: &Value) -> Option<u32>
    ensures { result ≡ address_of_entry (address_of labels.now) (view entry.now) }
{
    match entry.as_table() {
        Some(table) => address_of_table(labels, table),
        None => None,
    }
}

fn address_of_value(labels: &Labels, value: &Value) -> Option<u32>
    ensures { result ≡ address_of_value (address_of labels.now) (view value.now) }
{
    address_at(labels, value).ok()
}

fn addresses_of_entries(
    alloc: Global,
    labels: &Labels,
    entries: &[Value],
) -> Result<Vec<Option<u32>>, AllocError>
    ensures { IfOk result
        (λ made. made.items ≡ map (λ e. address_of_entry (address_of labels.now) (view e)) entries.now) }
{
    let mut addresses = Vec::new(alloc);
    for entry in entries {
        addresses.push(address_of_entry(labels, entry))?;
    }
    Ok(addresses)
}

fn addresses_of_values(
    alloc: Global,
    labels: &Labels,
    values: &[Value],
) -> Result<Vec<Option<u32>>, AllocError>
    ensures { IfOk result
        (λ made. made.items ≡ map (λ v. address_of_value (address_of labels.now) (view v)) values.now) }
{
    let mut addresses = Vec::new(alloc);
    for value in values {
        addresses.push(address_of_value(labels, value))?;
    }
    Ok(addresses)
}

/// Of each entry whether an earlier one is of its address.
///
/// # Errors
///
/// An allocation failed.
pub(crate) fn entry_repeats(
    alloc: Global,
    labels: &Labels,
    entries: &[Value],
) -> Result<Vec<bool>, AllocError>
    ensures { IfOk result
        (λ tests. tests.items ≡ entry_repeats (address_of labels.now) (map view entries.now)) }
{
    let addresses = addresses_of_entries(alloc, labels, entries)?;
    repeats(alloc, &addresses)
}

// The values of `to`.
fn destinations_of<'a>(table: Option<&'a Table>) -> &'a [Value]
    ensures { map view result.now ≡ destinations_of (option_map (λ t. table_view t.now) table.entry) }
{
    match table {
        Some(table) => entries_at(table, "to"),
        None => &[],
    }
}

// Of each destination of a target whether an earlier one is of its address.
fn destination_repeats(
    alloc: Global,
    labels: &Labels,
    target: &Value,
) -> Result<Vec<bool>, AllocError>
    ensures { IfOk result
        (λ tests. tests.items ≡ destination_repeats (address_of labels.now) (view target.now)) }
{
    let addresses = addresses_of_values(alloc, labels, destinations_of(target.as_table()))?;
    repeats(alloc, &addresses)
}

/// The same of each target.
///
/// # Errors
///
/// An allocation failed.
pub(crate) fn all_destination_repeats(
    alloc: Global,
    labels: &Labels,
    targets: &[Value],
) -> Result<Vec<Vec<bool>>, AllocError>
    ensures { IfOk result
        (λ tests. map (λ v. v.items) tests.items
        ≡ map (λ t. destination_repeats (address_of labels.now) (view t)) targets.now) }
{
    let mut tests = Vec::new(alloc);
    for target in targets {
        let of_target = destination_repeats(alloc, labels, target)?;
        tests.push(of_target)?;
    }
    Ok(tests)
}

// The stretch of a rule whose register and part are known.
fn stretch_of(base: Read<Register>, first: Read<u32>, last: Read<u32>) -> Option<Stretch>
    ensures { result ≡ stretch_of base first last }
{
    let Ok(base) = base else {
        return None;
    };
    let Ok(first) = first else {
        return None;
    };
    match last {
        Ok(last) => Some(Stretch { base, first, last }),
        Err(_) => None,
    }
}

fn stretch_of_table(labels: &Labels, table: &Table) -> Option<Stretch>
    ensures { result ≡ stretch_of_table (address_of labels.now) (table_view table.now) }
{
    let first = first_in(labels, table);
    stretch_of(register_in(table), first, last_in(labels, table))
}

// The stretch that a rule is for.
fn stretch_of_entry(labels: &Labels, entry: &Value) -> Option<Stretch>
    ensures { result ≡ stretch_of_entry (address_of labels.now) (view entry.now) }
{
    match entry.as_table() {
        Some(table) => stretch_of_table(labels, table),
        None => None,
    }
}

fn stretches_of_entries(
    alloc: Global,
    labels: &Labels,
    entries: &[Value],
) -> Result<Vec<Option<Stretch>>, AllocError>
    ensures { IfOk result
        (λ made. made.items ≡ map (λ e. stretch_of_entry (address_of labels.now) (view e)) entries.now) }
{
    let mut stretches = Vec::new(alloc);
    for entry in entries {
        stretches.push(stretch_of_entry(labels, entry))?;
    }
    Ok(stretches)
}

// Adds the addresses of the stretch, if there is one, and says whether one of them was there.
fn meet(covered: &mut Stretches<()>, stretch: Option<Stretch>) -> Result<bool, AllocError>
    requires { AreDisjoint covered.old }
    ensures known { (before : List (Option Stretch)) → AreOf covered.old (is_covered before)
        → IfOk result (λ known. known ≡ was_met before stretch) }
    ensures added { (before : List (Option Stretch)) → AreOf covered.old (is_covered before)
        → OnOk result (AreOf covered.new (is_covered (before ++ stretch ∷ []))) }
{
    match stretch {
        Some(stretch) => {
            if stretch.first <= stretch.last {
                cover(covered, stretch)
            } else {
                Ok(false)
            }
        }
        None => Ok(false),
    }
}

// Of each stretch whether it shares an address with one of those before it.
fn meetings(alloc: Global, stretches: &[Option<Stretch>]) -> Result<Vec<bool>, AllocError>
    ensures { IfOk result (λ tests. tests.items ≡ meetings stretches.now) }
{
    let mut covered = BTreeMap::new(alloc);
    let mut tests = Vec::new(alloc);
    for stretch in stretches {
        let known = meet(&mut covered, *stretch)?;
        tests.push(known)?;
    }
    Ok(tests)
}

/// Of each rule whether an earlier one for its register shares an address with it.
///
/// # Errors
///
/// An allocation failed.
pub(crate) fn rule_meetings(
    alloc: Global,
    labels: &Labels,
    entries: &[Value],
) -> Result<Vec<bool>, AllocError>
    ensures { IfOk result
        (λ tests. tests.items ≡ rule_meetings (address_of labels.now) (map view entries.now)) }
{
    let stretches = stretches_of_entries(alloc, labels, entries)?;
    meetings(alloc, &stretches)
}
