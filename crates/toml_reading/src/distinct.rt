ghost use Rattle.std.specs.Prelude.{◌≡◌, true, false, IfOk, None, Some, MatchOption};
ghost use Rattle.std.specs.Map.{keys_of};
ghost use Rattle.toml_reading.specs.Documents.{are_distinct};

use indexmap::{IndexMap, IndexSet};
use std::alloc::{AllocError, Global};

/// Whether no number is in the list twice.
///
/// # Errors
///
/// An allocation failed.
pub fn are_all_distinct(alloc: Global, numbers: &[u32]) -> Result<bool, AllocError>
    ensures { IfOk result (λ test. test ≡ are_distinct numbers.now) }
{
    let mut seen = IndexSet::new(alloc);
    for number in numbers {
        let is_new = seen.insert(*number)?;
        if !is_new {
            return Ok(false);
        }
    }
    Ok(true)
}

/// The entries by their numbers, in their order, or None where a number comes twice.
///
/// # Errors
///
/// An allocation failed.
pub fn by_number<T: Drop>(
    alloc: Global,
    entries: Vec<(u32, T)>,
) -> Result<Option<IndexMap<u32, T>>, AllocError>
    ensures { IfOk result
        (λ made. MatchOption made (are_distinct (keys_of entries.items) ≡ false)
        (λ by. (by.entries ≡ entries.items) × (are_distinct (keys_of entries.items) ≡ true))) }
{
    let mut by = IndexMap::new(alloc);
    for (number, value) in entries {
        let old = by.insert(number, value)?;
        if old.is_some() {
            return Ok(None);
        }
    }
    Ok(Some(by))
}
