//! Sets of the numbers of parts, by keys.

ghost use Rattle.std.specs.Prelude.{◌≡◌, ◌&&◌, ◌||◌, ◌==◌, if◌then◌else◌, ℕ, [], OnOk};
ghost use Rattle.std.specs.BTreeSet.{contains};
ghost use Rattle.std.specs.Ordering.{nat_cmp};
ghost use Rattle.text_explained.specs.PartSums.{in_group};

use std::alloc::{AllocError, Global};
use std::collections::{BTreeMap, BTreeSet};

/// The numbers of parts that stand under keys.
#[derive(Drop)]
pub(crate) struct PartGroups {
    by_key: BTreeMap<u64, BTreeSet<usize>>,
}

// Adds the numbers of another set.
fn insert_all(parts: &mut BTreeSet<usize>, more: &BTreeSet<usize>) -> Result<(), AllocError>
    ensures { OnOk result
        ((n : ℕ) → contains nat_cmp parts.new n
        ≡ (contains nat_cmp parts.old n || contains nat_cmp more.now n)) }
{
    for number in more {
        parts.insert(*number)?;
    }
    Ok(())
}

/// Adds a number if it counts. `AllocError`: an allocation failed.
pub(crate) fn insert_if(
    parts: &mut BTreeSet<usize>,
    number: usize,
    counts: bool,
) -> Result<(), AllocError>
    ensures { OnOk result
        ((n : ℕ) → contains nat_cmp parts.new n ≡ (contains nat_cmp parts.old n || (n == number && counts))) }
{
    if counts {
        parts.insert(number)?;
    }
    Ok(())
}

impl PartGroups {
    pub(crate) fn new(alloc: Global) -> PartGroups
        ensures { result.by_key.entries ≡ [] }
    {
        PartGroups {
            by_key: BTreeMap::new(alloc),
        }
    }

    // Takes out the parts that stand under the key.
    fn take(&mut self, alloc: Global, key: u64) -> BTreeSet<usize>
        ensures { (k n : ℕ) → (if k == key then contains nat_cmp result n else in_group self.new.by_key k n)
            ≡ in_group self.old.by_key k n }
    {
        match self.by_key.remove(&key) {
            Some(parts) => parts,
            None => BTreeSet::new(alloc),
        }
    }

    /// Puts a part under a key. `AllocError`: an allocation failed.
    pub(crate) fn note(&mut self, alloc: Global, key: u64, number: usize) -> Result<(), AllocError>
        ensures { OnOk result
            ((k n : ℕ) → in_group self.new.by_key k n
            ≡ (in_group self.old.by_key k n || (k == key && n == number))) }
    {
        let mut parts = self.take(alloc, key);
        parts.insert(number)?;
        self.by_key.insert(key, parts)?;
        Ok(())
    }

    /// Adds the parts that stand under the key. `AllocError`: an allocation failed.
    pub(crate) fn add_to(&self, parts: &mut BTreeSet<usize>, key: u64) -> Result<(), AllocError>
        ensures { OnOk result
            ((n : ℕ) → contains nat_cmp parts.new n
            ≡ (contains nat_cmp parts.old n || in_group self.now.by_key key n)) }
    {
        match self.by_key.get(&key) {
            Some(more) => insert_all(parts, more),
            None => Ok(()),
        }
    }
}
