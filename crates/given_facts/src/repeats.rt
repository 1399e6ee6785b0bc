ghost use Rattle.std.specs.Prelude.{◌≡◌, ◌∷◌, ◌++◌, [], ℕ, IfOk, List, OnOk, Option};
ghost use Rattle.machine_file.specs.MachinePlaceTests.{AreSeen, is_set, repeats, was_there};

use std::alloc::{AllocError, Global};
use std::collections::BTreeSet;

// Adds the number, if there is one, and says whether it was there.
fn add(seen: &mut BTreeSet<u64>, number: Option<u64>) -> Result<bool, AllocError>
    ensures known { (before : List (Option ℕ)) → AreSeen before seen.old
        → IfOk result (λ known. known ≡ was_there before number) }
    ensures added { (before : List (Option ℕ)) → AreSeen before seen.old
        → OnOk result (AreSeen (before ++ number ∷ []) seen.new) }
{
    match number {
        Some(number) => {
            let is_new = seen.insert(number)?;
            Ok(!is_new)
        }
        None => Ok(false),
    }
}

/// Of each number whether it is one of those before it.
pub(crate) fn repeats(alloc: Global, numbers: &[Option<u64>]) -> Result<Vec<bool>, AllocError>
    ensures { IfOk result (λ tests. tests.items ≡ repeats numbers.now) }
{
    let mut seen = BTreeSet::new(alloc);
    let mut tests = Vec::new(alloc);
    for number in numbers {
        let known = add(&mut seen, *number)?;
        tests.push(known)?;
    }
    Ok(tests)
}

/// The test at an index, false past the end.
pub(crate) fn is_set(tests: &[bool], index: usize) -> bool
    ensures { result ≡ is_set tests.now index }
{
    tests.get(index).copied().unwrap_or(false)
}
