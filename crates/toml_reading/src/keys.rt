ghost use Rattle.std.specs.Prelude.{◌≡◌, map, option_map, string_bytes};
ghost use Rattle.std.specs.List.{list_all};
ghost use Rattle.std.specs.BTreeMap.{keys};
ghost use Rattle.toml.specs.Data.{get_member};
ghost use Rattle.toml.specs.View.{table_view, view};
ghost use Rattle.toml_reading.specs.Documents.{has_only_keys, is_one_of, of_keys};

use crate::readings::{Fault, Reading, check};
use toml::{Table, Value};

/// Whether the word is one of those.
pub fn is_one_of(words: &[&str], word: &[u8]) -> bool
    ensures { result ≡ is_one_of (map (λ w. w.now) words.now) word.now }
{
    for known in words {
        if known.as_bytes() == word {
            return true;
        }
    }
    false
}

fn are_known(known: &[&str], table: &Table) -> bool
    ensures { result
        ≡ list_all (λ k. is_one_of (map (λ n. n.now) known.now) (string_bytes k)) (keys table.now) }
{
    table.keys().all(|key| is_one_of(known, key.as_bytes()))
}

fn has_only_keys(known: &[&str], table: &Table) -> bool
    ensures { result ≡ has_only_keys (map (λ k. k.now) known.now) (table_view table.now) }
{
    are_known(known, table)
}

/// A table's reading, where it has no other keys than those.
pub fn of_keys<T: Drop, F: Fault>(
    known: &[&str],
    table: &Table,
    reading: Reading<T, F>,
) -> Reading<T, F>
    ensures { result
        ≡ of_keys F.faults (map (λ k. k.now) known.now) (table_view table.now) reading }
{
    check(has_only_keys(known, table), F::unknown_key(), reading)
}

/// The value at a key.
pub fn value_at<'a>(table: &'a Table, key: &str) -> Option<&'a Value>
    ensures { option_map (λ v. view v.now) result ≡ get_member key.now (table_view table.now) }
{
    table.get(key)
}
