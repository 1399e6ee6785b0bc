//! Words by ascending addresses in two parts, those below a place and those above it.
ghost use Rattle.std.specs.Prelude.{◌≡◌, ◌∷◌, ◌++◌, ◌-◌, ◌<◌, ◌≤◌, [], MatchOption, OnOk, length, take, drop};
ghost use Rattle.std.specs.Prelude.{nat_lt, slice_get};
ghost use Rattle.std.specs.List.{AllByRecursion, list_all};
ghost use Rattle.std.specs.Option.{option_to_list};
ghost use Rattle.image.specs.Image.{word_of};
ghost use Rattle.image.specs.Inside.{Ascends};

use std::alloc::AllocError;
use std::collections::VecDeque;

/// An address and its word.
pub(crate) type Entry = (u32, u32);

/// The last word.
pub(crate) fn last(words: &[Entry]) -> Option<Entry>
    ensures { result ≡ slice_get words.now (length words.now - 1) }
{
    words.last().copied()
}

/// The first word.
pub(crate) fn first(words: &VecDeque<Entry>) -> Option<Entry>
    ensures { result ≡ slice_get words.now.items 0 }
{
    words.front().copied()
}

/// The word of an entry, if that is the address's.
pub(crate) fn word_if(entry: Option<Entry>, address: u32) -> Option<u32>
    ensures { result ≡ word_of (option_to_list entry) address }
{
    let (at, word) = entry?;
    if at == address { Some(word) } else { None }
}

/// Whether an entry, if there is one, is below the address.
pub(crate) fn is_below(entry: Option<Entry>, address: u32) -> bool
    ensures { result ≡ list_all (λ e. nat_lt e.0 address) (option_to_list entry) }
{
    match entry {
        Some((at, _)) => at < address,
        None => true,
    }
}

/// Whether an entry, if there is one, is above the address.
pub(crate) fn is_above(entry: Option<Entry>, address: u32) -> bool
    ensures { result ≡ list_all (λ e. nat_lt address e.0) (option_to_list entry) }
{
    match entry {
        Some((at, _)) => address < at,
        None => true,
    }
}

/// The n-th word, counted from 0.
pub(crate) fn nth_below(words: &[Entry], n: usize) -> Option<Entry>
    ensures { result ≡ slice_get words.now n }
{
    words.get(n).copied()
}

/// The n-th word, counted from 0.
pub(crate) fn nth_above(words: &VecDeque<Entry>, n: usize) -> Option<Entry>
    ensures { result ≡ slice_get words.now.items n }
{
    words.get(n).copied()
}

/// The word at an address.
pub(crate) fn word_below(words: &[Entry], address: u32) -> Option<u32>
    requires { Ascends words.now }
    ensures { result ≡ word_of words.now address }
{
    let at = words.partition_point(|entry| entry.0 < address);
    word_if(nth_below(words, at), address)
}

/// The word at an address.
pub(crate) fn word_above(words: &VecDeque<Entry>, address: u32) -> Option<u32>
    requires { Ascends words.now.items }
    ensures { result ≡ word_of words.now.items address }
{
    let at = words.partition_point(|entry| entry.0 < address);
    word_if(nth_above(words, at), address)
}

// The last word, unless it is below the address.
fn last_from(words: &[Entry], address: u32) -> Option<Entry>
    requires { Ascends words.now }
    ensures { MatchOption result (AllByRecursion (λ e. e.0 < address) words.now)
        (λ e. words.now ≡ take (length words.now - 1) words.now ++ e ∷ []) }
{
    let last = last(words);
    if is_below(last, address) { None } else { last }
}

// The first word, if it is below the address.
fn first_below(words: &VecDeque<Entry>, address: u32) -> Option<Entry>
    requires { Ascends words.now.items }
    ensures { MatchOption result (AllByRecursion (λ e. address ≤ e.0) words.now.items)
        (λ e. (words.now.items ≡ e ∷ drop 1 words.now.items) × (e.0 < address)) }
{
    let Some(entry) = first(words) else {
        return None;
    };
    if entry.0 < address { Some(entry) } else { None }
}

/// Moves words up until those from an address on are above.
pub(crate) fn move_up(
    below: &mut Vec<Entry>,
    above: &mut VecDeque<Entry>,
    address: u32,
) -> Result<(), AllocError>
    requires { Ascends (below.old.items ++ above.old.items) }
    ensures same { below.new.items ++ above.new.items ≡ below.old.items ++ above.old.items }
    ensures below { OnOk result (AllByRecursion (λ e. e.0 < address) below.new.items) }
{
    while let Some(entry) = last_from(below, address) {
        above.push_front(entry)?;
        below.pop();
    }
    Ok(())
}

/// Moves words down until those below an address are below.
pub(crate) fn move_down(
    below: &mut Vec<Entry>,
    above: &mut VecDeque<Entry>,
    address: u32,
) -> Result<(), AllocError>
    requires ascends { Ascends (below.old.items ++ above.old.items) }
    requires below { AllByRecursion (λ e. e.0 < address) below.old.items }
    ensures same { below.new.items ++ above.new.items ≡ below.old.items ++ above.old.items }
    ensures below { OnOk result (AllByRecursion (λ e. e.0 < address) below.new.items) }
    ensures above { OnOk result (AllByRecursion (λ e. address ≤ e.0) above.new.items) }
{
    while let Some(entry) = first_below(above, address) {
        below.push(entry)?;
        above.pop_front();
    }
    Ok(())
}
