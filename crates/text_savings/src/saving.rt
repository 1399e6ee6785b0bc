ghost use Rattle.std.specs.Prelude.{◌≡◌, ◌++◌, IfOk, OnOk};
ghost use Rattle.longest_walk.specs.Folded.{unfolded};
ghost use Rattle.text_savings.specs.Carried.{times_in};
ghost use Rattle.asm_text.specs.Appended.{Appends};
ghost use Rattle.text_rows.specs.Rows.{AreRows};
ghost use Rattle.text_savings.specs.Savings.{AreFound, AreSavings, IsWordGain, IsWordSaved, saved};
ghost use Rattle.text_savings.specs.Savings.{together};

use crate::carried::{times_carried_out, times_in};
use crate::gains::{Gain, Refinement, leave_gain, operation_gain};
use arm2_decode::decode;
use bus_ticks::Profile;
use statement::Statement;
use std::alloc::{AllocError, Global};
use std::cmp::Reverse;
use std::collections::BTreeMap;
use text_explained::CountedWalk;
use walk_counts::capped_sum;

/// Whose price would be less.
#[derive(Clone, Copy)]
pub(crate) enum Subject {
    /// That of the word at an address: the address, and the word.
    Word(u32, u32),
    /// That of the way out of the handler.
    Leave,
}

/// What a greatest walk would cost less by a better entry of a statement, or a better multiplier.
#[derive(Clone, Copy)]
pub(crate) struct Saving {
    pub(crate) subject: Subject,
    pub(crate) refinement: Refinement,
    /// In all, capped at 2^64 - 1.
    pub(crate) ticks: u64,
}

// What the prices of words take for granted, and how often the words are carried out, by their addresses.
#[derive(Clone, Copy)]
struct Carried<'a> {
    statement: &'a Statement,
    profile: &'a Profile,
    times: &'a BTreeMap<u32, u64>,
}

// Adds what is saved by what is gained so many times, if that is not 0.
fn push_saved(
    found: &mut Vec<Saving>,
    subject: Subject,
    times: u64,
    gain: Option<Gain>,
) -> Result<(), AllocError>
    ensures { OnOk result (found.new.items ≡ found.old.items ++ saved subject times gain) }
{
    let Some(gain) = gain else {
        return Ok(());
    };
    let ticks = times.saturating_mul(u64::from(gain.ticks));
    if ticks == 0 {
        return Ok(());
    }
    found.push(Saving {
        subject,
        refinement: gain.refinement,
        ticks,
    })?;
    Ok(())
}

// What is gained each time that the word is carried out.
fn word_gain(statement: &Statement, profile: &Profile, at: u32, word: u32) -> Option<Gain>
    ensures { IsWordGain statement.now profile.now at word result }
{
    match decode(word) {
        Ok(instr) => operation_gain(statement, profile, at, &instr.operation),
        Err(_) => None,
    }
}

// Adds what is saved at a word.
fn push_word(
    found: &mut Vec<Saving>,
    carried: Carried<'_>,
    at: u32,
    word: u32,
) -> Result<(), AllocError>
    ensures { OnOk result
        (Appends (IsWordSaved carried.entry.statement.now carried.entry.profile.now
        (times_in carried.entry.times.now) (at, word)) found.old.items found.new.items) }
{
    let gain = word_gain(carried.statement, carried.profile, at, word);
    let times = times_in(carried.times, at);
    push_saved(found, Subject::Word(at, word), times, gain)
}

// What is saved at each of the words.
fn saved_at(
    alloc: Global,
    carried: Carried<'_>,
    words: &[(u32, u32)],
) -> Result<Vec<Saving>, AllocError>
    ensures { IfOk result
        (λ found. AreRows (IsWordSaved carried.entry.statement.now carried.entry.profile.now
        (times_in carried.entry.times.now)) words.now found.items) }
{
    let mut found = Vec::new(alloc);
    for (at, word) in words {
        push_word(&mut found, carried, *at, *word)?;
    }
    Ok(found)
}

// What is saved at each word, and then on the way out.
fn found_savings(alloc: Global, walk: CountedWalk<'_, '_>) -> Result<Vec<Saving>, AllocError>
    ensures { IfOk result
        (λ found. AreFound walk.entry.handler.now.image.now walk.entry.handler.now.statement
        walk.entry.handler.now.graph (unfolded walk.entry.longest.now.walk) found.items) }
{
    let handler = walk.handler;
    let times = times_carried_out(alloc, walk)?;
    let words = handler.image.listed(alloc)?;
    let profile = handler.graph.profile();
    let carried = Carried {
        statement: &handler.statement,
        profile: &profile,
        times: &times,
    };
    let mut found = saved_at(alloc, carried, &words)?;
    let gain = leave_gain(&profile, handler.statement.leave());
    push_saved(&mut found, Subject::Leave, 1, gain)?;
    Ok(found)
}

/// What better entries of a statement would save by a greatest walk: for each load and store whose class is
/// any or io, and for the way out of the handler if its class is any, the next better class, and for each
/// multiply whose cycles are not stated one of 15 cycles. The next better class is, of those that may be
/// stated there and lie within the present one, the one whose price is the greatest below the present one's.
/// Of a load or store that is a number of bytes from PC it is the narrowest class of its address, and no
/// handler leaves to a device.
/// A stated class is true, so none outside it is better. Another walk may then be the greatest, so the bound
/// would be less by that at most.
///
/// Those that save most come first; of equals the lowest address, and the way out last. What saves nothing is
/// not there.
///
/// # Errors
///
/// An allocation failed.
pub(crate) fn savings(alloc: Global, walk: CountedWalk<'_, '_>) -> Result<Vec<Saving>, AllocError>
    ensures { IfOk result
        (λ list. AreSavings walk.entry.handler.now.image.now walk.entry.handler.now.statement
        walk.entry.handler.now.graph (unfolded walk.entry.longest.now.walk) list.items) }
{
    let mut list = found_savings(alloc, walk)?;
    list.sort_by_key(|saving| Reverse(saving.ticks))?;
    Ok(list)
}

/// What all of them save together, in ticks, capped at 2^64 - 1.
pub(crate) fn together(list: &[Saving]) -> u64
    ensures { result ≡ together list.now }
{
    let mut ticks = 0;
    for saving in list {
        ticks = capped_sum(ticks, saving.ticks);
    }
    ticks
}
