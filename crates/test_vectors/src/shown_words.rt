//! The words of memory that a vector shows.

ghost use Rattle.std.specs.Prelude.{◌≡◌, ◌≤◌, ◌<◌, ◌+◌, ◌∷◌, ◌++◌, [], map};
ghost use Rattle.arrayvec.specs.ArrayVec.{array_vec_len};
ghost use Rattle.bus_ticks.specs.Prices.{word_address};
ghost use Rattle.arm2_effect.specs.Effects.{refill};
ghost use Rattle.json_trace.specs.StepLine.{memory_word};
ghost use Rattle.test_vectors.specs.Shape.{shape};
ghost use Rattle.test_vectors.specs.Vector.{addresses_of};
ghost use Rattle.test_vectors.specs.Writing.{FewWords, moved_addresses, refill_addresses, shown_at};

use crate::bus_use::BusUse;
use arrayvec::ArrayVec;
use bus_ticks::{SPACE_END, ahead_of};
use json_trace::{Transfers, memory_word, word_place};
use memc::Memc;

/// The word that memory has at an address, if it has one there.
#[derive(Clone, Copy, Default)]
pub(crate) struct ShownWord {
    pub(crate) address: u32,
    pub(crate) word: Option<u32>,
}

/// The most words that a vector shows: the step's own, one that is fetched ahead, sixteen that are moved, and
/// two that are fetched after a jump.
pub(crate) const MOST_SHOWN: usize = 20;

pub(crate) type ShownWords = ArrayVec<ShownWord, MOST_SHOWN>;

fn push_word(words: &mut ShownWords, memc: &Memc, address: u32)
    requires below { address < SPACE_END }
    requires room { array_vec_len words.old < 20 }
    ensures items { words.new.items ≡ words.old.items ++ shown_at memc.now address ∷ [] }
    ensures len { array_vec_len words.new ≡ array_vec_len words.old + 1 }
{
    words.push(ShownWord {
        address,
        word: memory_word(memc, false, address),
    });
}

// Those that are moved.
fn push_moved(words: &mut ShownWords, memc: &Memc, moved: Transfers)
    requires few { moved.words ≤ 16 }
    requires room { array_vec_len words.old ≤ 2 }
    ensures items { words.new.items
        ≡ words.old.items ++ map (shown_at memc.now) (moved_addresses moved.address moved.words) }
    ensures len { array_vec_len words.new ≡ array_vec_len words.old + moved.words }
{
    for number in 0..moved.words {
        push_word(words, memc, word_place(moved.address, number));
    }
}

// Those that are fetched where a jump leads, if there is one.
fn push_refill(words: &mut ShownWords, memc: &Memc, jumps: bool, to: u32)
    requires below { to < SPACE_END }
    requires room { array_vec_len words.old ≤ 18 }
    ensures { words.new.items ≡ words.old.items ++ map (shown_at memc.now) (refill_addresses jumps to) }
{
    if jumps {
        push_word(words, memc, to);
        push_word(words, memc, ahead_of(to, 4));
    }
}

// Those of a step's accesses.
fn push_used(words: &mut ShownWords, memc: &Memc, at: u32, done: BusUse, to: u32)
    requires below { at < SPACE_END }
    requires next { to < SPACE_END }
    requires few { FewWords done }
    requires room { array_vec_len words.old ≤ 1 }
    ensures { words.new.items
        ≡ words.old.items ++ map (shown_at memc.now) (addresses_of (shape done at to)) }
{
    match done {
        BusUse::Nothing => {}
        BusUse::Fetches { jumps, .. } => {
            push_word(words, memc, ahead_of(at, 8));
            push_refill(words, memc, jumps, to);
        }
        BusUse::Loads {
            words: moved,
            jumps,
        } => {
            push_word(words, memc, ahead_of(at, 8));
            push_moved(words, memc, moved);
            push_refill(words, memc, jumps, to);
        }
        BusUse::Stores { words: moved } => {
            push_word(words, memc, ahead_of(at, 8));
            push_moved(words, memc, moved);
        }
    }
}

/// The words at a step's address, and at those of its accesses in their order.
pub(crate) fn shown_words(memc: &Memc, at: u32, done: BusUse, to: u32) -> ShownWords
    requires below { at < SPACE_END }
    requires next { to < SPACE_END }
    requires few { FewWords done }
    ensures { result.items ≡ map (shown_at memc.now) (at ∷ addresses_of (shape done at to)) }
{
    let mut words = ShownWords::new();
    push_word(&mut words, memc, at);
    push_used(&mut words, memc, at, done, to);
    words
}
