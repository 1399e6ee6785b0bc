//! The accesses of a vector.

ghost use Rattle.std.specs.Prelude.{◌≡◌, ◌<◌, ◌++◌, codes, false, map};
ghost use Rattle.bus_ticks.specs.Prices.{ahead_of};
ghost use Rattle.outputs.specs.OnTheWay.{Adds};
ghost use Rattle.memc.specs.Memory.{Memory};
ghost use Rattle.json_trace.specs.Json.{array};
ghost use Rattle.json_trace.specs.StepLine.{memory_word};
ghost use Rattle.test_vectors.specs.Shape.{is_store, shape};
ghost use Rattle.test_vectors.specs.Vector.{access_object, access_value, internal_object, number_or_null};
ghost use Rattle.test_vectors.specs.Writing.{refill_objects};
ghost use Rattle.test_vectors.specs.Writing.{accesses_text, ahead_object, delay_objects, moved_object};
ghost use Rattle.test_vectors.specs.Writing.{moved_objects};

use crate::bus_use::BusUse;
use crate::pieces::put_pieces;
use crate::place::Place;
use bus_ticks::{SPACE_END, ahead_of};
use itoa::Buffer;
use json_trace::{Transfers, boolean, memory_word, transfer_kind, word_place};
use memc::Memc;
use outputs::{Output, Page};

/// A number, or `null`.
pub(crate) fn put_value<O: Output>(out: &mut O, page: &mut Page, value: Option<u32>)
    ensures { Adds O.taken O.failures out.old page.old out.new page.new (number_or_null value) }
{
    match value {
        Some(number) => page.put(out, Buffer::new().format(number).as_bytes()),
        None => page.put(out, b"null"),
    }
}

/// An access, and the word at its address, if memory has one there.
#[derive(Clone, Copy)]
struct ShownAccess {
    follows: bool,
    address: u32,
    word: Option<u32>,
}

fn put_access<O: Output>(out: &mut O, page: &mut Page, kind: &'static str, access: ShownAccess)
    ensures { Adds O.taken O.failures out.old page.old out.new page.new
        (access_object kind.now access.follows access.address access.word) }
{
    put_pieces(
        out,
        page,
        &[
            b"{\"kind\":\"",
            kind.as_bytes(),
            b"\",\"sequential\":",
            boolean(access.follows).as_bytes(),
            b",\"address\":",
            Buffer::new().format(access.address).as_bytes(),
            b",\"value\":",
        ],
    );
    put_value(out, page, access.word);
    page.put(out, b"}");
}

fn put_internal<O: Output>(out: &mut O, page: &mut Page, count: u32)
    ensures { Adds O.taken O.failures out.old page.old out.new page.new (internal_object count) }
{
    page.put(out, b"{\"kind\":\"internal\",\"count\":");
    page.put(out, Buffer::new().format(count).as_bytes());
    page.put(out, b"}");
}

// Internal cycles, if there are any, and a comma.
fn put_delay<O: Output>(out: &mut O, page: &mut Page, delay: Option<u32>)
    ensures { Adds O.taken O.failures out.old page.old out.new page.new (delay_objects delay) }
{
    if let Some(count) = delay {
        put_internal(out, page, count);
        page.put(out, b",");
    }
}

// A fetch of a word, after a comma.
fn put_fetch<O: Output>(out: &mut O, page: &mut Page, memc: &Memc, follows: bool, address: u32)
    requires { address < SPACE_END }
    ensures { Adds O.taken O.failures out.old page.old out.new page.new
        (codes "," ++ access_object (codes "fetch") follows address (memory_word memc.now false address)) }
{
    let access = ShownAccess {
        follows,
        address,
        word: memory_word(memc, false, address),
    };
    page.put(out, b",");
    put_access(out, page, "fetch", access);
}

// The two fetches of a jump, if there is one.
fn put_refill<O: Output>(out: &mut O, page: &mut Page, memc: &Memc, jumps: bool, to: u32)
    requires { to < SPACE_END }
    ensures { Adds O.taken O.failures out.old page.old out.new page.new (refill_objects memc.now jumps to) }
{
    if !jumps {
        return;
    }
    put_fetch(out, page, memc, false, to);
    put_fetch(out, page, memc, true, ahead_of(to, 4));
}

// A word that was moved, after a comma.
fn put_moved_word<O: Output>(
    out: &mut O,
    page: &mut Page,
    memc: &Memc,
    moved: Transfers,
    number: u32,
)
    ensures { Adds O.taken O.failures out.old page.old out.new page.new
        (codes "," ++ moved_object memc.now moved.store moved.address number) }
{
    let address = word_place(moved.address, number);
    let access = ShownAccess {
        follows: number != 0,
        address,
        word: memory_word(memc, moved.store, address),
    };
    page.put(out, b",");
    put_access(out, page, transfer_kind(moved.store), access);
}

// The words that were moved, each after a comma.
fn put_moved<O: Output>(out: &mut O, page: &mut Page, memc: &Memc, moved: Transfers)
    ensures { Adds O.taken O.failures out.old page.old out.new page.new
        (moved_objects memc.now moved.store moved.address moved.words) }
{
    for number in 0..moved.words {
        put_moved_word(out, page, memc, moved, number);
    }
}

fn put_ahead<O: Output>(out: &mut O, page: &mut Page, place: Place, follows: bool)
    ensures { Adds O.taken O.failures out.old page.old out.new page.new
        (ahead_object place.at place.ahead follows) }
{
    let access = ShownAccess {
        follows,
        address: ahead_of(place.at, 8),
        word: place.ahead,
    };
    put_access(out, page, "fetch", access);
}

// The accesses, with commas between them.
fn put_accesses<O: Output>(out: &mut O, page: &mut Page, memc: &Memc, place: Place)
    ensures { Adds O.taken O.failures out.old page.old out.new page.new
        (accesses_text memc.now place.done place.at place.ahead place.to) }
{
    match place.done {
        BusUse::Nothing => {}
        BusUse::Fetches { delay, jumps } => {
            put_delay(out, page, delay);
            put_ahead(out, page, place, true);
            put_refill(out, page, memc, jumps, place.to);
        }
        BusUse::Loads { words, jumps } => {
            put_ahead(out, page, place, true);
            put_moved(out, page, memc, words);
            page.put(out, b",");
            put_internal(out, page, 1);
            put_refill(out, page, memc, jumps, place.to);
        }
        BusUse::Stores { words } => {
            put_ahead(out, page, place, false);
            put_moved(out, page, memc, words);
        }
    }
}

/// Puts the accesses of a step on their way, by memory after it.
pub(crate) fn put_cycles<O: Output>(out: &mut O, page: &mut Page, memc: &Memc, place: Place)
    ensures { (before : Memory)
        → memory_word before false (ahead_of place.at 8) ≡ place.ahead
        → (is_store place.done ≡ false → memc.now ≡ before)
        → Adds O.taken O.failures out.old page.old out.new page.new
        (array (map (access_value before memc.now) (shape place.done place.at place.to))) }
{
    page.put(out, b"[");
    put_accesses(out, page, memc, place);
    page.put(out, b"]");
}
