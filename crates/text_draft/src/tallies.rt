ghost use Rattle.std.specs.Prelude.{◌≡◌, ◌<◌, ◌+◌, ◌*◌, ◌^◌, List, IfOk, length, set, slice_index_or};
ghost use Rattle.text_draft.specs.Rules.{class_number, of_both};
ghost use Rattle.text_draft.specs.Tallies.{AreTallies, counted, none, place_of, tally_of};
ghost use Rattle.text_draft.specs.declared.accesses.FoundAccess.{FoundAccess};

use crate::accesses::FoundAccess;
use arm2_decode::Register;
use bus_ticks::Class;
use std::alloc::{AllocError, Global};

// As many as there are registers, and classes.
const REGISTERS: usize = 16;

const CLASSES: usize = 8;

/// How many loads and stores have a base and a class, and the address of the first.
#[derive(Clone, Copy)]
pub struct Tally {
    pub count: usize,
    pub first: u32,
}

impl Tally {
    const NONE: Tally = Tally { count: 0, first: 0 };
}

// The place of a class in the order of all.
fn class_number(class: Class) -> usize
    ensures number { result ≡ class_number class }
    ensures fits { result < CLASSES }
{
    class as usize
}

fn place_of(register: Register, class: Class) -> usize
    ensures place { result ≡ place_of register class }
    ensures within { result < REGISTERS * CLASSES }
{
    register.number() as usize * CLASSES + class_number(class)
}

/// The tally of a base and a class.
pub(crate) fn tally_at(table: &[Tally], register: Register, class: Class) -> Tally
    requires { length table.now ≡ 128 }
    ensures { (accesses : List FoundAccess) → AreTallies accesses table.now
        → result ≡ tally_of (of_both accesses register class) }
{
    table[place_of(register, class)]
}

fn counted(tally: Tally, at: u32) -> Tally
    requires { tally.count + 1 < 2 ^ 64 }
    ensures { result ≡ counted tally at }
{
    Tally {
        count: tally.count + 1,
        first: if tally.count == 0 { at } else { tally.first },
    }
}

// Counts one more.
fn count(table: &mut Vec<Tally>, found: &FoundAccess)
    requires whole { length table.now.items ≡ 128 }
    requires room { (slice_index_or table.now.items (place_of found.now.base found.now.class) none).count + 1
        < 2 ^ 64 }
    ensures within { place_of found.now.base found.now.class < 128 }
    ensures set { table.new.items
        ≡ set table.old.items (place_of found.now.base found.now.class)
        (counted (slice_index_or table.old.items (place_of found.now.base found.now.class) none)
        found.now.at) }
{
    let place = place_of(found.base, found.class);
    table[place] = counted(table[place], found.at);
}

/// The tallies of all bases and classes.
pub(crate) fn tallies(alloc: Global, accesses: &[FoundAccess]) -> Result<Vec<Tally>, AllocError>
    ensures tallies { IfOk result (λ table. AreTallies accesses.now table.items) }
    ensures whole { IfOk result (λ table. length table.items ≡ 128) }
{
    let mut table = vec![in alloc; Tally::NONE; REGISTERS * CLASSES]?;
    for access in accesses {
        count(&mut table, access);
    }
    Ok(table)
}
