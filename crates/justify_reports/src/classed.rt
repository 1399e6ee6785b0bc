//! The words of which a class is stated or on trust.

ghost use Rattle.std.specs.Prelude.{◌≡◌, ◌≢◌, ◌↔◌, ◌⊎◌, ◌||◌, ℕ, true, IfOk, IsTrue, OnOk};
ghost use Rattle.std.specs.BTreeSet.{contains};
ghost use Rattle.std.specs.List.Sorted.{IsStrictlySortedBy};
ghost use Rattle.std.specs.Ordering.{nat_cmp};
ghost use Rattle.arm2_decode.specs.Writers.{is_transfer};
ghost use Rattle.bus_ticks.specs.declared.profile.Class.{Class};
ghost use Rattle.text_explained.specs.Assumed.{Notes};
ghost use Rattle.text_explained.specs.Doing.{may_do_shape};
ghost use Rattle.text_explained.specs.Taken.{is_reached};
ghost use Rattle.justify_reports.specs.Rows.{AreClassed, HasClass, IsClassed};
ghost use Rattle.justify_reports.specs.Trust.{lists_class};

use crate::trusted::add_all;
use arm2_decode::Instr;
use bus_ticks::Class;
use control_flow::{Place, base_of, may_do};
use image::Image;
use known_places::OnTrust;
use loop_bounds::Handler;
use statement::Statement;
use std::alloc::{AllocError, Global};
use std::collections::BTreeSet;
use word_shapes::instr_at;

fn may_transfer(statement: &Statement, at: u32, instr: &Instr) -> bool
    ensures { result ≡ may_do_shape is_transfer statement.now at instr.now }
{
    may_do(instr.cond, statement.taken_at(at)) && instr.operation.is_transfer()
}

// Whether it is not the class of all addresses.
fn is_narrow(class: Class) -> bool
    ensures { IsTrue result ↔ (class ≢ Class.Any) }
{
    match class {
        Class::Any => false,
        Class::Ram
        | Class::Rom
        | Class::Io
        | Class::Slow
        | Class::Medium
        | Class::Fast
        | Class::Synchronous => true,
    }
}

// Whether an instruction may load or store, and has a stated class.
fn is_classed(statement: &Statement, at: u32, instr: &Instr) -> bool
    ensures { IsTrue result ↔ IsClassed statement.now at instr.now }
{
    if !may_transfer(statement, at, instr) {
        return false;
    }
    is_narrow(statement.class_at(at, base_of(&instr.operation)))
}

fn has_class(image: &Image, statement: &Statement, at: u32) -> bool
    ensures { IsTrue result ↔ HasClass image.now statement.now at }
{
    match instr_at(image, at) {
        Some(instr) => is_classed(statement, at, &instr),
        None => false,
    }
}

pub(crate) fn add(named: &mut BTreeSet<u32>, at: u32) -> Result<(), AllocError>
    ensures { OnOk result
        ((a : ℕ) → (contains nat_cmp named.new a ≡ true)
        ↔ ((contains nat_cmp named.old a ≡ true) ⊎ (at ≡ a))) }
{
    named.insert(at)?;
    Ok(())
}

// Adds the address of the place, if its word has a stated class.
fn note(named: &mut BTreeSet<u32>, place: &Place, handler: &Handler<'_>) -> Result<(), AllocError>
    ensures { OnOk result
        (Notes (HasClass handler.now.image.now handler.now.statement) place.now
        (contains nat_cmp named.old) (contains nat_cmp named.new)) }
{
    let Place::At(_, address) = place else {
        return Ok(());
    };
    if has_class(handler.image, &handler.statement, *address) {
        add(named, *address)?;
    }
    Ok(())
}

// The addresses where the graph has a place, and the word a stated class.
fn classed_places(alloc: Global, handler: &Handler<'_>) -> Result<BTreeSet<u32>, AllocError>
    ensures { IfOk result
        (λ named. (a : ℕ) → (contains nat_cmp named a ≡ true)
        ↔ ((is_reached handler.now.graph.places a ≡ true)
        × HasClass handler.now.image.now handler.now.statement a)) }
{
    let mut named = BTreeSet::new(alloc);
    for place in handler.graph.places() {
        note(&mut named, place, handler)?;
    }
    Ok(named)
}

// Adds the addresses of the words whose class is on trust.
fn add_trusted(named: &mut BTreeSet<u32>, left: &Option<OnTrust>) -> Result<(), AllocError>
    ensures { OnOk result
        ((a : ℕ) → contains nat_cmp named.new a ≡ (contains nat_cmp named.old a || lists_class left.now a)) }
{
    match left {
        Some(trusted) => add_all(named, &trusted.classes),
        None => Ok(()),
    }
}

/// The addresses of the set, ascending. `AllocError`: an allocation failed.
pub(crate) fn sorted(alloc: Global, named: &BTreeSet<u32>) -> Result<Vec<u32>, AllocError>
    ensures keys { IfOk result (λ addresses. addresses.items ≡ named.now.keys) }
    ensures ascending { IfOk result (λ addresses. IsStrictlySortedBy nat_cmp addresses.items) }
{
    named.iter().copied().collect(alloc)
}

/// The addresses where the graph has a place whose word has a stated class, and those of words whose class is
/// on trust, ascending. `AllocError`: an allocation failed.
pub(crate) fn classed(
    alloc: Global,
    handler: &Handler<'_>,
    left: &Option<OnTrust>,
) -> Result<Vec<u32>, AllocError>
    ensures { IfOk result
        (λ named. AreClassed handler.now.image.now handler.now.statement handler.now.graph left.now
        named.items) }
{
    let mut named = classed_places(alloc, handler)?;
    add_trusted(&mut named, left)?;
    sorted(alloc, &named)
}
