ghost use Rattle.std.specs.Prelude.{◌≡◌, ◌↔◌, ◌⊎◌, ℕ, true, IfOk, IsTrue, OnOk};
ghost use Rattle.std.specs.BTreeSet.{contains};
ghost use Rattle.std.specs.List.Sorted.{IsStrictlySortedBy};
ghost use Rattle.std.specs.Ordering.{nat_cmp};
ghost use Rattle.bus_ticks.specs.declared.profile.Class.{Class};
ghost use Rattle.text_explained.specs.Assumed.{AreAssumed, Assumes, IsLeftWithoutFlags, IsLoose};
ghost use Rattle.text_explained.specs.Assumed.{IsLooseTransfer};
ghost use Rattle.text_explained.specs.Assumed.{IsTakenForReturn, Notes, is_interrupt_vector};
ghost use Rattle.arm2_decode.specs.Writers.{is_transfer};
ghost use Rattle.word_shapes.specs.Shapes.{is_odd_writer};
ghost use Rattle.text_explained.specs.Doing.{MayDoShape, may_do_shape};
ghost use Rattle.text_explained.specs.Leaving.{is_left_on};
ghost use Rattle.text_explained.specs.declared.leaving.EdgeKind.TheVariants.{LeadsOut};

use crate::doing::may_be_done;
use crate::leaving::{EdgeKind, addresses_left};
use arm2_decode::Instr;
use bus_ticks::{Class, FIQ_VECTOR};
use control_flow::{Place, base_of};
use image::Image;
use loop_bounds::Handler;
use statement::Statement;
use std::alloc::{AllocError, Global};
use std::collections::BTreeSet;
use word_shapes::{instr_at, is_odd_writer, leaves_flags_at};

// Where the processor goes on when it takes IRQ.
const IRQ_VECTOR: u32 = 0x18;

/// What a bound takes for granted of a word that its handler reaches.
#[derive(Clone, Copy)]
pub(crate) enum Assumption {
    /// That a load or a store may be to any address, since no other class is stated for it.
    LooseTransfer,
    /// That a word that may write R15 returns, although it does not look like that, since no target is
    /// stated.
    TakenForReturn,
    /// That a word leaves the handler of IRQ or FIQ, although it does not restore the flags.
    LeavesFlags,
}

fn is_any(class: Class) -> bool
    ensures { IsTrue result ↔ (class ≡ Class.Any) }
{
    class == Class::Any
}

fn may_transfer(statement: &Statement, at: u32, instr: &Instr) -> bool
    ensures { result ≡ may_do_shape is_transfer statement.now at instr.now }
{
    may_be_done(statement, at, instr) && instr.operation.is_transfer()
}

fn is_loose(statement: &Statement, at: u32, instr: &Instr) -> bool
    ensures { IsTrue result ↔ IsLoose statement.now at instr.now }
{
    may_transfer(statement, at, instr) && is_any(statement.class_at(at, base_of(&instr.operation)))
}

fn is_loose_transfer(image: &Image, statement: &Statement, at: u32) -> bool
    ensures { IsTrue result ↔ IsLooseTransfer image.now statement.now at }
{
    match instr_at(image, at) {
        Some(instr) => is_loose(statement, at, &instr),
        None => false,
    }
}

fn may_write_oddly(statement: &Statement, at: u32, instr: &Instr) -> bool
    ensures { result ≡ may_do_shape is_odd_writer statement.now at instr.now }
{
    may_be_done(statement, at, instr) && is_odd_writer(&instr.operation)
}

// Whether the image has a word at an address that may write R15, other than a branch or a call, and does not
// look like a return.
fn may_write_oddly_at(image: &Image, statement: &Statement, at: u32) -> bool
    ensures { IsTrue result ↔ MayDoShape is_odd_writer image.now statement.now at }
{
    match instr_at(image, at) {
        Some(instr) => may_write_oddly(statement, at, &instr),
        None => false,
    }
}

fn is_taken_for_return(image: &Image, statement: &Statement, at: u32) -> bool
    ensures { IsTrue result ↔ IsTakenForReturn image.now statement.now at }
{
    may_write_oddly_at(image, statement, at) && statement.target_at(at).is_none()
}

fn is_interrupt_vector(address: u32) -> bool
    ensures { result ≡ is_interrupt_vector address }
{
    address == IRQ_VECTOR || address == FIQ_VECTOR
}

// Whether a word leaves a handler of IRQ or FIQ, by the addresses that are left, and restores no flags.
fn is_left_without_flags(handler: &Handler<'_>, left: &BTreeSet<u32>, at: u32) -> bool
    requires { (a : ℕ) → contains nat_cmp left.now a ≡ is_left_on LeadsOut handler.now.graph.edges a }
    ensures { IsTrue result
        ↔ IsLeftWithoutFlags handler.now.image.now handler.now.statement handler.now.graph at }
{
    if !is_interrupt_vector(handler.statement.entry()) {
        return false;
    }
    if !left.contains(&at) {
        return false;
    }
    leaves_flags_at(handler.image, at)
}

// Whether that is assumed of the word at the address, by the addresses that are left.
fn is_assumed(handler: &Handler<'_>, left: &BTreeSet<u32>, what: Assumption, at: u32) -> bool
    requires { (a : ℕ) → contains nat_cmp left.now a ≡ is_left_on LeadsOut handler.now.graph.edges a }
    ensures { IsTrue result
        ↔ Assumes handler.now.image.now handler.now.statement handler.now.graph what at }
{
    match what {
        Assumption::LooseTransfer => is_loose_transfer(handler.image, &handler.statement, at),
        Assumption::TakenForReturn => is_taken_for_return(handler.image, &handler.statement, at),
        Assumption::LeavesFlags => is_left_without_flags(handler, left, at),
    }
}

// Adds the address of the place, if that is assumed of the word there, by the addresses that are left.
fn note(
    named: &mut BTreeSet<u32>,
    place: &Place,
    handler: &Handler<'_>,
    left: &BTreeSet<u32>,
    what: Assumption,
) -> Result<(), AllocError>
    requires { (a : ℕ) → contains nat_cmp left.now a ≡ is_left_on LeadsOut handler.now.graph.edges a }
    ensures { OnOk result
        (Notes (Assumes handler.now.image.now handler.now.statement handler.now.graph what) place.now
        (contains nat_cmp named.old) (contains nat_cmp named.new)) }
{
    let Place::At(_, address) = place else {
        return Ok(());
    };
    if is_assumed(handler, left, what, *address) {
        named.insert(*address)?;
    }
    Ok(())
}

/// Adds an address. `AllocError`: an allocation failed.
pub(crate) fn add(named: &mut BTreeSet<u32>, at: u32) -> Result<(), AllocError>
    ensures { OnOk result
        ((a : ℕ) → (contains nat_cmp named.new a ≡ true)
        ↔ ((contains nat_cmp named.old a ≡ true) ⊎ (at ≡ a))) }
{
    named.insert(at)?;
    Ok(())
}

/// The addresses, ascending. `AllocError`: an allocation failed.
pub(crate) fn sorted(alloc: Global, named: &BTreeSet<u32>) -> Result<Vec<u32>, AllocError>
    ensures keys { IfOk result (λ addresses. addresses.items ≡ named.now.keys) }
    ensures ascending { IfOk result (λ addresses. IsStrictlySortedBy nat_cmp addresses.items) }
{
    named.iter().copied().collect(alloc)
}

/// The addresses where the graph has a place and that is assumed of the word, ascending.
///
/// # Errors
///
/// An allocation failed.
pub(crate) fn assumed(
    alloc: Global,
    handler: &Handler<'_>,
    what: Assumption,
) -> Result<Vec<u32>, AllocError>
    ensures { IfOk result
        (λ named. AreAssumed handler.now.image.now handler.now.statement handler.now.graph what named.items) }
{
    let left = addresses_left(alloc, &handler.graph, EdgeKind::LeadsOut)?;
    let mut named = BTreeSet::new(alloc);
    for place in handler.graph.places() {
        note(&mut named, place, handler, &left, what)?;
    }
    sorted(alloc, &named)
}
