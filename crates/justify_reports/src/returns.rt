//! Where the words go that return or leave a handler.

ghost use Rattle.std.specs.Prelude.{◌≡◌, ◌<◌, ◌+◌, ◌==◌, ◌↔◌, if◌then◌else◌, ℕ, IfOk, IsTrue, OnOk};
ghost use Rattle.std.specs.Prelude.{Some, length, option_map, true};
ghost use Rattle.std.specs.BTreeMap.{get};
ghost use Rattle.std.specs.BTreeSet.{contains};
ghost use Rattle.std.specs.Ordering.{nat_cmp};
ghost use Rattle.arm2_decode.specs.Writers.{writes_pc};
ghost use Rattle.control_flow.specs.Edges.{return_place};
ghost use Rattle.loop_bounds.specs.Handler.{HasItsTree};
ghost use Rattle.text_explained.specs.Assumed.{Notes};
ghost use Rattle.text_explained.specs.Doing.{may_do_shape};
ghost use Rattle.text_explained.specs.Links.{counts_as_return, is_return_kind};
ghost use Rattle.text_explained.specs.Taken.{is_reached};
ghost use Rattle.known_places.specs.Destinations.{destination_at};
ghost use Rattle.justify_reports.specs.Returns.{AreFound, AreReturns, HasReturn, IsReturn, going_back};
ghost use Rattle.justify_reports.specs.Returns.{going_of, going_out, going_by, gravity, graver};
ghost use Rattle.justify_reports.specs.Returns.{is_leave, is_of, is_outside, leaves};

use crate::classed::{add, sorted};
use arm2_decode::Instr;
use bus_ticks::{Class, ahead_of};
use control_flow::{Calls, Place, may_do};
use image::Image;
use known_places::Destination;
use loop_bounds::{Handler, place_in};
use statement::{Statement, Target, TargetKind};
use std::alloc::{AllocError, Global};
use std::collections::{BTreeMap, BTreeSet};
use word_shapes::instr_at;

/// Where a word goes that returns or leaves the handler.
#[derive(Clone, Copy)]
pub(crate) enum Going {
    /// Out of the handler, to the address in R14 at the entry, less so many bytes.
    Back(u32),
    /// To the word after its call.
    AfterCall,
    /// Out of the handler, to this address.
    Out(u32),
    /// The same out of a routine: it is not seen whether that is the word after its call.
    BackInside(u32),
    /// It is not seen.
    Unseen,
    /// To this address, which is not where it is taken to go.
    Elsewhere(u32),
}

// ## From one place

fn is_leave(kind: TargetKind) -> bool
    ensures { result ≡ is_leave kind }
{
    match kind {
        TargetKind::Jump | TargetKind::Call | TargetKind::Return => false,
        TargetKind::Leave => true,
    }
}

fn leaves(target: Option<&Target>) -> bool
    ensures { result ≡ leaves (option_map (λ t. t.now) target.entry) }
{
    match target {
        Some(target) => is_leave(target.kind()),
        None => false,
    }
}

fn is_of(class: Class, address: u32) -> bool
    ensures { result ≡ is_of class address }
{
    class.is_of(address)
}

fn is_outside(image: &Image, leave: Class, stated: bool, address: u32) -> bool
    ensures { result ≡ is_outside image.now leave stated address }
{
    is_of(leave, address) && (stated || !image.word_at(address).is_some())
}

fn going_out(image: &Image, leave: Class, stated: bool, destination: Destination) -> Going
    ensures { result ≡ going_out image.now leave stated destination }
{
    match destination {
        Destination::Unknown => Going::Unseen,
        Destination::LinkLess(bytes) => Going::Back(bytes),
        Destination::To(address) => {
            if is_outside(image, leave, stated, address) {
                Going::Out(address)
            } else {
                Going::Elsewhere(address)
            }
        }
    }
}

fn going_back(next: u32, destination: Destination) -> Going
    ensures { result ≡ going_back next destination }
{
    match destination {
        Destination::Unknown => Going::Unseen,
        Destination::LinkLess(bytes) => Going::BackInside(bytes),
        Destination::To(address) => {
            if address == next {
                Going::AfterCall
            } else {
                Going::Elsewhere(address)
            }
        }
    }
}

fn return_place(calls: &Calls) -> Place
    ensures { result ≡ return_place calls.now }
{
    match calls.split_last() {
        Some((outer, last)) => Place::At(outer, ahead_of(last, 4)),
        None => Place::Exit,
    }
}

fn going_by(
    image: &Image,
    leave: Class,
    stated: bool,
    place: Place,
    destination: Destination,
) -> Going
    ensures { result ≡ going_by image.now leave stated place destination }
{
    match place {
        Place::Exit => going_out(image, leave, stated, destination),
        Place::At(_, next) => going_back(next, destination),
    }
}

fn going_of(
    image: &Image,
    leave: Class,
    target: Option<&Target>,
    calls: &Calls,
    destination: Destination,
) -> Going
    ensures { result ≡ going_of image.now leave (option_map (λ t. t.now) target.entry) calls.now destination }
{
    if leaves(target) {
        return going_out(image, leave, true, destination);
    }
    going_by(image, leave, false, return_place(calls), destination)
}

// ## Which words return

fn may_write_pc(statement: &Statement, at: u32, instr: &Instr) -> bool
    ensures { result ≡ may_do_shape writes_pc statement.now at instr.now }
{
    may_do(instr.cond, statement.taken_at(at)) && instr.operation.writes_pc()
}

fn is_return_kind(kind: TargetKind) -> bool
    ensures { result ≡ is_return_kind kind }
{
    match kind {
        TargetKind::Jump | TargetKind::Call => false,
        TargetKind::Return | TargetKind::Leave => true,
    }
}

// Whether a word returns by what is stated of it, if anything is.
fn counts_as_return(target: Option<&Target>) -> bool
    ensures { result ≡ counts_as_return (option_map (λ t. t.now) target.entry) }
{
    match target {
        Some(target) => is_return_kind(target.kind()),
        None => true,
    }
}

fn is_return(statement: &Statement, at: u32, instr: &Instr) -> bool
    ensures { IsTrue result ↔ IsReturn statement.now at instr.now }
{
    may_write_pc(statement, at, instr) && counts_as_return(statement.target_at(at))
}

fn has_return(image: &Image, statement: &Statement, at: u32) -> bool
    ensures { IsTrue result ↔ HasReturn image.now statement.now at }
{
    match instr_at(image, at) {
        Some(instr) => is_return(statement, at, &instr),
        None => false,
    }
}

// Adds the address of the place, if its word returns.
fn note(named: &mut BTreeSet<u32>, place: &Place, handler: &Handler<'_>) -> Result<(), AllocError>
    ensures { OnOk result
        (Notes (HasReturn handler.now.image.now handler.now.statement) place.now
        (contains nat_cmp named.old) (contains nat_cmp named.new)) }
{
    let Place::At(_, address) = place else {
        return Ok(());
    };
    if has_return(handler.image, &handler.statement, *address) {
        add(named, *address)?;
    }
    Ok(())
}

fn return_places(alloc: Global, handler: &Handler<'_>) -> Result<BTreeSet<u32>, AllocError>
    ensures { IfOk result
        (λ named. (a : ℕ) → (contains nat_cmp named a ≡ true)
        ↔ ((is_reached handler.now.graph.places a ≡ true)
        × HasReturn handler.now.image.now handler.now.statement a)) }
{
    let mut named = BTreeSet::new(alloc);
    for place in handler.graph.places() {
        note(&mut named, place, handler)?;
    }
    Ok(named)
}

/// The addresses where the graph has a place whose word returns or leaves the handler, ascending.
/// `AllocError`: an allocation failed.
pub(crate) fn return_addresses(alloc: Global, handler: &Handler<'_>) -> Result<Vec<u32>, AllocError>
    ensures { IfOk result
        (λ named. AreReturns handler.now.image.now handler.now.statement handler.now.graph named.items) }
{
    let named = return_places(alloc, handler)?;
    sorted(alloc, &named)
}

// ## From all places

impl Going {
    fn gravity(self) -> u32
        ensures { result ≡ gravity self }
    {
        match self {
            Going::Back(_) | Going::AfterCall | Going::Out(_) => 0,
            Going::BackInside(_) | Going::Unseen => 1,
            Going::Elsewhere(_) => 2,
        }
    }
}

fn graver(old: Option<&Going>, going: Going) -> Going
    ensures { result ≡ graver (option_map (λ g. g.now) old.entry) going }
{
    match old {
        Some(old) => {
            if old.gravity() < going.gravity() {
                going
            } else {
                *old
            }
        }
        None => going,
    }
}

// Sets where the return at an address goes, unless what is set is as grave.
fn put_graver(found: &mut BTreeMap<u32, Going>, at: u32, going: Going) -> Result<(), AllocError>
    ensures { OnOk result ((a : ℕ) → get nat_cmp found.new a
        ≡ (if at == a then Some (graver (get nat_cmp found.old at) going) else get nat_cmp found.old a)) }
{
    let gravest = graver(found.get(&at), going);
    found.insert(at, gravest)?;
    Ok(())
}

fn destination_at(destinations: &[Destination], number: usize) -> Destination
    ensures { result ≡ destination_at destinations.now number }
{
    match destinations.get(number) {
        Some(destination) => *destination,
        None => Destination::Unknown,
    }
}

// Adds where the word at the place of a number goes, if it returns.
fn put_going(
    found: &mut BTreeMap<u32, Going>,
    handler: &Handler<'_>,
    destinations: &[Destination],
    number: usize,
) -> Result<(), AllocError>
    requires { number < length handler.now.graph.places }
    ensures { AreFound handler.now.image.now handler.now.statement handler.now.graph handler.now.tree
        destinations.now number (get nat_cmp found.old)
        → OnOk result (AreFound handler.now.image.now handler.now.statement handler.now.graph handler.now.tree
        destinations.now (number + 1) (get nat_cmp found.new)) }
{
    let Place::At(calls, address) = place_in(&handler.graph, &handler.tree, number) else {
        return Ok(());
    };
    if !has_return(handler.image, &handler.statement, address) {
        return Ok(());
    }
    let leave = handler.statement.leave();
    let target = handler.statement.target_at(address);
    let destination = destination_at(destinations, number);
    let going = going_of(handler.image, leave, target, &calls, destination);
    put_graver(found, address, going)
}

/// Where each return goes, by its address: of its places the gravest. `AllocError`: an allocation failed.
pub(crate) fn goings(
    alloc: Global,
    handler: &Handler<'_>,
    destinations: &[Destination],
) -> Result<BTreeMap<u32, Going>, AllocError>
    requires { HasItsTree handler.now }
    ensures { IfOk result (λ found. AreFound handler.now.image.now handler.now.statement handler.now.graph
        handler.now.tree destinations.now (length handler.now.graph.places) (get nat_cmp found)) }
{
    let mut found = BTreeMap::new(alloc);
    for number in 0..handler.graph.places().len() {
        put_going(&mut found, handler, destinations, number)?;
    }
    Ok(found)
}
