ghost use Rattle.std.specs.Prelude.{◌≡◌, ◌↔◌, ◌<◌, ◌^◌, ℕ, true, Contains, IfOk, IsTrue, OnOk, option_map};
ghost use Rattle.std.specs.BTreeSet.{contains};
ghost use Rattle.std.specs.Ordering.{nat_cmp};
ghost use Rattle.control_flow.specs.Flow.{HasEdge, IsWellFormed};
ghost use Rattle.control_flow.specs.Search.{by_order};
ghost use Rattle.control_flow.specs.declared.edges.Edge.{Edge};
ghost use Rattle.control_flow.specs.declared.places.Place.{Place};
ghost use Rattle.word_shapes.specs.Growing.{Adds, Grows, HasSameMembers};
ghost use Rattle.text_explained.specs.Doing.{MayDoShape, may_do_shape};
ghost use Rattle.text_explained.specs.Assumed.{Notes};
ghost use Rattle.text_explained.specs.Links.{AreLostLinks, Does, DoesTo, IsLost, MayReturnByLink};
ghost use Rattle.text_explained.specs.Links.{PutsAddress, counts_as_return, distance, holds_address};
ghost use Rattle.text_explained.specs.Links.{is_return_kind, literal_at, loads_address, loads_link_by_pc};
ghost use Rattle.text_explained.specs.Links.{loads_users_link};
ghost use Rattle.text_explained.specs.Links.{may_put_address, returns_by_link, writes_link};
ghost use Rattle.text_explained.specs.Losing.{ByEdge, HasRoom, LeadsTo};
ghost use Rattle.text_explained.specs.Taken.{is_reached};

use crate::assumptions::{add, sorted};
use crate::doing::may_be_done;
use arm2_decode::{Instr, Operation, Register, SingleImmediate};
use arm2_effect::address_of;
use bus_ticks::{SPACE_END, ahead_of};
use control_flow::{Calls, Edge, Graph, Place};
use image::Image;
use loop_bounds::Handler;
use statement::{Statement, Target, TargetKind};
use std::alloc::{AllocError, Global};
use std::collections::BTreeSet;
use word_shapes::{instr_at, is_return, makes_address};

/// What overwrites R14, so that it no longer has the return address.
#[derive(Clone, Copy)]
pub enum Overwrite {
    /// A call, which comes back.
    ByCall,
    /// A word that puts an address of the source into it.
    ByAddress,
}

/// What an edge does to R14.
#[derive(Clone, Copy)]
pub(crate) enum LinkStep {
    /// It overwrites R14.
    Overwrites(Overwrite),
    /// It leaves R14 as it is.
    Keeps,
}

// Whether an operation loads R14 of User's bank, and leaves that of the mode.
fn loads_users_link(operation: &Operation) -> bool
    ensures { result ≡ loads_users_link operation.now }
{
    let Operation::Block(x) = operation else {
        return false;
    };
    x.load && x.user && !x.is_listed(Register::R15) && !(x.write_back && x.rn.is_link())
}

// Whether an operation writes R14 of an interrupt's mode, other than a call.
fn writes_link(operation: &Operation) -> bool
    ensures { result ≡ writes_link operation.now }
{
    operation.writes(Register::R14) && !loads_users_link(operation)
}

// Whether an instruction at an address may write R14, other than a call.
fn may_write_link(statement: &Statement, at: u32, instr: &Instr) -> bool
    ensures { result ≡ may_do_shape writes_link statement.now at instr.now }
{
    may_be_done(statement, at, instr) && writes_link(&instr.operation)
}

// Whether the image has such a word at an address.
fn may_write_link_at(image: &Image, statement: &Statement, at: u32) -> bool
    ensures { IsTrue result ↔ MayDoShape writes_link image.now statement.now at }
{
    match instr_at(image, at) {
        Some(instr) => may_write_link(statement, at, &instr),
        None => false,
    }
}

// Whether an operation returns by R14.
fn returns_by_link(operation: &Operation) -> bool
    ensures { result ≡ returns_by_link operation.now }
{
    operation.writes_pc() && is_return(operation) && !operation.is_transfer()
}

fn may_return_by_link(statement: &Statement, at: u32, instr: &Instr) -> bool
    ensures { result ≡ may_do_shape returns_by_link statement.now at instr.now }
{
    may_be_done(statement, at, instr) && returns_by_link(&instr.operation)
}

// Whether the image has a word at an address that may return by R14 unless something else is stated.
fn returns_by_link_at(image: &Image, statement: &Statement, at: u32) -> bool
    ensures { IsTrue result ↔ MayDoShape returns_by_link image.now statement.now at }
{
    match instr_at(image, at) {
        Some(instr) => may_return_by_link(statement, at, &instr),
        None => false,
    }
}

fn is_return_kind(kind: TargetKind) -> bool
    ensures { result ≡ is_return_kind kind }
{
    match kind {
        TargetKind::Jump | TargetKind::Call => false,
        TargetKind::Return | TargetKind::Leave => true,
    }
}

// Whether a word returns by what is stated of it, if anything is.
fn counts_as_return(target: Option<&Target>) -> bool
    ensures { result ≡ counts_as_return (option_map (λ t. t.now) target.entry) }
{
    match target {
        Some(target) => is_return_kind(target.kind()),
        None => true,
    }
}

// Whether the image has a word at an address that may return by R14.
fn may_return_at(image: &Image, statement: &Statement, at: u32) -> bool
    ensures { IsTrue result ↔ MayReturnByLink image.now statement.now at }
{
    returns_by_link_at(image, statement, at) && counts_as_return(statement.target_at(at))
}

// How many bytes after PC a load reads, in 26 bits.
fn distance(up: bool, offset: u32) -> u32
    requires { offset < 2 ^ 12 }
    ensures { result ≡ distance up offset }
{
    if up { offset } else { SPACE_END - offset }
}

// Whether a load is of one word into R14, by PC and a number.
fn loads_link_by_pc(x: &SingleImmediate) -> bool
    ensures { result ≡ loads_link_by_pc x.now }
{
    x.load && !x.byte && x.rd.is_link() && x.rn.is_pc()
}

// Which address a load by PC and a number reads.
fn literal_at(at: u32, load: &SingleImmediate) -> u32
    ensures { result ≡ literal_at at load.now }
{
    ahead_of(at, 8 + distance(load.up, load.offset))
}

// Whether there is a word, and it holds the address of one of the image's.
fn holds_address(image: &Image, word: Option<u32>) -> bool
    ensures { result ≡ holds_address image.now word }
{
    match word {
        Some(word) => image.word_at(address_of(word)).is_some(),
        None => false,
    }
}

// Whether an operation at an address loads R14 with a word that holds the address of a word.
fn loads_address(image: &Image, at: u32, operation: &Operation) -> bool
    ensures { result ≡ loads_address image.now at operation.now }
{
    let Operation::SingleImmediate(x) = operation else {
        return false;
    };
    loads_link_by_pc(x) && holds_address(image, image.word_at(literal_at(at, x)))
}

fn may_put_address(image: &Image, statement: &Statement, at: u32, instr: &Instr) -> bool
    ensures { result ≡ may_put_address image.now statement.now at instr.now }
{
    may_be_done(statement, at, instr)
        && (makes_address(&instr.operation) || loads_address(image, at, &instr.operation))
}

// Whether the image has a word at an address that may put an address of the source into R14.
fn puts_address_at(image: &Image, statement: &Statement, at: u32) -> bool
    ensures { IsTrue result ↔ PutsAddress image.now statement.now at }
{
    match instr_at(image, at) {
        Some(instr) => may_put_address(image, statement, at, &instr),
        None => false,
    }
}

fn are_same(calls: Calls, other: Calls) -> bool
    ensures { IsTrue result ↔ (calls ≡ other) }
{
    calls == other
}

// Whether an edge from an address inside some calls to a place inside others does that to R14.
fn does_to(handler: &Handler<'_>, step: LinkStep, calls: Calls, others: Calls, at: u32) -> bool
    ensures { IsTrue result ↔ DoesTo handler.now.image.now handler.now.statement step calls others at }
{
    let (image, statement) = (handler.image, &handler.statement);
    match step {
        LinkStep::Overwrites(Overwrite::ByCall) => others.items().len() < calls.items().len(),
        LinkStep::Overwrites(Overwrite::ByAddress) => {
            are_same(calls, others) && puts_address_at(image, statement, at)
        }
        LinkStep::Keeps => { are_same(calls, others) && !may_write_link_at(image, statement, at) }
    }
}

// Whether an edge does that to R14.
fn does(handler: &Handler<'_>, step: LinkStep, edge: &Edge) -> bool
    ensures { IsTrue result
        ↔ Does handler.now.image.now handler.now.statement step edge.now.from edge.now.to }
{
    let Place::At(calls, at) = edge.from else {
        return false;
    };
    let Place::At(others, _) = edge.to else {
        return false;
    };
    does_to(handler, step, calls, others, at)
}

// The edges that leave a place.
fn edges_from<'a>(graph: &'a Graph, place: &Place) -> &'a [Edge]
    ensures { (e : Edge) → Contains result.now e ↔ (HasEdge graph.now e × (e.from ≡ place.now)) }
{
    match graph.places().binary_search(place) {
        Ok(at) => {
            let (first, end) = graph.edge_range(at);
            &graph.edges()[first..end]
        }
        Err(_) => &[],
    }
}

// The places at which R14 is lost, as far as they are found.
#[derive(Drop)]
struct Lost {
    seen: BTreeSet<Place>,
    // the same, in the order in which they are found
    order: Vec<Place>,
}

impl Lost {
    fn add(&mut self, place: &Place) -> Result<(), AllocError>
        requires { HasSameMembers by_order self.old.seen self.old.order.items }
        ensures found { OnOk result (HasSameMembers by_order self.new.seen self.new.order.items) }
        ensures adds { OnOk result (Adds HasRoom self.old.order.items place.now self.new.order.items) }
    {
        if self.seen.insert(*place)? {
            self.order.push(*place)?;
        }
        Ok(())
    }

    // Adds the place to which an edge leads, if it does that to R14.
    fn add_led(
        &mut self,
        handler: &Handler<'_>,
        step: LinkStep,
        edge: &Edge,
    ) -> Result<(), AllocError>
        requires { HasSameMembers by_order self.old.seen self.old.order.items }
        ensures found { OnOk result (HasSameMembers by_order self.new.seen self.new.order.items) }
        ensures grows { OnOk result
            (Grows HasRoom (LeadsTo handler.now.image.now handler.now.statement step edge.now)
            self.old.order.items self.new.order.items) }
    {
        if !does(handler, step, edge) {
            return Ok(());
        }
        self.add(&edge.to)
    }

    // Adds the places to which those of the edges lead that do that to R14.
    fn follow(
        &mut self,
        handler: &Handler<'_>,
        step: LinkStep,
        edges: &[Edge],
    ) -> Result<(), AllocError>
        requires { HasSameMembers by_order self.old.seen self.old.order.items }
        ensures found { OnOk result (HasSameMembers by_order self.new.seen self.new.order.items) }
        ensures grows { OnOk result
            (Grows HasRoom (ByEdge handler.now.image.now handler.now.statement step edges.now)
            self.old.order.items self.new.order.items) }
    {
        for edge in edges {
            self.add_led(handler, step, edge)?;
        }
        Ok(())
    }
}

// Finds the places at which R14 is lost, overwritten so. The list grows at its end while its next place is
// looked at, so each is looked at once.
fn lost_places(
    alloc: Global,
    handler: &Handler<'_>,
    by: Overwrite,
) -> Result<Vec<Place>, AllocError>
    ensures { IfOk result
        (λ places. (p : Place) → Contains places.items p
        ↔ IsLost handler.now.image.now handler.now.statement handler.now.graph by p) }
{
    let mut lost = Lost {
        seen: BTreeSet::new(alloc),
        order: Vec::new(alloc),
    };
    lost.follow(handler, LinkStep::Overwrites(by), handler.graph.edges())?;
    let mut next = 0;
    while next < lost.seen.len() {
        let place = lost.order[next];
        let edges = edges_from(&handler.graph, &place);
        lost.follow(handler, LinkStep::Keeps, edges)?;
        next += 1;
    }
    Ok(lost.order)
}

// Adds the address of the place, if its word may return by R14.
fn note(
    named: &mut BTreeSet<u32>,
    place: &Place,
    image: &Image,
    statement: &Statement,
) -> Result<(), AllocError>
    ensures { OnOk result
        (Notes (MayReturnByLink image.now statement.now) place.now (contains nat_cmp named.old)
        (contains nat_cmp named.new)) }
{
    let Place::At(_, address) = place else {
        return Ok(());
    };
    if may_return_at(image, statement, *address) {
        add(named, *address)?;
    }
    Ok(())
}

// The addresses of those of the places whose word may return by R14.
fn returning(
    alloc: Global,
    image: &Image,
    statement: &Statement,
    places: &[Place],
) -> Result<BTreeSet<u32>, AllocError>
    ensures { IfOk result
        (λ named. (a : ℕ) → (contains nat_cmp named a ≡ true)
        ↔ ((is_reached places.now a ≡ true) × MayReturnByLink image.now statement.now a)) }
{
    let mut named = BTreeSet::new(alloc);
    for place in places {
        note(&mut named, place, image, statement)?;
    }
    Ok(named)
}

/// The addresses of words that may return by R14 (MOV, or SUB of a number) where it may have been overwritten
/// so: on some way through the graph a call comes back, or a word puts an address of the source into R14, and
/// no word of the same routine writes R14 in between. They ascend. A word of which a jump or a call is stated
/// does not return.
///
/// An address of the source is what ADD or SUB of PC makes, as ADR, what MOV R14,PC keeps, or a word of the
/// source that is loaded by PC alone and holds the address of one. The time is near linear in the graph. A
/// word counts as one that writes R14 whatever its condition, unless it is never done: under NV, or as
/// stated. The R14 of all modes counts as one.
///
/// # Errors
///
/// An allocation failed.
pub fn lost_links(
    alloc: Global,
    handler: &Handler<'_>,
    by: Overwrite,
) -> Result<Vec<u32>, AllocError>
    ensures { IfOk result
        (λ named. AreLostLinks handler.now.image.now handler.now.statement handler.now.graph by named.items) }
{
    let places = lost_places(alloc, handler, by)?;
    let named = returning(alloc, handler.image, &handler.statement, &places)?;
    sorted(alloc, &named)
}
