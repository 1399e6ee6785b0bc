//! A row for each entry of a statement that may follow from the code.

ghost use Rattle.std.specs.Prelude.{◌≡◌, ◌∷◌, [], IfOk, None, OnOk, is_some, length, nat_eq, unwrap_or};
ghost use Rattle.std.specs.BTreeMap.{get};
ghost use Rattle.std.specs.Map.{lookup};
ghost use Rattle.std.specs.Ordering.{nat_cmp};
ghost use Rattle.asm_text.specs.Appended.{Appends};
ghost use Rattle.loop_bounds.specs.Handler.{HasItsTree};
ghost use Rattle.justify_reports.specs.Rows.{AreClassRows, AreLoopRows, AreStatedRows, IsClassAt, IsClassRow};
ghost use Rattle.justify_reports.specs.Rows.{IsLoopRow};
ghost use Rattle.justify_reports.specs.Endless.{AreFoundEndless};
ghost use Rattle.justify_reports.specs.Outside.{AreFoundOutside};
ghost use Rattle.justify_reports.specs.Rows.{AreFoundRows, AreReturnRows, class_verdict, entry_of};
ghost use Rattle.justify_reports.specs.Rows.{loop_entry};
ghost use Rattle.justify_reports.specs.Rows.{loop_verdict, reach_of, return_row, verdict_of};
ghost use Rattle.justify_reports.specs.TrustSets.{AreSetsOf};

use crate::classed::classed;
use crate::endless::{endless_headers, is_found};
use crate::outside::ranges_outside;
use crate::returns::{Going, goings, return_addresses};
use crate::trusted::TrustSets;
use bus_ticks::Class;
use control_flow::base_of;
use image::Image;
use known_places::{Destination, OnTrust};
use known_words::Range;
use loop_bounds::Handler;
use statement::{Loop, Statement};
use std::alloc::{AllocError, Global};
use std::collections::BTreeMap;
use word_shapes::instr_at;

/// What a row says of a word's class.
#[derive(Clone, Copy)]
pub(crate) enum Reach {
    /// The class that is stated.
    Of(Class),
    /// A range in which the word, each time, loads or stores at an address that is not of the class.
    Outside(Range),
}

/// An entry of a statement.
#[derive(Clone, Copy)]
pub(crate) enum Entry {
    /// The class that a word's own entry states.
    Access(Reach),
    /// The class that a rule for a base register states of a word.
    Base(Reach),
    /// Where a word goes that returns or leaves: that it does is stated of it, or nothing is.
    Return(Going),
    /// The most back edges that a stay in a loop takes.
    Loop(u32),
    /// That bound, of a loop that no run leaves which keeps all that is stated but its classes.
    Endless,
}

/// What is proved of an entry.
#[derive(Clone, Copy)]
pub(crate) enum Verdict {
    Follows,
    OnTrust,
    /// Where it is done, it goes elsewhere than it is taken to go, or outside of its class; or no run that
    /// comes to the loop leaves it and keeps all that is stated but the classes.
    False,
}

/// An entry, at the address of its word or its loop's header, and what is proved of it.
#[derive(Clone, Copy)]
pub(crate) struct Row {
    pub(crate) entry: Entry,
    pub(crate) at: u32,
    pub(crate) verdict: Verdict,
}

/// What is left on trust, where that is `None`, all is; where the word of each place goes, and where it goes
/// outside of its class; and which instances of loops no run leaves.
#[derive(Clone, Copy)]
pub(crate) struct Findings<'a> {
    pub(crate) trusted: &'a Option<OnTrust>,
    pub(crate) destinations: &'a [Destination],
    pub(crate) outside: &'a [Option<Range>],
    pub(crate) endless: &'a [bool],
}

// What is left on trust, where the words of the places go outside of their classes, and which instances of
// loops no run leaves; and all to be looked up.
#[derive(Clone, Copy)]
struct Left<'a> {
    trusted: &'a Option<OnTrust>,
    sets: &'a TrustSets,
    outside: &'a [Option<Range>],
    ranges: &'a BTreeMap<u32, Option<Range>>,
    endless: &'a [bool],
    headers: &'a BTreeMap<u32, bool>,
}

// The class that is stated of what the word at an address transfers.
fn class_here(image: &Image, statement: &Statement, at: u32) -> Class
    ensures { IsClassAt image.now statement.now at result }
{
    match instr_at(image, at) {
        Some(instr) => statement.class_at(at, base_of(&instr.operation)),
        None => Class::Any,
    }
}

fn has_access(statement: &Statement, at: u32) -> bool
    ensures { result ≡ is_some (lookup (nat_eq at) statement.now.accesses) }
{
    statement.accesses().contains_key(&at)
}

fn entry_of(statement: &Statement, at: u32, reach: Reach) -> Entry
    ensures { result ≡ entry_of statement.now at reach }
{
    if has_access(statement, at) {
        Entry::Access(reach)
    } else {
        Entry::Base(reach)
    }
}

fn class_verdict(trusted: bool, range: Option<Range>) -> Verdict
    ensures { result ≡ class_verdict trusted range }
{
    if !trusted {
        return Verdict::Follows;
    }
    match range {
        Some(_) => Verdict::False,
        None => Verdict::OnTrust,
    }
}

fn reach_of(class: Class, trusted: bool, range: Option<Range>) -> Reach
    ensures { result ≡ reach_of class trusted range }
{
    if !trusted {
        return Reach::Of(class);
    }
    match range {
        Some(range) => Reach::Outside(range),
        None => Reach::Of(class),
    }
}

// Where the word at an address goes outside of its class, which may have no place.
fn range_here(ranges: &BTreeMap<u32, Option<Range>>, at: u32) -> Option<Range>
    ensures { result ≡ unwrap_or (get nat_cmp ranges.now at) None }
{
    match ranges.get(&at) {
        Some(range) => *range,
        None => None,
    }
}

fn class_row(handler: &Handler<'_>, left: Left<'_>, at: u32) -> Row
    requires sets { AreSetsOf left.trusted.now left.sets.now }
    requires ranges { AreFoundOutside handler.now.graph handler.now.tree left.outside.now
        (length handler.now.graph.places) (get nat_cmp left.ranges.now) }
    ensures { IsClassRow handler.now.image.now handler.now.statement handler.now.graph handler.now.tree
        left.entry.trusted.now left.entry.outside.now at result }
{
    let class = class_here(handler.image, &handler.statement, at);
    let trusted = left.sets.has_class(at);
    let range = range_here(left.ranges, at);
    Row {
        entry: entry_of(&handler.statement, at, reach_of(class, trusted, range)),
        at,
        verdict: class_verdict(trusted, range),
    }
}

fn put_class_row(
    rows: &mut Vec<Row>,
    handler: &Handler<'_>,
    left: Left<'_>,
    at: u32,
) -> Result<(), AllocError>
    requires sets { AreSetsOf left.trusted.now left.sets.now }
    requires ranges { AreFoundOutside handler.now.graph handler.now.tree left.outside.now
        (length handler.now.graph.places) (get nat_cmp left.ranges.now) }
    ensures { OnOk result
        (Appends (λ part. (row : Row) × IsClassRow handler.now.image.now handler.now.statement
        handler.now.graph handler.now.tree left.entry.trusted.now left.entry.outside.now at row
        × (part ≡ row ∷ [])) rows.old.items rows.new.items) }
{
    let row = class_row(handler, left, at);
    rows.push(row)?;
    Ok(())
}

fn put_class_rows(
    rows: &mut Vec<Row>,
    handler: &Handler<'_>,
    left: Left<'_>,
    named: &[u32],
) -> Result<(), AllocError>
    requires sets { AreSetsOf left.trusted.now left.sets.now }
    requires ranges { AreFoundOutside handler.now.graph handler.now.tree left.outside.now
        (length handler.now.graph.places) (get nat_cmp left.ranges.now) }
    ensures { OnOk result
        (Appends (AreClassRows handler.now.image.now handler.now.statement handler.now.graph handler.now.tree
        left.entry.trusted.now left.entry.outside.now named.now) rows.old.items rows.new.items) }
{
    for at in named {
        put_class_row(rows, handler, left, *at)?;
    }
    Ok(())
}

fn verdict_of(going: Going) -> Verdict
    ensures { result ≡ verdict_of going }
{
    match going {
        Going::Back(_) | Going::AfterCall | Going::Out(_) => Verdict::Follows,
        Going::BackInside(_) | Going::Unseen => Verdict::OnTrust,
        Going::Elsewhere(_) => Verdict::False,
    }
}

// Where the return at an address goes, which has a place.
fn going_here(found: &BTreeMap<u32, Going>, at: u32) -> Going
    ensures { result ≡ unwrap_or (get nat_cmp found.now at) Going.Unseen }
{
    match found.get(&at) {
        Some(going) => *going,
        None => Going::Unseen,
    }
}

fn return_row(found: &BTreeMap<u32, Going>, at: u32) -> Row
    ensures { result ≡ return_row (unwrap_or (get nat_cmp found.now at) Going.Unseen) at }
{
    let going = going_here(found, at);
    Row {
        entry: Entry::Return(going),
        at,
        verdict: verdict_of(going),
    }
}

fn put_return_row(
    rows: &mut Vec<Row>,
    found: &BTreeMap<u32, Going>,
    at: u32,
) -> Result<(), AllocError>
    ensures { OnOk result
        (Appends (λ part. part ≡ return_row (unwrap_or (get nat_cmp found.entry.now at) Going.Unseen) at ∷ [])
        rows.old.items rows.new.items) }
{
    let row = return_row(found, at);
    rows.push(row)?;
    Ok(())
}

fn put_found_rows(
    rows: &mut Vec<Row>,
    found: &BTreeMap<u32, Going>,
    named: &[u32],
) -> Result<(), AllocError>
    ensures { OnOk result
        (Appends (AreFoundRows (get nat_cmp found.entry.now) named.now) rows.old.items rows.new.items) }
{
    for at in named {
        put_return_row(rows, found, *at)?;
    }
    Ok(())
}

fn put_return_rows(
    rows: &mut Vec<Row>,
    handler: &Handler<'_>,
    destinations: &[Destination],
) -> Result<(), AllocError>
    requires { HasItsTree handler.now }
    ensures { OnOk result
        (Appends (AreReturnRows handler.now.image.now handler.now.statement handler.now.graph handler.now.tree
        destinations.now) rows.old.items rows.new.items) }
{
    let alloc = *rows.allocator();
    let named = return_addresses(alloc, handler)?;
    let found = goings(alloc, handler, destinations)?;
    put_found_rows(rows, &found, &named)
}

fn loop_verdict(trusted: bool, endless: bool) -> Verdict
    ensures { result ≡ loop_verdict trusted endless }
{
    if !trusted {
        return Verdict::Follows;
    }
    if endless {
        Verdict::False
    } else {
        Verdict::OnTrust
    }
}

fn loop_entry(bound: u32, trusted: bool, endless: bool) -> Entry
    ensures { result ≡ loop_entry bound trusted endless }
{
    if !trusted {
        return Entry::Loop(bound);
    }
    if endless {
        Entry::Endless
    } else {
        Entry::Loop(bound)
    }
}

fn loop_row(handler: &Handler<'_>, left: Left<'_>, stated: &Loop) -> Row
    requires sets { AreSetsOf left.trusted.now left.sets.now }
    requires headers { AreFoundEndless handler.now.tree left.endless.now (length handler.now.tree.instances)
        (get nat_cmp left.headers.now) }
    ensures { IsLoopRow handler.now.tree left.entry.trusted.now left.entry.endless.now stated.now result }
{
    let trusted = left.sets.has_loop(stated.header);
    let endless = is_found(left.headers, stated.header);
    Row {
        entry: loop_entry(stated.bound, trusted, endless),
        at: stated.header,
        verdict: loop_verdict(trusted, endless),
    }
}

fn put_loop_row(
    rows: &mut Vec<Row>,
    handler: &Handler<'_>,
    left: Left<'_>,
    stated: &Loop,
) -> Result<(), AllocError>
    requires sets { AreSetsOf left.trusted.now left.sets.now }
    requires headers { AreFoundEndless handler.now.tree left.endless.now (length handler.now.tree.instances)
        (get nat_cmp left.headers.now) }
    ensures { OnOk result
        (Appends (λ part. (row : Row) × IsLoopRow handler.now.tree left.entry.trusted.now
        left.entry.endless.now stated.now row × (part ≡ row ∷ [])) rows.old.items rows.new.items) }
{
    let row = loop_row(handler, left, stated);
    rows.push(row)?;
    Ok(())
}

fn put_loop_rows(
    rows: &mut Vec<Row>,
    handler: &Handler<'_>,
    left: Left<'_>,
    loops: &[Loop],
) -> Result<(), AllocError>
    requires sets { AreSetsOf left.trusted.now left.sets.now }
    requires headers { AreFoundEndless handler.now.tree left.endless.now (length handler.now.tree.instances)
        (get nat_cmp left.headers.now) }
    ensures { OnOk result
        (Appends (AreLoopRows handler.now.tree left.entry.trusted.now left.entry.endless.now loops.now)
        rows.old.items rows.new.items) }
{
    for stated in loops {
        put_loop_row(rows, handler, left, stated)?;
    }
    Ok(())
}

/// The rows of a handler's statement, by what was found. The classes come first and then the returns, both by
/// their words' addresses, and then the loops in the statement's order.
///
/// Its time is that of sorting the words, and the loops' instances.
///
/// # Errors
///
/// An allocation failed.
pub(crate) fn stated_rows(
    alloc: Global,
    handler: &Handler<'_>,
    found: Findings<'_>,
) -> Result<Vec<Row>, AllocError>
    requires { HasItsTree handler.now }
    ensures { IfOk result
        (λ rows. AreStatedRows handler.now.image.now handler.now.statement handler.now.graph handler.now.tree
        found.entry.trusted.now found.entry.destinations.now found.entry.outside.now found.entry.endless.now
        rows.items) }
{
    let sets = TrustSets::of(alloc, found.trusted)?;
    let ranges = ranges_outside(alloc, handler, found.outside)?;
    let headers = endless_headers(alloc, handler, found.endless)?;
    let named = classed(alloc, handler, found.trusted)?;
    let left = Left {
        trusted: found.trusted,
        sets: &sets,
        outside: found.outside,
        ranges: &ranges,
        endless: found.endless,
        headers: &headers,
    };
    let mut rows = Vec::new(alloc);
    put_class_rows(&mut rows, handler, left, &named)?;
    put_return_rows(&mut rows, handler, found.destinations)?;
    put_loop_rows(&mut rows, handler, left, handler.statement.loops().list())?;
    Ok(rows)
}
