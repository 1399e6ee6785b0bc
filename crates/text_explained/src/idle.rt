ghost use Rattle.std.specs.Prelude.{◌≡◌, ◌↔◌, ◌++◌, ◌==◌, if◌then◌else◌, [], IfOk, IsTrue, OnOk, map};
ghost use Rattle.std.specs.BTreeSet.{contains};
ghost use Rattle.std.specs.List.{list_any};
ghost use Rattle.std.specs.Map.{keys_of};
ghost use Rattle.std.specs.Ordering.{nat_cmp};
ghost use Rattle.asm_text.specs.Appended.{Appends};
ghost use Rattle.control_flow.specs.Kinds.{is_multiply};
ghost use Rattle.loop_bounds.specs.Instance.{is_back_edge_of};
ghost use Rattle.text_explained.specs.Idle.{AreIdleEntries, AreIdleRows, EntryCounts, IsConditional};
ghost use Rattle.text_explained.specs.Idle.{IsEntryRow, IsLoopRow, IsRuleRow, back_of, between, entry_row};
ghost use Rattle.text_explained.specs.Idle.{are_together, front_of, has_condition, is_with_others};
ghost use Rattle.text_explained.specs.Idle.{entry_addresses};
ghost use Rattle.text_explained.specs.Idle.{count_unreached, rule_row, together_row};
ghost use Rattle.text_explained.specs.RuleParts.{AreDoneCoverages};
ghost use Rattle.text_rows.specs.Rows.{AreRows};
ghost use Rattle.word_shapes.specs.Words.{HasShape};

use crate::idle_stretches::put_stretches;
use crate::leaving::{EdgeKind, addresses_left, addresses_reached};
use crate::rules::{done_coverages, put_part, put_register};
use arm2_decode::Cond;
use asm_text::hex8;
use control_flow::{Graph, action_of, is_multiply};
use image::Image;
use indexmap::IndexMap;
use loop_bounds::{Handler, is_back_edge_of};
use statement::{ApartWords, BaseRule, Loop, Statement};
use std::alloc::{AllocError, Global};
use std::collections::BTreeSet;
use text_rows::{put, put_decimal, section};
use word_shapes::{instr_at, is_transfer_at};

const HEADING: &[u8] = b"\nEntries of the statement without effect:\n";

// From how many on entries that name addresses that are never reached are said together.
const TOGETHER: usize = 4;

/// A kind of entries that name the address of a word.
#[derive(Clone, Copy)]
pub(crate) enum Entry {
    Target,
    Access,
    Multiply,
    Branch,
}

// The words of an image, at which addresses a graph carries them out and has places, and whether the entries
// that name addresses where it has none are said together.
#[derive(Clone, Copy)]
struct Seen<'a> {
    image: &'a Image,
    done: &'a BTreeSet<u32>,
    reached: &'a BTreeSet<u32>,
    together: bool,
}

impl Seen<'_> {
    // Whether the entry of the address is said together with others.
    fn is_with_others(&self, at: u32) -> bool
        ensures { result ≡ is_with_others self.now.together (contains nat_cmp self.now.reached.now) at }
    {
        self.together && !self.reached.contains(&at)
    }
}

fn turns_back(graph: &Graph, apart: &ApartWords, stated: &Loop) -> bool
    ensures { result ≡ list_any (is_back_edge_of apart.now stated.now) graph.now.edges }
{
    graph
        .edges()
        .iter()
        .any(|edge| is_back_edge_of(apart, stated, edge))
}

// Adds an address between two texts.
fn put_between(out: &mut Vec<u8>, front: &[u8], at: u32, back: &[u8]) -> Result<(), AllocError>
    ensures { OnOk result (out.new.items ≡ out.old.items ++ between front.now at back.now) }
{
    put(out, front)?;
    put(out, &hex8(at))?;
    put(out, back)
}

// Adds the row of a loop, if it has no effect and is not said together with others.
fn put_loop(
    out: &mut Vec<u8>,
    seen: Seen<'_>,
    graph: &Graph,
    apart: &ApartWords,
    stated: &Loop,
) -> Result<(), AllocError>
    ensures { OnOk result
        (Appends (IsLoopRow apart.now graph.now
        (is_with_others seen.entry.together (contains nat_cmp seen.entry.reached.now)) stated.now)
        out.old.items out.new.items) }
{
    if seen.is_with_others(stated.header) {
        return Ok(());
    }
    if turns_back(graph, apart, stated) {
        return Ok(());
    }
    put_between(
        out,
        b"  loop    ",
        stated.header,
        b"  nothing turns back to the header\n",
    )
}

fn put_loops(
    out: &mut Vec<u8>,
    seen: Seen<'_>,
    graph: &Graph,
    apart: &ApartWords,
    loops: &[Loop],
) -> Result<(), AllocError>
    ensures { OnOk result
        (Appends (AreRows (IsLoopRow apart.now graph.now
        (is_with_others seen.entry.together (contains nat_cmp seen.entry.reached.now))) loops.now)
        out.old.items out.new.items) }
{
    for stated in loops {
        put_loop(out, seen, graph, apart, stated)?;
    }
    Ok(())
}

fn has_condition(cond: Cond) -> bool
    ensures { result ≡ has_condition cond }
{
    !cond.is_always() && !cond.is_never()
}

// Whether the image has a word at an address that has a condition.
fn is_conditional_at(image: &Image, at: u32) -> bool
    ensures { IsTrue result ↔ IsConditional image.now at }
{
    match image.word_at(at) {
        Some(word) => has_condition(action_of(word).cond),
        None => false,
    }
}

fn is_multiply_at(image: &Image, at: u32) -> bool
    ensures { IsTrue result ↔ HasShape is_multiply image.now at }
{
    match instr_at(image, at) {
        Some(instr) => is_multiply(&instr.operation),
        None => false,
    }
}

// Whether an entry has an effect at an address.
fn entry_counts(seen: Seen<'_>, entry: Entry, at: u32) -> bool
    ensures { IsTrue result
        ↔ EntryCounts seen.entry.image.now (contains nat_cmp seen.entry.done.now)
        (contains nat_cmp seen.entry.reached.now) entry at }
{
    match entry {
        Entry::Target => seen.done.contains(&at),
        Entry::Access => seen.done.contains(&at) && is_transfer_at(seen.image, at),
        Entry::Multiply => seen.done.contains(&at) && is_multiply_at(seen.image, at),
        Entry::Branch => seen.reached.contains(&at) && is_conditional_at(seen.image, at),
    }
}

impl Entry {
    // The text in front of its address.
    fn front(self) -> &'static [u8]
        ensures { result.now ≡ front_of self }
    {
        match self {
            Entry::Target => b"  target  ",
            Entry::Access => b"  access  ",
            Entry::Multiply => b"  multiply  ",
            Entry::Branch => b"  branch  ",
        }
    }

    // The text after it, which says what is not at the address.
    fn back(self) -> &'static [u8]
        ensures { result.now ≡ back_of self }
    {
        match self {
            Entry::Target => b"  no word is carried out there\n",
            Entry::Access => b"  no load or store is carried out there\n",
            Entry::Multiply => b"  no multiply is carried out there\n",
            Entry::Branch => b"  no word with a condition is reached there\n",
        }
    }

    fn put_row(self, out: &mut Vec<u8>, at: u32) -> Result<(), AllocError>
        ensures { OnOk result (out.new.items ≡ out.old.items ++ entry_row self at) }
    {
        put_between(out, self.front(), at, self.back())
    }
}

// Adds the row of an entry, if it has no effect and is not said together with others.
fn put_entry(out: &mut Vec<u8>, seen: Seen<'_>, entry: Entry, at: u32) -> Result<(), AllocError>
    ensures { OnOk result
        (Appends (IsEntryRow seen.entry.image.now (contains nat_cmp seen.entry.done.now)
        (contains nat_cmp seen.entry.reached.now)
        (is_with_others seen.entry.together (contains nat_cmp seen.entry.reached.now)) entry at)
        out.old.items out.new.items) }
{
    if seen.is_with_others(at) {
        return Ok(());
    }
    if entry_counts(seen, entry, at) {
        return Ok(());
    }
    entry.put_row(out, at)
}

fn put_entries(
    out: &mut Vec<u8>,
    seen: Seen<'_>,
    entry: Entry,
    at: &[u32],
) -> Result<(), AllocError>
    ensures { OnOk result
        (Appends (AreRows (IsEntryRow seen.entry.image.now (contains nat_cmp seen.entry.done.now)
        (contains nat_cmp seen.entry.reached.now)
        (is_with_others seen.entry.together (contains nat_cmp seen.entry.reached.now)) entry) at.now)
        out.old.items out.new.items) }
{
    for address in at {
        put_entry(out, seen, entry, *address)?;
    }
    Ok(())
}

// Adds the rows of the entries of a kind, by what is stated at the addresses of words, that have no effect.
fn put_stated<V>(
    out: &mut Vec<u8>,
    seen: Seen<'_>,
    entry: Entry,
    stated: &IndexMap<u32, V>,
) -> Result<(), AllocError>
    ensures { OnOk result
        (Appends (AreRows (IsEntryRow seen.entry.image.now (contains nat_cmp seen.entry.done.now)
        (contains nat_cmp seen.entry.reached.now)
        (is_with_others seen.entry.together (contains nat_cmp seen.entry.reached.now)) entry)
        (keys_of stated.now.entries)) out.old.items out.new.items) }
{
    let addresses: Vec<u32> = stated.keys().copied().collect(*out.allocator())?;
    put_entries(out, seen, entry, &addresses)
}

fn put_rule_row(out: &mut Vec<u8>, rule: &BaseRule) -> Result<(), AllocError>
    ensures { OnOk result (out.new.items ≡ out.old.items ++ rule_row rule.now) }
{
    put(out, b"  base    ")?;
    put_register(out, rule.register)?;
    put(out, b" from ")?;
    put_part(out, rule)?;
    put(out, b"  no load or store there takes its class\n")
}

// Adds the row of a rule that covers so many words, if it has no effect.
fn put_rule(out: &mut Vec<u8>, rule: &BaseRule, words: usize) -> Result<(), AllocError>
    ensures { OnOk result (out.new.items ≡ out.old.items ++ (if words == 0 then rule_row rule.now else [])) }
{
    if words != 0 {
        return Ok(());
    }
    put_rule_row(out, rule)
}

// Adds the rows of the rules that have no effect, by how many words each covers.
fn put_rules(out: &mut Vec<u8>, handler: &Handler<'_>, counts: &[usize]) -> Result<(), AllocError>
    requires { AreDoneCoverages handler.now.image.now handler.now.statement handler.now.graph counts.now }
    ensures { OnOk result
        (Appends (AreRows (IsRuleRow handler.now.image.now handler.now.statement handler.now.graph)
        handler.now.statement.rules) out.old.items out.new.items) }
{
    for (rule, words) in handler.statement.rules().iter().zip(counts) {
        put_rule(out, rule, *words)?;
    }
    Ok(())
}

// Adds the addresses that are stated.
fn put_keys<V>(out: &mut Vec<u32>, stated: &IndexMap<u32, V>) -> Result<(), AllocError>
    ensures { OnOk result (out.new.items ≡ out.old.items ++ keys_of stated.now.entries) }
{
    let addresses: Vec<u32> = stated.keys().copied().collect(*out.allocator())?;
    out.extend_from_slice(&addresses)
}

fn headers(alloc: Global, loops: &[Loop]) -> Result<Vec<u32>, AllocError>
    ensures { IfOk result (λ headers. headers.items ≡ map (λ l. l.header) loops.now) }
{
    loops.iter().map(|stated| stated.header).collect(alloc)
}

// An address for each entry.
fn entry_addresses(alloc: Global, statement: &Statement) -> Result<Vec<u32>, AllocError>
    ensures { IfOk result (λ addresses. addresses.items ≡ entry_addresses statement.now) }
{
    let mut addresses = headers(alloc, statement.loops().list())?;
    put_keys(&mut addresses, statement.targets())?;
    put_keys(&mut addresses, statement.accesses())?;
    put_keys(&mut addresses, statement.multiplies())?;
    put_keys(&mut addresses, statement.branches())?;
    Ok(addresses)
}

// How many of the addresses are never reached.
fn count_unreached(reached: &BTreeSet<u32>, addresses: &[u32]) -> usize
    ensures { result ≡ count_unreached (contains nat_cmp reached.now) addresses.now }
{
    addresses.iter().filter(|at| !reached.contains(*at)).count()
}

// Adds the row of the entries that are said together, so many.
fn put_together(out: &mut Vec<u8>, count: usize) -> Result<(), AllocError>
    ensures { OnOk result (out.new.items ≡ out.old.items ++ together_row count) }
{
    if count < TOGETHER {
        return Ok(());
    }
    put(out, b"  ")?;
    put_decimal(out, count as u64)?;
    put(
        out,
        b" entries name addresses that are never reached: is a [[target]] missing?\n",
    )
}

// The rows of the entries without effect.
fn idle_rows(alloc: Global, handler: &Handler<'_>) -> Result<Vec<u8>, AllocError>
    ensures { IfOk result
        (λ rows. AreIdleRows handler.now.image.now handler.now.statement handler.now.graph rows.items) }
{
    let (graph, statement) = (&handler.graph, &handler.statement);
    let loops = statement.loops();
    let done = addresses_left(alloc, graph, EdgeKind::CarriesOut)?;
    let reached = addresses_reached(alloc, graph)?;
    let addresses = entry_addresses(alloc, statement)?;
    let count = count_unreached(&reached, &addresses);
    let seen = Seen {
        image: handler.image,
        done: &done,
        reached: &reached,
        together: count >= TOGETHER,
    };
    let counts = done_coverages(alloc, handler)?;
    let mut rows = Vec::new(alloc);
    put_loops(&mut rows, seen, graph, loops.apart(), loops.list())?;
    put_stretches(&mut rows, loops.list(), loops.apart().stretches())?;
    put_stated(&mut rows, seen, Entry::Target, statement.targets())?;
    put_stated(&mut rows, seen, Entry::Access, statement.accesses())?;
    put_rules(&mut rows, handler, &counts)?;
    put_stated(&mut rows, seen, Entry::Multiply, statement.multiplies())?;
    put_stated(&mut rows, seen, Entry::Branch, statement.branches())?;
    put_together(&mut rows, count)?;
    Ok(rows)
}

/// The entries of a statement that have no effect on the bound: loops in which nothing turns back, stretches
/// apart that no loop reaches, targets of words that are never carried out, accesses of words that never load
/// or store, rules for base registers that cover no word, cycles of words that never multiply, and ways of
/// words that are not reached or have no condition. Each is named by the address that it names, a loop by its
/// header's, a stretch by both, and a rule by its register and its part, in the order of the statement. Four
/// or more that name addresses that are never reached are one row at the end, which says how many. Nothing
/// where each entry has an effect.
///
/// # Errors
///
/// An allocation failed.
pub fn idle_entries(alloc: Global, handler: &Handler<'_>) -> Result<Vec<u8>, AllocError>
    ensures { IfOk result
        (λ text. AreIdleEntries handler.now.image.now handler.now.statement handler.now.graph text.items) }
{
    let rows = idle_rows(alloc, handler)?;
    section(alloc, HEADING, &rows)
}
