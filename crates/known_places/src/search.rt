ghost use Rattle.std.specs.Prelude.{◌≡◌, ◌<◌, IfOk, length};
ghost use Rattle.loop_bounds.specs.Tree.{IsTree};

use crate::around::{Around, loops_around, turns_along};
use crate::headers::Header;
use crate::turned::turned;
use crate::word::known_after;
use arm2_decode::{Opcode, Operation, decode};
use control_flow::{Edge, Place};
use known_words::{Given, Knowledge, rotated};
use loop_bounds::{Handler, edge_range_in};
use numbered_walks::NumberedEdge;
use std::alloc::{AllocError, Global};

// How often all edges are gone along at most, and after how many times what still changes at headers is given
// up.
const MOST_SWEEPS: u32 = 40;

const SWEEPS_THAT_JOIN: u32 = 28;

// What is known at each place in this sweep, nothing where none came yet, and at the header of each loop.
#[derive(Drop)]
struct Search {
    start: Knowledge,
    // at which numbers ranges may well end
    numbers: Vec<u32>,
    around: Vec<Around>,
    // the loop that begins at each place
    loops: Vec<Option<usize>>,
    headers: Vec<Header>,
    found: Vec<Option<Knowledge>>,
    gives_up: bool,
    changed: bool,
}

// The number that a word compares a register with.
fn compared_number(word: u32) -> Option<u32> {
    let instr = decode(word).ok()?;
    let Operation::DataImmediate(x) = instr.operation else {
        return None;
    };
    if x.opcode == Opcode::Cmp {
        Some(rotated(x.value, x.rotation))
    } else {
        None
    }
}

fn put_numbers(numbers: &mut Vec<u32>, word: u32) -> Result<(), AllocError> {
    if let Some(number) = compared_number(word) {
        numbers.push(number.saturating_sub(1))?;
        numbers.push(number)?;
    }
    Ok(())
}

// The numbers that words compare with, each and the one before it, in order.
fn numbers_in(alloc: Global, handler: &Handler<'_>) -> Result<Vec<u32>, AllocError> {
    let mut numbers = Vec::new(alloc);
    numbers.push(0x7FFF_FFFF)?;
    for place in handler.graph.places() {
        if let Place::At(_, address) = place {
            if let Some(word) = handler.image.word_at(*address) {
                put_numbers(&mut numbers, word)?;
            }
        }
    }
    numbers.sort_unstable();
    Ok(numbers)
}

fn loops_in(alloc: Global, handler: &Handler<'_>) -> Result<Vec<Option<usize>>, AllocError> {
    let spans = handler.tree.spans();
    let mut loops = vec![in alloc; None; handler.graph.places().len()]?;
    for number in 0..spans.len() {
        if let Some(found) = loops.get_mut(spans[number].header) {
            *found = Some(number);
        }
    }
    Ok(loops)
}

fn headers_in(
    alloc: Global,
    handler: &Handler<'_>,
    around: &[Around],
) -> Result<Vec<Header>, AllocError> {
    let spans = handler.tree.spans();
    let mut headers = Vec::with_capacity(alloc, spans.len())?;
    for number in 0..spans.len() {
        let depth = match around.get(spans[number].header) {
            Some(around) => around.depth_of(number),
            None => None,
        };
        headers.push(Header {
            entered: None,
            back: None,
            value: None,
            depth,
        })?;
    }
    Ok(headers)
}

// What is known after the word that an edge leaves.
fn known_along(handler: &Handler<'_>, edge: &Edge, before: &Knowledge) -> Option<Knowledge> {
    let Place::At(_, address) = edge.from else {
        return None;
    };
    let word = handler.image.word_at(address)?;
    known_after(word, address, edge.label, before)
}

// The one, or where both are there what is known by either.
fn either(old: Option<Knowledge>, known: &Knowledge) -> Option<Knowledge> {
    match old {
        Some(old) => old.joined(known),
        None => Some(*known),
    }
}

impl Search {
    // What is known at the end of an edge.
    fn arriving(
        &self,
        handler: &Handler<'_>,
        edge: &Edge,
        numbered: NumberedEdge,
    ) -> Option<Knowledge> {
        let before = match self.found.get(numbered.from) {
            Some(Some(before)) => *before,
            _ => return None,
        };
        let known = known_along(handler, edge, &before)?;
        let from = self.around.get(numbered.from)?;
        let to = self.around.get(numbered.to)?;
        let turns = turns_along(handler.tree.spans(), *from, *to, numbered)?;
        Some(turned(&known, turns))
    }

    fn put(&mut self, number: usize, known: &Knowledge) {
        if let Some(found) = self.found.get_mut(number) {
            *found = either(*found, known);
        }
    }

    fn put_back(&mut self, number: usize, known: &Knowledge) {
        let index = match self.loops.get(number) {
            Some(Some(index)) => *index,
            _ => return,
        };
        if let Some(header) = self.headers.get_mut(index) {
            header.back = either(header.back, known);
        }
    }

    fn go_along(&mut self, handler: &Handler<'_>, number: usize) {
        let Some(numbered) = handler.tree.edges().get(number) else {
            return;
        };
        let Some(edge) = handler.graph.edges().get(number) else {
            return;
        };
        let Some(known) = self.arriving(handler, edge, *numbered) else {
            return;
        };
        if numbered.from < numbered.to {
            self.put(numbered.to, &known);
        } else {
            self.put_back(numbered.to, &known);
        }
    }

    // Along the edges that leave a place.
    fn leave(&mut self, handler: &Handler<'_>, number: usize)
        requires tree { IsTree handler.now.graph handler.now.tree }
        requires known { number < length handler.now.graph.places }
    {
        let (first, end) = edge_range_in(&handler.graph, &handler.tree, number);
        for edge in first..end {
            self.go_along(handler, edge);
        }
    }

    // What is known at the header of a loop, where so much is known as it is entered.
    fn known_at_header(&self, header: &Header, entered: &Knowledge) -> Knowledge {
        if self.gives_up {
            return header.given_up(entered, self.numbers.as_slice());
        }
        header.with(entered, self.numbers.as_slice())
    }

    // Takes the header's new state, and says whether that changes.
    fn settled(&mut self, index: usize, entered: &Knowledge) -> Option<Knowledge> {
        let header = *self.headers.get(index)?;
        let value = self.known_at_header(&header, entered);
        if !header.stays_with(entered, &value) {
            self.changed = true;
        }
        if let Some(place) = self.headers.get_mut(index) {
            place.entered = Some(*entered);
            place.back = None;
            place.value = Some(value);
        }
        Some(value)
    }

    // Where a loop begins.
    fn settle(&mut self, number: usize) {
        let index = match self.loops.get(number) {
            Some(Some(index)) => *index,
            _ => return,
        };
        let entered = match self.found.get(number) {
            Some(Some(entered)) => *entered,
            _ => return,
        };
        let value = self.settled(index, &entered);
        if let Some(found) = self.found.get_mut(number) {
            *found = value;
        }
    }

    // Along all edges, in the order of the tree, from nothing but what is known at the headers.
    fn sweep(&mut self, handler: &Handler<'_>)
        requires { IsTree handler.now.graph handler.now.tree }
    {
        self.changed = false;
        self.found.fill(None);
        let start = self.start;
        self.put(0, &start);
        for number in 0..handler.graph.places().len() {
            self.settle(number);
            self.leave(handler, number);
        }
    }

    fn run(&mut self, handler: &Handler<'_>)
        requires { IsTree handler.now.graph handler.now.tree }
    {
        for sweep in 0..MOST_SWEEPS {
            self.gives_up = SWEEPS_THAT_JOIN <= sweep;
            self.sweep(handler);
            if !self.changed {
                return;
            }
        }
    }

    fn known_at(&self, number: usize) -> Knowledge {
        match self.found.get(number) {
            Some(Some(known)) => *known,
            _ => self.start,
        }
    }
}

fn search_in(alloc: Global, handler: &Handler<'_>, given: &[Given]) -> Result<Search, AllocError> {
    let around = loops_around(alloc, handler)?;
    let headers = headers_in(alloc, handler, &around)?;
    Ok(Search {
        start: Knowledge::given(given),
        numbers: numbers_in(alloc, handler)?,
        around,
        loops: loops_in(alloc, handler)?,
        headers,
        found: vec![in alloc; None; handler.graph.places().len()]?,
        gives_up: false,
        changed: false,
    })
}

/// A table of what may be known of the registers before each place's word, by the numbers of the places and
/// from facts on registers before the first step, for `left_on_trust` to check: nothing is claimed of it but
/// its length.
///
/// It takes time linear in the edges, and in the places of each loop.
///
/// # Errors
///
/// An allocation failed.
pub fn proposed(
    alloc: Global,
    handler: &Handler<'_>,
    given: &[Given],
) -> Result<Vec<Knowledge>, AllocError>
    requires { IsTree handler.now.graph handler.now.tree }
    ensures { IfOk result (λ table. length table.items ≡ length handler.now.graph.places) }
{
    let places = handler.graph.places().len();
    let mut search = search_in(alloc, handler, given)?;
    search.run(handler);
    let mut table = Vec::with_capacity(alloc, places)?;
    for number in 0..places {
        table.push(search.known_at(number))?;
    }
    Ok(table)
}
