ghost use Rattle.std.specs.Prelude.{◌≡◌, ◌<◌, ◌+◌, ◌-◌, ◌%◌, ◌^◌, ◌++◌, ◌∷◌, [], ℕ, List, length, true};
ghost use Rattle.std.specs.Prelude.{IfOk, IfSome, IsTrue, OnOk};
ghost use Rattle.arm2_decode.specs.Table.{Means};
ghost use Rattle.arm2_decode.specs.Writers.{data_writes_pc};
ghost use Rattle.arm2_effect.specs.Operands.{current_in};
ghost use Rattle.control_flow.specs.Graph.{IsFlowGraph};
ghost use Rattle.loop_bounds.specs.Handler.{HasItsTree};
ghost use Rattle.known_words.specs.Known.{IsSum};
ghost use Rattle.known_places.specs.Destinations.{AreDestinations, IsKnownTo, JumpsTo};
ghost use Rattle.known_places.specs.Destinations.{PlaceGoesTo, WordGoesTo, destination_at};

use crate::table::holds_along;
use arm2_decode::{DataImmediate, DataRegister, Instr, Operation, Register, decode};
use arm2_effect::address_of;
use control_flow::{Place, graphs_are_well_formed};
use known_words::{Given, Knowledge, Known, Start, Steps, Sum, Word, computed, narrowed, rotated};
use loop_bounds::{Handler, place_in};
use std::alloc::{AllocError, Global};

/// Where a word goes that writes R15.
#[derive(Clone, Copy, Debug, PartialEq, Eq)]
pub enum Destination {
    /// It is not seen.
    Unknown,
    /// An address, in bytes.
    To(u32),
    /// The address in R14 of the entry's mode at the entry, less so many bytes, on 32 bits.
    LinkLess(u32),
}

const NO_STEPS: Steps = Steps {
    outermost: 0,
    second: 0,
    third: 0,
    fourth: 0,
};

// Whether it is R14 at the entry and a number, in each turn.
fn is_from_link(sum: Sum) -> bool
    ensures { IsTrue result → (entry turns : List ℕ) → (word : ℕ) → IsSum entry turns sum word
        → word ≡ (current_in Register.R14 entry + sum.least) % 2 ^ 32 }
{
    sum.start == Start::Entry(Register::R14) && sum.width == 0 && sum.steps == NO_STEPS
}

// What to take off instead of adding the number, on 32 bits.
fn negated(number: u32) -> u32
    ensures { (word : ℕ) → (word + number) % 2 ^ 32 ≡ (word + (2 ^ 32 - result)) % 2 ^ 32 }
{
    0_u32.wrapping_sub(number)
}

fn destination_of_word(word: Word) -> Destination
    ensures { IsKnownTo (Known.Word word) result }
{
    if is_from_link(word.sum) {
        return Destination::LinkLess(negated(word.sum.least));
    }
    if word.range.low == word.range.high {
        return Destination::To(address_of(word.range.low));
    }
    Destination::Unknown
}

// Where a known word leads that enters R15.
fn destination_of(known: Known) -> Destination
    ensures { IsKnownTo known result }
{
    match known {
        Known::Any => Destination::Unknown,
        Known::Address(address) => Destination::To(address),
        Known::Word(word) => destination_of_word(word),
    }
}

fn register_jumps(x: &DataRegister, address: u32, known: &Knowledge) -> Destination
    requires { data_writes_pc x.now.opcode x.now.rd ≡ true }
    ensures { JumpsTo (Operation.DataRegister x.now) address known.now result }
{
    let first = known.first_of(8, x.rn, address);
    let operand = known.shifted_of(x.shift, x.amount, x.rm, address);
    destination_of(computed(x.opcode, first, operand))
}

fn immediate_jumps(x: &DataImmediate, address: u32, known: &Knowledge) -> Destination
    requires { data_writes_pc x.now.opcode x.now.rd ≡ true }
    ensures { JumpsTo (Operation.DataImmediate x.now) address known.now result }
{
    let first = known.first_of(8, x.rn, address);
    let operand = Known::exactly(rotated(x.value, x.rotation));
    destination_of(computed(x.opcode, first, operand))
}

// Where the instruction at the address goes, by what is known before it.
fn jumps_to(operation: &Operation, address: u32, known: &Knowledge) -> Destination
    ensures { JumpsTo operation.now address known.now result }
{
    if !operation.writes_pc() {
        return Destination::Unknown;
    }
    match operation {
        Operation::DataRegister(x) => register_jumps(x, address, known),
        Operation::DataImmediate(x) => immediate_jumps(x, address, known),
        _ => Destination::Unknown,
    }
}

fn instr_goes_to(instr: &Instr, address: u32, before: &Knowledge) -> Destination
    ensures { (word : ℕ) → Means word instr.now → WordGoesTo word address before.now result }
{
    jumps_to(
        &instr.operation,
        address,
        &narrowed(before, instr.cond, true),
    )
}

// Where the word at the address goes, where it is done.
fn goes_to(word: u32, address: u32, before: &Knowledge) -> Destination
    ensures { WordGoesTo word address before.now result }
{
    match decode(word) {
        Ok(instr) => instr_goes_to(&instr, address, before),
        Err(_) => Destination::Unknown,
    }
}

fn destination_in(handler: &Handler<'_>, table: &[Knowledge], number: usize) -> Destination
    requires { number < length table.now }
    ensures { PlaceGoesTo handler.now.image.now handler.now.graph handler.now.tree table.now number result }
{
    let Place::At(_, address) = place_in(&handler.graph, &handler.tree, number) else {
        return Destination::Unknown;
    };
    let Some(word) = handler.image.word_at(address) else {
        return Destination::Unknown;
    };
    goes_to(word, address, &table[number])
}

// Adds where the word at the place of a number goes.
fn put_destination(
    found: &mut Vec<Destination>,
    handler: &Handler<'_>,
    table: &[Knowledge],
    number: usize,
) -> Result<(), AllocError>
    requires { number < length table.now }
    ensures { OnOk result ((destination : Destination)
        × (found.new.items ≡ found.old.items ++ destination ∷ [])
        × PlaceGoesTo handler.entry.now.image.now handler.entry.now.graph handler.entry.now.tree table.entry.now
        number destination) }
{
    let destination = destination_in(handler, table, number);
    found.push(destination)?;
    Ok(())
}

fn destinations_in(
    alloc: Global,
    handler: &Handler<'_>,
    table: &[Knowledge],
) -> Result<Vec<Destination>, AllocError>
    ensures whole { IfOk result (λ found. length found.items ≡ length table.now) }
    ensures each { IfOk result (λ found. (number : ℕ) → number < length table.now
        → PlaceGoesTo handler.now.image.now handler.now.graph handler.now.tree table.now number
        (destination_at found.items number)) }
{
    let mut found = Vec::new(alloc);
    for number in 0..table.len() {
        put_destination(&mut found, handler, table, number)?;
    }
    Ok(found)
}

/// Where the word of each place goes that writes R15, by facts on registers before the first step and by a
/// table of what is known of the registers before each place's word; both lists are by the numbers of the
/// places. It holds where the word is done, in each run from the entry that starts as the facts say and so
/// far keeps the statement step by step but for its classes and its loops' bounds. It is seen of data
/// processing alone, and so of no load. None where the table is not seen to hold along each edge, as in
/// `left_on_trust`.
///
/// It takes time linear in the edges, the facts and the loops, and in the places of each loop.
///
/// # Errors
///
/// An allocation failed.
pub fn destinations(
    alloc: Global,
    handler: &Handler<'_>,
    given: &[Given],
    table: &[Knowledge],
) -> Result<Option<Vec<Destination>>, AllocError>
    requires graph { IsFlowGraph handler.now.image.now handler.now.statement handler.now.graph.profile
        handler.now.graph }
    requires tree { HasItsTree handler.now }
    ensures whole { IfOk result (λ found. IfSome found (λ list.
        length list.items ≡ length handler.now.graph.places)) }
    ensures each { IfOk result (λ found. IfSome found (λ list. AreDestinations handler.now.image.now
        handler.now.statement handler.now.graph handler.now.tree given.now list.items)) }
{
    let Some(around) = holds_along(alloc, handler, given, table)? else {
        return Ok(None);
    };
    let _ = around;
    graphs_are_well_formed(&handler.graph);
    let found = destinations_in(alloc, handler, table)?;
    Ok(Some(found))
}
