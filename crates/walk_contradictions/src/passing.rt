//! What outcomes a walk carries along, forward and back, and where they clash.

ghost use Rattle.std.specs.Prelude.{◌≡◌, ◌↔◌, ◌⊎◌, ◌<◌, ◌≤◌, ℕ, IsTrue, OnOk, Some, true};
ghost use Rattle.std.specs.Prelude.{length, slice_index_or};
ghost use Rattle.std.specs.BTreeSet.{contains};
ghost use Rattle.std.specs.List.{repeat};
ghost use Rattle.std.specs.Ordering.{nat_cmp};
ghost use Rattle.control_flow.specs.declared.edges.Edge.{Edge};
ghost use Rattle.image.specs.Image.{Words};
ghost use Rattle.longest_walk.specs.Folded.{unfolded};
ghost use Rattle.longest_walk.specs.declared.folded.Item.{Item};
ghost use Rattle.text_explained.specs.Leaving.{is_done};
ghost use Rattle.text_explained.specs.Taken.{is_at};
ghost use Rattle.walk_contradictions.specs.Outcomes.{may_set_flags};
ghost use Rattle.walk_contradictions.specs.Passing.{After, Clashes, Has, In, IsTelling, Marks, Met, Next};
ghost use Rattle.walk_contradictions.specs.Passing.{Notes};
ghost use Rattle.walk_contradictions.specs.Passing.{TellsSo, has, in_order, walk_of};
ghost use Rattle.walk_contradictions.specs.Sieve.{IsIdle, IsPossible};
ghost use Rattle.walk_contradictions.specs.declared.outcomes.Outcome.{Outcome};

use crate::outcomes::{Outcome, Outcomes};
use arm2_decode::{Operation, decode};
use control_flow::{Edge, Label, Place};
use image::Image;
use longest_walk::Item;
use std::alloc::AllocError;
use std::collections::BTreeSet;

/// From a walk's first edge on, or from its last one back.
#[derive(Clone, Copy)]
pub(crate) enum Direction {
    Forward,
    Backward,
}

fn is_done(label: Label) -> bool
    ensures { result ≡ is_done label }
{
    match label {
        Label::Do => true,
        Label::Skip => false,
    }
}

fn may_set_flags(operation: &Operation) -> bool
    ensures { result ≡ may_set_flags operation.now }
{
    match operation {
        Operation::Multiply(x) => x.sets_flags,
        Operation::DataRegister(x) => x.sets_flags,
        Operation::DataRegisterShift(x) => x.sets_flags,
        Operation::DataImmediate(x) => x.sets_flags,
        Operation::Block(x) => x.user && operation.writes_pc(),
        Operation::SingleImmediate(_)
        | Operation::SingleRegister(_)
        | Operation::Branch(_)
        | Operation::Swi(_)
        | Operation::UndefinedTransfer(_)
        | Operation::CoprocessorTransfer(_)
        | Operation::Coprocessor(_) => false,
    }
}

/// What an edge tells of the flags.
#[derive(Clone, Copy)]
pub(crate) struct Telling {
    // How the condition of its word comes out, if the image has the word.
    outcome: Option<Outcome>,
    // Whether the word is carried out there and may set the flags.
    sets: bool,
}

// What a word tells where it is carried out, or where it is not.
fn told_by(word: u32, done: bool) -> Telling
    ensures { TellsSo word done result }
{
    match decode(word) {
        Ok(instr) => Telling {
            outcome: Some(Outcome {
                cond: instr.cond,
                holds: done,
            }),
            sets: done & may_set_flags(&instr.operation),
        },
        Err(unallocated) => Telling {
            outcome: Some(Outcome {
                cond: unallocated.cond,
                holds: done,
            }),
            sets: false,
        },
    }
}

pub(crate) fn told_at(image: &Image, edge: &Edge) -> Telling
    ensures { IsTelling image.now edge.now result }
{
    match image.word_at(edge.from.address()) {
        Some(word) => told_by(word, is_done(edge.label)),
        None => Telling {
            outcome: None,
            sets: false,
        },
    }
}

impl Telling {
    /// Whether its word is under AL and carried out, and does not set the flags.
    pub(crate) fn is_idle(&self) -> bool
        ensures { IsTrue result → (words : Words) (e : Edge) → IsTelling words e self.now → IsIdle words e }
    {
        if self.sets {
            return false;
        }
        match self.outcome {
            Some(outcome) => outcome.is_always(),
            None => false,
        }
    }

    /// Whether some flags give what it tells.
    pub(crate) fn is_possible(&self) -> bool
        ensures { IsTrue result → (words : Words) (e : Edge) → IsTelling words e self.now → IsPossible words e }
    {
        match self.outcome {
            Some(outcome) => outcome.is_possible(),
            None => true,
        }
    }

    // The set with what the edge tells.
    fn joined_to(&self, set: &Outcomes) -> Outcomes
        ensures { (o : Outcome) → (has result o ≡ true)
            ↔ ((has set.now o ≡ true) ⊎ (self.now.outcome ≡ Some o)) }
    {
        match self.outcome {
            Some(outcome) => set.with(outcome),
            None => *set,
        }
    }

    // Those of the set, or none where the edge's word may set the flags.
    fn left_of(&self, set: &Outcomes) -> Outcomes
        ensures { (o : Outcome) → (has result o ≡ true)
            ↔ ((self.now.sets ≡ true → ⊥) × (has set.now o ≡ true)) }
    {
        if self.sets {
            return Outcomes::none();
        }
        *set
    }

    // The outcomes after the edge.
    fn next(&self, direction: Direction, before: &Outcomes) -> Outcomes
        ensures { (words : Words) (e : Edge) → IsTelling words e self.now
            → Has result (Next words direction e (In before.now)) }
    {
        match direction {
            Direction::Forward => self.left_of(&self.joined_to(before)),
            Direction::Backward => self.joined_to(&self.left_of(before)),
        }
    }

    // Those with which that of the edge is compared.
    fn met(&self, direction: Direction, before: &Outcomes) -> Outcomes
        ensures { (words : Words) (e : Edge) → IsTelling words e self.now
            → Has result (Met words direction e (In before.now)) }
    {
        match direction {
            Direction::Forward => *before,
            Direction::Backward => self.left_of(before),
        }
    }

    // Whether the edge tells an outcome that one of those excludes.
    fn clashes(&self, direction: Direction, before: &Outcomes) -> bool
        ensures { (words : Words) (e : Edge) → IsTelling words e self.now
            → IsTrue result ↔ Clashes words direction e (In before.now) }
    {
        let met = self.met(direction, before);
        match self.outcome {
            Some(outcome) => met.excludes(outcome),
            None => false,
        }
    }
}

/// A way through walks over the words of an image.
#[derive(Clone, Copy)]
pub(crate) struct Way<'a> {
    pub image: &'a Image,
    pub direction: Direction,
}

// Where the item lies that comes at so many, in this order.
fn place_at(direction: Direction, items: &[Item], number: usize) -> usize
    requires { number < length items.now }
    ensures inside { result < length items.now }
    ensures item { (d : Item) → slice_index_or items.now result d
        ≡ slice_index_or (in_order direction items.now) number d }
{
    match direction {
        Direction::Forward => number,
        Direction::Backward => items.len() - 1 - number,
    }
}

// The outcomes of those before rounds of a body and of those after it with which a round may begin.
fn before_rounds(rounds: u32, before: &Outcomes, after: &Outcomes) -> Outcomes
    ensures once { rounds ≡ 1 → Has result (In before.now) }
    ensures more { 2 ≤ rounds → Has result (λ o. In before.now o ⊎ In after.now o) }
{
    if rounds == 1 {
        return *before;
    }
    before.joined(after)
}

// Adds the address that the edge leaves, if so.
fn note_if(clashes: bool, edge: &Edge, named: &mut BTreeSet<u32>) -> Result<(), AllocError>
    ensures { OnOk result ((a : ℕ) → (contains nat_cmp named.new a ≡ true)
        ↔ ((contains nat_cmp named.old a ≡ true) ⊎ ((is_at a edge.now.from ≡ true) × IsTrue clashes))) }
{
    if !clashes {
        return Ok(());
    }
    let Place::At(_, address) = edge.from else {
        return Ok(());
    };
    named.insert(address)?;
    Ok(())
}

impl Way<'_> {
    // The outcomes after the edge.
    fn next(self, edge: &Edge, before: &Outcomes) -> Outcomes
        ensures { Has result (Next self.entry.image.now self.entry.direction edge.now (In before.now)) }
    {
        told_at(self.image, edge).next(self.direction, before)
    }

    // The outcomes after an item.
    #[cycle(pass)]
    fn pass_item(self, item: &Item, set: &mut Outcomes)
        ensures { Has set.new (After self.entry.image.now self.entry.direction
            (walk_of self.entry.direction item.now) (In set.old)) }
    {
        match item {
            Item::Step(edge) => *set = self.next(edge, set),
            Item::Repeat(rounds, body) => {
                if *rounds != 0 {
                    self.pass_items(body, set);
                }
            }
        }
    }

    // The outcomes after items. A body is gone through once, however often it is taken.
    #[cycle(pass)]
    fn pass_items(self, items: &[Item], set: &mut Outcomes)
        ensures { Has set.new (After self.entry.image.now self.entry.direction
            (in_order self.entry.direction (unfolded items.now)) (In set.old)) }
    {
        for number in 0..items.len() {
            self.pass_item(&items[place_at(self.direction, items, number)], set);
        }
    }

    // Adds the address that the edge leaves, if it clashes. The set is what comes after it.
    fn mark_step(
        self,
        edge: &Edge,
        set: &mut Outcomes,
        named: &mut BTreeSet<u32>,
    ) -> Result<(), AllocError>
        ensures after { OnOk result
            (Has set.new (Next self.entry.image.now self.entry.direction edge.now (In set.old))) }
        ensures notes { OnOk result ((a : ℕ) → (contains nat_cmp named.new a ≡ true)
            ↔ ((contains nat_cmp named.old a ≡ true) ⊎ ((is_at a edge.now.from ≡ true)
            × Clashes self.entry.image.now self.entry.direction edge.now (In set.old)))) }
    {
        let telling = told_at(self.image, edge);
        note_if(telling.clashes(self.direction, set), edge, named)?;
        *set = telling.next(self.direction, set);
        Ok(())
    }

    // Adds the addresses of the edges that clash in rounds of a body.
    #[cycle(mark)]
    fn mark_rounds(
        self,
        rounds: u32,
        body: &[Item],
        set: &mut Outcomes,
        named: &mut BTreeSet<u32>,
    ) -> Result<(), AllocError>
        ensures after { OnOk result (Has set.new (After self.entry.image.now self.entry.direction
            (repeat rounds (in_order self.entry.direction (unfolded body.now))) (In set.old))) }
        ensures notes { OnOk result (Notes (Marks self.entry.image.now self.entry.direction
            (repeat rounds (in_order self.entry.direction (unfolded body.now))) (In set.old))
            (contains nat_cmp named.old) (contains nat_cmp named.new)) }
    {
        if rounds == 0 {
            return Ok(());
        }
        let before = *set;
        self.pass_items(body, set);
        self.mark_items(body, &before_rounds(rounds, &before, set), named)
    }

    // Adds the addresses of the edges of an item that clash. The set is what comes after it.
    #[cycle(mark)]
    fn mark_item(
        self,
        item: &Item,
        set: &mut Outcomes,
        named: &mut BTreeSet<u32>,
    ) -> Result<(), AllocError>
        ensures after { OnOk result (Has set.new (After self.entry.image.now self.entry.direction
            (walk_of self.entry.direction item.now) (In set.old))) }
        ensures notes { OnOk result (Notes (Marks self.entry.image.now self.entry.direction
            (walk_of self.entry.direction item.now) (In set.old))
            (contains nat_cmp named.old) (contains nat_cmp named.new)) }
    {
        match item {
            Item::Step(edge) => self.mark_step(edge, set, named),
            Item::Repeat(rounds, body) => self.mark_rounds(*rounds, body, set, named),
        }
    }

    /// Adds the addresses of the edges of items that clash with one before them on the way. `AllocError`: an
    /// allocation failed.
    #[cycle(mark)]
    pub(crate) fn mark_items(
        self,
        items: &[Item],
        before: &Outcomes,
        named: &mut BTreeSet<u32>,
    ) -> Result<(), AllocError>
        ensures { OnOk result (Notes (Marks self.entry.image.now self.entry.direction
            (in_order self.entry.direction (unfolded items.now)) (In before.now))
            (contains nat_cmp named.old) (contains nat_cmp named.new)) }
    {
        let mut set = *before;
        for number in 0..items.len() {
            self.mark_item(
                &items[place_at(self.direction, items, number)],
                &mut set,
                named,
            )?;
        }
        Ok(())
    }
}
