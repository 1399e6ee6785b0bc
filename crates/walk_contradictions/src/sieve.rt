//! The edges of a walk that may take part in a contradiction. Most words are under AL and set no flags: what
//! these tell clashes with nothing but a condition that no flags give.

ghost use Rattle.std.specs.Prelude.{◌∷◌, [], IfOk, OnOk};
ghost use Rattle.longest_walk.specs.Folded.{open_item, unfolded};
ghost use Rattle.walk_contradictions.specs.Sieve.{IsSieve, Sifts};
ghost use Rattle.std.specs.List.{repeat};

use crate::passing::told_at;
use control_flow::Edge;
use image::Image;
use longest_walk::Item;
use std::alloc::{AllocError, Global};
use std::rc::Rc;

/// A walk but for edges under AL that leave the flags.
#[derive(Drop)]
pub(crate) struct Sieve {
    pub items: Vec<Item>,
    /// Whether flags give what each of them tells.
    pub possible: bool,
}

impl Sieve {
    // Adds an edge, unless nothing that is possible clashes with what it tells.
    fn add_step(&mut self, image: &Image, edge: &Edge) -> Result<(), AllocError>
        ensures { OnOk result (Sifts image.now (edge.now ∷ []) self.old self.new) }
    {
        let telling = told_at(image, edge);
        if telling.is_idle() {
            return Ok(());
        }
        self.possible = self.possible & telling.is_possible();
        self.items.push(Item::Step(*edge))?;
        Ok(())
    }

    #[cycle(sieve)]
    fn add_rounds(&mut self, image: &Image, rounds: u32, body: &[Item]) -> Result<(), AllocError>
        ensures { OnOk result (Sifts image.now (repeat rounds (unfolded body.now)) self.old self.new) }
    {
        let alloc = *self.items.allocator();
        let inner = Sieve::of(alloc, image, body)?;
        self.possible = self.possible & inner.possible;
        self.items
            .push(Item::Repeat(rounds, Rc::new(alloc, inner.items)?))?;
        Ok(())
    }

    #[cycle(sieve)]
    fn add(&mut self, image: &Image, item: &Item) -> Result<(), AllocError>
        ensures { OnOk result (Sifts image.now (open_item item.now).walk self.old self.new) }
    {
        match item {
            Item::Step(edge) => self.add_step(image, edge),
            Item::Repeat(rounds, body) => self.add_rounds(image, *rounds, body),
        }
    }

    /// The edges of items. `AllocError`: an allocation failed.
    #[cycle(sieve)]
    pub(crate) fn of(alloc: Global, image: &Image, items: &[Item]) -> Result<Sieve, AllocError>
        ensures { IfOk result (IsSieve image.now (unfolded items.now)) }
    {
        let mut sieve = Sieve {
            items: Vec::new(alloc),
            possible: true,
        };
        for number in 0..items.len() {
            sieve.add(image, &items[number])?;
        }
        Ok(sieve)
    }
}
