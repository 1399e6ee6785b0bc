ghost use Rattle.std.specs.Prelude.{◌≡◌, [], IfOk, IfErr, OnOk, Ok, Err, map};
ghost use Rattle.image.specs.Labels.{address_of};
ghost use Rattle.asm_text.specs.Source.{lines_of};
ghost use Rattle.assembler.specs.Assembles.{IsAssembly};
ghost use Rattle.assembler.specs.Sweeps.{assembled, at_first, filled, item_step, resolved, swept};
ghost use Rattle.assembler.specs.Views.{Faulted, FaultedAt, RefusedAt, item_of, pending_of, state_of};

use crate::encoded::encoded;
use crate::fault::{AsmFault, LineFault};
use crate::item::{Item, Pending};
use crate::law::{sources_are_assembled, sources_are_refused};
use crate::reference::refer;
use crate::sweep::Sweep;
use asm_text::first_line;
use image::{Image, ImageFault, Labels};
use std::alloc::Global;

/// The words of a source by their addresses, and the addresses of its labels.
#[derive(Drop)]
pub struct Assembly {
    pub image: Image,
    pub labels: Labels,
}

// The word of an item, where the labels are known.
fn resolved(labels: &Labels, item: Item<'_>) -> Result<u32, LineFault>
    ensures { result ≡ resolved (address_of labels.now) item.entry.at (pending_of item.entry.pending) }
{
    match item.pending {
        Pending::Fixed(word) => Ok(word),
        Pending::Waits(reference, name) => match labels.get(name) {
            Some(target) => encoded(refer(reference, item.at, target), item.at),
            None => Err(LineFault::LabelMissing),
        },
        Pending::Address(name) => match labels.get(name) {
            Some(address) => Ok(address),
            None => Err(LineFault::LabelMissing),
        },
    }
}

fn put(alloc: Global, image: &mut Image, labels: &Labels, item: Item<'_>) -> Result<(), AsmFault>
    ensures ok { OnOk result
        (item_step (address_of labels.now) image.old (item_of item.entry) ≡ Ok image.new) }
    ensures fault { IfErr result
        (λ fault. Faulted fault item.entry.line
        (item_step (address_of labels.now) image.old (item_of item.entry))) }
{
    let word = match resolved(labels, item) {
        Ok(word) => word,
        Err(fault) => return Err(AsmFault::Line(fault, item.line)),
    };
    match image.put(alloc, item.at, word) {
        Ok(()) => Ok(()),
        Err(ImageFault::Memory) => Err(AsmFault::Memory),
        Err(ImageFault::OutOfRange) => Err(AsmFault::Line(LineFault::OutOfRange, item.line)),
        Err(ImageFault::TooLong) => Err(AsmFault::Line(LineFault::TooLong, item.line)),
    }
}

// The second sweep: the image of all items.
#[tactic(auto, using(crate::proofs::SweepLaws::filled_more), unfolding(crate::specs::Sweeps::filled))]
fn fill(alloc: Global, labels: &Labels, items: &[Item<'_>]) -> Result<Image, AsmFault>
    ensures ok { IfOk result (λ image. filled (address_of labels.now) [] (map item_of items.now) ≡ Ok image) }
    ensures fault { IfErr result
        (λ fault. FaultedAt fault (filled (address_of labels.now) [] (map item_of items.now))) }
{
    let mut image = Image::new(alloc);
    for item in items {
        put(alloc, &mut image, labels, *item)?;
    }
    Ok(image)
}

// The first sweep, after all lines.
#[tactic(auto, using(crate::proofs::SweepLaws::swept_more), unfolding(crate::specs::Sweeps::swept))]
fn swept_source<'a>(alloc: Global, source: &'a [u8]) -> Result<Sweep<'a>, AsmFault>
    ensures ok { IfOk result (λ s. swept at_first 1 (lines_of source.now) ≡ Ok (state_of s)) }
    ensures fault { IfErr result (λ fault. FaultedAt fault (swept at_first 1 (lines_of source.now))) }
{
    let mut sweep = Sweep::new(alloc);
    let mut rest = source;
    let mut number = 1;
    while let Some((text, after)) = first_line(rest) {
        sweep.read(alloc, number, text)?;
        rest = after;
        number += 1;
    }
    Ok(sweep)
}

/// Assembles a source.
///
/// The first word is at 8000, or where an ORG says; each further one after the last.
///
/// # Errors
///
/// The lines are gone through twice, the second time for what refers to a label. The first line at fault in
/// the first pass is answered, else the first in the second; of several faults of a line the first in the
/// order of [`LineFault`]. `Memory`: an allocation failed.
pub fn assemble(alloc: Global, source: &[u8]) -> Result<Assembly, AsmFault>
    ensures ok { IfOk result (λ a. assembled source.now ≡ Ok (a.image, address_of a.labels)) }
    ensures means { IfOk result (λ a. IsAssembly source.now a.image (address_of a.labels)) }
    ensures fault { IfErr result (λ fault. FaultedAt fault (assembled source.now)) }
    ensures refused { IfErr result (λ fault. RefusedAt source.now fault) }
{
    sources_are_assembled();
    sources_are_refused();
    let sweep = swept_source(alloc, source)?;
    let image = fill(alloc, &sweep.labels, &sweep.items)?;
    Ok(Assembly {
        image,
        labels: sweep.labels,
    })
}
