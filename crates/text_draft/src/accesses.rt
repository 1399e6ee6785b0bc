ghost use Rattle.std.specs.Prelude.{◌≡◌, ◌⊎◌, true, false, All, IfOk, IfSome, OnOk, Some};
ghost use Rattle.text_draft.specs.Accesses.{AreAccesses, AreUnclassed, HasBase, IsByPc, RestsOn};
ghost use Rattle.text_draft.specs.Accesses.{RestsOnWord, base_used, places_of};
ghost use Rattle.text_draft.specs.Begun.{has_class};
ghost use Rattle.text_draft.specs.Picks.{Keeps};
ghost use Rattle.arm2_decode.specs.Writers.{is_transfer};
ghost use Rattle.arm2_transfer.specs.Registers.{address_by};
ghost use Rattle.bus_ticks.specs.Prices.{ahead_of, narrowest_class};
ghost use Rattle.bus_ticks.specs.declared.profile.Class.{Class};
ghost use Rattle.word_shapes.specs.Words.{MayDo};

use crate::begun::Begun;
use crate::constants::{Constants, Literals};
use crate::grounds::Ground;
use crate::reach::Reached;
use crate::ways::before;
use arm2_decode::{Block, Instr, Operation, Register, SingleImmediate};
use arm2_transfer::address_by;
use bus_ticks::{Class, SPACE_END, ahead_of, class_of, narrowest_class};
use control_flow::base_of;
use image::Image;
use std::alloc::{AllocError, Global};
use word_shapes::instr_at;

/// A word that loads or stores.
#[derive(Clone, Copy)]
pub struct FoundAccess {
    pub at: u32,
    /// Its base register.
    pub base: Register,
    /// The class of what it transfers.
    pub class: Class,
    /// What that rests on: a pattern until it is looked at.
    pub basis: Ground,
}

// The narrowest class of both addresses, where they are of one.
fn class_from(first: u32, last: u32) -> Class
    ensures { (first ≡ last) → (result ≡ Class.Any) ⊎ (result ≡ narrowest_class first) }
{
    if first >= SPACE_END || last >= SPACE_END {
        return Class::Any;
    }
    let narrow = narrowest_class(first);
    if narrow == narrowest_class(last) {
        return narrow;
    }
    let class = class_of(first);
    if class == class_of(last) {
        class
    } else {
        Class::Any
    }
}

fn single_class(known: &Constants, at: u32, x: &SingleImmediate) -> Class {
    let Some(base) = known.get(x.rn, at) else {
        return Class::Any;
    };
    let address = address_by(x.before, x.up, base, x.offset);
    class_from(address, address)
}

fn block_class(known: &Constants, at: u32, x: &Block) -> Class {
    let Some(base) = known.get(x.rn, at) else {
        return Class::Any;
    };
    let bytes = 4 * x.word_count();
    if x.up {
        class_from(base, base.wrapping_add(bytes))
    } else {
        class_from(base.wrapping_sub(bytes), base)
    }
}

// The class of what an operation transfers, where the words show its address; else any.
fn class_shown(known: &Constants, at: u32, operation: &Operation) -> Class {
    if let Operation::SingleImmediate(x) = operation {
        return single_class(known, at, x);
    }
    let Operation::Block(x) = operation else {
        return Class::Any;
    };
    block_class(known, at, x)
}

// The address so many bytes from PC.
fn address_by_pc(at: u32, x: &SingleImmediate) -> u32
    ensures { result ≡ address_by x.now.before x.now.up (ahead_of at 8) x.now.offset }
{
    address_by(x.before, x.up, ahead_of(at, 8), x.offset)
}

/// The class that an operation shows by itself: the narrowest of an address so many bytes from PC.
pub(crate) fn shown_by_pc(at: u32, operation: &Operation) -> Option<Class>
    ensures some { IfSome result (IsByPc at operation.now) }
    ensures only { (class : Class) → IsByPc at operation.now class → result ≡ Some class }
{
    let Operation::SingleImmediate(x) = operation else {
        return None;
    };
    if !x.rn.is_pc() {
        return None;
    }
    Some(narrowest_class(address_by_pc(at, x)))
}

// The class of what an operation transfers, where it shows the address by itself; else any.
fn class_by_pc(at: u32, operation: &Operation) -> Class
    ensures { RestsOn at operation.now result }
{
    let Operation::SingleImmediate(x) = operation else {
        return Class::Any;
    };
    if !x.rn.is_pc() {
        return Class::Any;
    }
    let address = address_by_pc(at, x);
    class_from(address, address)
}

// The class of what is transferred at an address, by the words in front too or by the word alone.
fn class_at(image: &Image, known: &Constants, at: u32, by_word: bool) -> Class
    ensures { by_word ≡ true → RestsOnWord image.now at result }
{
    let Some(instr) = instr_at(image, at) else {
        return Class::Any;
    };
    if by_word {
        class_by_pc(at, &instr.operation)
    } else {
        class_shown(known, at, &instr.operation)
    }
}

/// The base register of an instruction that loads or stores, and is not under NV.
pub(crate) fn base_used(instr: &Instr) -> Option<Register>
    ensures { result ≡ base_used instr.now }
{
    if instr.cond.is_never() {
        None
    } else {
        base_of(&instr.operation)
    }
}

// That of the word at an address.
fn base_at(image: &Image, at: u32) -> Option<Register>
    ensures some { IfSome result (HasBase image.now at) }
    ensures only { (register : Register) → HasBase image.now at register → result ≡ Some register }
{
    match instr_at(image, at) {
        Some(instr) => base_used(&instr),
        None => None,
    }
}

// Takes an address whose word loads or stores, and is not under NV.
fn keep_access(
    found: &mut Vec<FoundAccess>,
    image: &Image,
    known: &Constants,
    at: u32,
    by_word: bool,
) -> Result<(), AllocError>
    ensures kept { OnOk result
        (Keeps (MayDo is_transfer image.now) at (places_of found.old.items) (places_of found.new.items)) }
    ensures bases { OnOk result
        (All (λ e. HasBase image.now e.at e.base) found.old.items
        → All (λ e. HasBase image.now e.at e.base) found.new.items) }
    ensures rest { OnOk result
        ((by_word ≡ true → All (λ e. RestsOnWord image.now e.at e.class) found.old.items)
        → by_word ≡ true → All (λ e. RestsOnWord image.now e.at e.class) found.new.items) }
{
    let Some(base) = base_at(image, at) else {
        return Ok(());
    };
    let class = class_at(image, known, at, by_word);
    found.push(FoundAccess {
        at,
        base,
        class,
        basis: Ground::Pattern,
    })?;
    Ok(())
}

// What is known where control goes on from an address to the next.
fn passed(image: &Image, literals: &Literals<'_>, known: Constants, at: u32) -> Constants {
    let mut known = known;
    if let Some(instr) = instr_at(image, at) {
        known.pass(literals, at, &instr);
    }
    known
}

/// Those of the addresses whose words load or store and are not under NV, in their order, each with the class
/// of what it transfers where the words in front of it show it, or only the word itself. Of the first no
/// clause says that the class is right: that is tested.
pub(crate) fn find_accesses(
    alloc: Global,
    image: &Image,
    reach: &Reached,
    addresses: &[u32],
    by_word: bool,
) -> Result<Vec<FoundAccess>, AllocError>
    ensures { IfOk result (λ found. AreAccesses image.now addresses.now by_word found.items) }
{
    let mut found = Vec::new(alloc);
    let mut known = Constants::none();
    let literals = Literals::of(alloc, image, addresses)?;
    for at in addresses {
        if !reach.follows_alone(*at, before(*at)) {
            known = Constants::none();
        }
        keep_access(&mut found, image, &known, *at, by_word)?;
        known = passed(image, &literals, known, *at);
    }
    Ok(found)
}

// Takes a load or store for which no class is stated.
fn keep_unclassed(
    unclassed: &mut Vec<FoundAccess>,
    begun: &Begun<'_>,
    found: &FoundAccess,
) -> Result<(), AllocError>
    ensures { OnOk result
        (Keeps (λ e. has_class begun.now e ≡ false) found.now unclassed.old.items unclassed.new.items) }
{
    if begun.has_class(found) {
        return Ok(());
    }
    unclassed.push(*found)?;
    Ok(())
}

/// Those of the loads and stores for which no class is stated, in their order.
pub(crate) fn unclassed_of(
    alloc: Global,
    begun: &Begun<'_>,
    transfers: &[FoundAccess],
) -> Result<Vec<FoundAccess>, AllocError>
    ensures { IfOk result (λ unclassed. AreUnclassed begun.now transfers.now unclassed.items) }
{
    let mut unclassed = Vec::new(alloc);
    for found in transfers {
        keep_unclassed(&mut unclassed, begun, found)?;
    }
    Ok(unclassed)
}
