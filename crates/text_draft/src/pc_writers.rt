ghost use Rattle.std.specs.Prelude.{◌≡◌, ◌↔◌, ℕ, List, true, false, All, IfOk, IsTrue, OnOk};
ghost use Rattle.text_draft.specs.Begun.{has_target};
ghost use Rattle.text_draft.specs.Found.{addresses_of};
ghost use Rattle.text_draft.specs.Picks.{Keeps};
ghost use Rattle.text_draft.specs.Targets.{AnySetsLink, ArePending, AreTargets, IsTarget, IsWay};
ghost use Rattle.text_draft.specs.Targets.{LeadsOddly, Returns, SetsLink, WritesPc, any_left, any_open};
ghost use Rattle.text_draft.specs.Targets.{is_open, leaves_open};

use crate::begun::Begun;
use crate::ways::{has_return_address, table_len};
use crate::word_actions::action_at;
use bus_ticks::ahead_of;
use control_flow::Kind;
use image::Image;
use std::alloc::{AllocError, Global};
use word_shapes::{is_odd_writer_at, may_keep_return_address_at, may_set_link_by_pc_at};

/// What the words show of where a word leads that writes R15.
#[derive(Clone, Copy)]
pub enum Way {
    /// Back.
    Return,
    /// Elsewhere inside its routine.
    Jump,
    /// Into a routine, since the word before puts the return address into R14.
    Call,
}

/// A word that writes R15, other than a branch or a call.
#[derive(Clone, Copy)]
pub struct FoundTarget {
    pub at: u32,
    pub way: Way,
    /// How many branches there are from 8 bytes on, where it jumps into them.
    pub branches: u32,
}

// Whether the image has a word there that writes R15 and is not under NV.
fn writes_pc_at(image: &Image, at: u32) -> bool
    ensures yes { result ≡ true → WritesPc image.now at }
    ensures no { WritesPc image.now at → result ≡ true }
{
    match action_at(image, at) {
        Some(action) => match action.kind {
            Kind::Writer => !action.cond.is_never(),
            _ => false,
        },
        None => false,
    }
}

// Whether such a word does not look like a return.
fn leads_oddly(image: &Image, at: u32) -> bool
    ensures { IsTrue result ↔ LeadsOddly image.now at }
{
    writes_pc_at(image, at) && is_odd_writer_at(image, at)
}

// Whether the word may put an address of its own into R14, and not for a word that may call.
fn sets_link(image: &Image, at: u32) -> bool
    ensures { IsTrue result ↔ SetsLink image.now at }
{
    if may_set_link_by_pc_at(image, at) {
        return true;
    }
    may_keep_return_address_at(image, at) && !leads_oddly(image, ahead_of(at, 4))
}

// Whether one of the addresses has such a word.
fn any_sets_link(image: &Image, addresses: &[u32]) -> bool
    ensures { IsTrue result ↔ AnySetsLink image.now addresses.now }
{
    for at in addresses {
        if sets_link(image, *at) {
            return true;
        }
    }
    false
}

// Whether the word looks like a return, where returns may be trusted or not.
fn is_return_at(image: &Image, at: u32, trusted: bool) -> bool
    ensures { (addresses : List ℕ) → (IsTrue trusted ↔ (AnySetsLink image.now addresses → ⊥))
        → (IsTrue result ↔ Returns image.now addresses at) }
{
    trusted & !is_odd_writer_at(image, at)
}

// What the word shows of where it leads.
fn way_at(image: &Image, at: u32, trusted: bool) -> Way
    ensures { (addresses : List ℕ) → (IsTrue trusted ↔ (AnySetsLink image.now addresses → ⊥))
        → IsWay image.now addresses at result }
{
    if is_return_at(image, at, trusted) {
        return Way::Return;
    }
    if has_return_address(image, at) {
        Way::Call
    } else {
        Way::Jump
    }
}

// Takes an address whose word writes R15.
fn keep_target(
    found: &mut Vec<FoundTarget>,
    image: &Image,
    at: u32,
    trusted: bool,
) -> Result<(), AllocError>
    ensures kept { OnOk result
        (Keeps (WritesPc image.now) at (addresses_of found.old.items) (addresses_of found.new.items)) }
    ensures shown { OnOk result
        ((addresses : List ℕ) → (IsTrue trusted ↔ (AnySetsLink image.now addresses → ⊥))
        → All (IsTarget image.now addresses) found.old.items
        → All (IsTarget image.now addresses) found.new.items) }
{
    if !writes_pc_at(image, at) {
        return Ok(());
    }
    let way = way_at(image, at, trusted);
    let branches = table_len(image, at);
    found.push(FoundTarget { at, way, branches })?;
    Ok(())
}

/// Those of the addresses whose words write R15 and are not under NV, in their order. None is taken for a
/// return where one of the addresses has a word that puts an address of its own into R14.
pub(crate) fn find_targets(
    alloc: Global,
    image: &Image,
    addresses: &[u32],
) -> Result<Vec<FoundTarget>, AllocError>
    ensures { IfOk result (λ found. AreTargets image.now addresses.now found.items) }
{
    let trusted = !any_sets_link(image, addresses);
    let mut found = Vec::new(alloc);
    for at in addresses {
        keep_target(&mut found, image, *at, trusted)?;
    }
    Ok(found)
}

impl FoundTarget {
    // Whether where it leads is left open.
    fn is_open(&self) -> bool
        ensures { result ≡ is_open self.now }
    {
        !matches!(self.way, Way::Return)
    }
}

/// Whether it is left open where one of them leads.
pub(crate) fn any_open(targets: &[FoundTarget]) -> bool
    ensures { result ≡ any_open targets.now }
{
    targets.iter().any(|target| target.is_open())
}

/// Whether that is so, or of a stated target.
pub(crate) fn any_left(begun: &Begun<'_>, targets: &[FoundTarget]) -> bool
    ensures { result ≡ any_left begun.now targets.now }
{
    begun.any_open() | any_open(targets)
}

/// Whether that is so, or more may be reached than was looked at.
pub(crate) fn leaves_open(full: bool, begun: &Begun<'_>, targets: &[FoundTarget]) -> bool
    ensures { result ≡ leaves_open full begun.now targets.now }
{
    full | any_left(begun, targets)
}

// Takes a word for which no target is stated.
fn keep_pending(
    pending: &mut Vec<FoundTarget>,
    begun: &Begun<'_>,
    found: &FoundTarget,
) -> Result<(), AllocError>
    ensures { OnOk result
        (Keeps (λ t. has_target begun.now t ≡ false) found.now pending.old.items pending.new.items) }
{
    if begun.has_target(found) {
        return Ok(());
    }
    pending.push(*found)?;
    Ok(())
}

/// Those of the words for which no target is stated, in their order.
pub(crate) fn pending_targets(
    alloc: Global,
    begun: &Begun<'_>,
    writers: &[FoundTarget],
) -> Result<Vec<FoundTarget>, AllocError>
    ensures { IfOk result (λ pending. ArePending begun.now writers.now pending.items) }
{
    let mut pending = Vec::new(alloc);
    for found in writers {
        keep_pending(&mut pending, begun, found)?;
    }
    Ok(pending)
}
