ghost use Rattle.std.specs.Prelude.{◌≡◌, ◌≢◌, ◌↔◌, true, false, Contains, IsTrue, OnOk};
ghost use Rattle.arm2_decode.specs.Names.{is_never};
ghost use Rattle.text_draft.specs.Exploring.{Gains};
ghost use Rattle.text_draft.specs.Reach.{Calls, CallsTo, ComesPast, GoesOn, HasPlaces, HasReturnAddress};
ghost use Rattle.text_draft.specs.Reach.{IsBranchAt, IsStatedCall, IsStatedTo, IsUnsettled, LeadsAway};
ghost use Rattle.text_draft.specs.Reach.{LeadsByTable};
ghost use Rattle.text_draft.specs.Reach.{StepsTo, before, next_of};
ghost use Rattle.control_flow.specs.declared.actions.Kind.TheVariants.{Writer};
ghost use Rattle.statement.specs.declared.stated.TargetKind.TheVariants.{Call, Jump};

use crate::begun::{Begun, is_open_target};
use crate::word_actions::action_at;
use arm2_effect::branch_target;
use bus_ticks::{SPACE_END, ahead_of};
use control_flow::{Action, Kind};
use image::Image;
use statement::{MOST_DESTINATIONS, TargetKind};
use std::alloc::AllocError;
use word_shapes::{is_table_jump_at, may_keep_return_address_at};

// As many as a target may have destinations.
const MOST_BRANCHES: u32 = MOST_DESTINATIONS as u32;

/// The address of the word before.
pub(crate) fn before(address: u32) -> u32
    ensures { result ≡ before address }
{
    ahead_of(address, SPACE_END - 4)
}

fn is_branch(image: &Image, at: u32) -> bool
    ensures yes { result ≡ true → IsBranchAt image.now at }
    ensures no { IsBranchAt image.now at → result ≡ true }
{
    match action_at(image, at) {
        Some(action) => action.cond.is_always() && matches!(action.kind, Kind::Branch(_)),
        None => false,
    }
}

/// How many branches follow a word that jumps into them, from the second word after it on.
pub(crate) fn table_len(image: &Image, at: u32) -> u32
    ensures { HasPlaces image.now at result }
{
    if !is_table_jump_at(image, at) {
        return 0;
    }
    for n in 0..MOST_BRANCHES {
        if !is_branch(image, branch_target(at, n)) {
            return n;
        }
    }
    MOST_BRANCHES
}

// Adds the addresses of the branches of the table after a word.
fn push_table(out: &mut Vec<u32>, image: &Image, at: u32) -> Result<(), AllocError>
    ensures { OnOk result (Gains (LeadsByTable image.now at) out.old.items out.new.items) }
{
    for n in 0..table_len(image, at) {
        out.push(branch_target(at, n))?;
    }
    Ok(())
}

/// Whether the word before may put the address of the word after this one into R14.
pub(crate) fn has_return_address(image: &Image, at: u32) -> bool
    ensures { IsTrue result ↔ HasReturnAddress image.now at }
{
    may_keep_return_address_at(image, before(at))
}

// Whether it is left open where the word at an address leads.
fn is_unsettled(begun: &Begun<'_>, at: u32) -> bool
    ensures { IsTrue result ↔ IsUnsettled begun.now at }
{
    match begun.target_at(at) {
        Some(target) => is_open_target(target),
        None => true,
    }
}

// Whether the word at an address is stated to call.
fn is_stated_call(begun: &Begun<'_>, at: u32) -> bool
    ensures { IsTrue result ↔ IsStatedCall begun.now at }
{
    match begun.target_at(at) {
        Some(target) => matches!(target.kind(), TargetKind::Call),
        None => false,
    }
}

// Adds a destination, if it is known: 0 stands for what is left open.
fn push_if_known(out: &mut Vec<u32>, to: u32) -> Result<(), AllocError>
    ensures { OnOk result (Gains (λ a. (to ≡ a) × (a ≢ 0)) out.old.items out.new.items) }
{
    if to == 0 {
        return Ok(());
    }
    out.push(to)?;
    Ok(())
}

// Adds those of the destinations that are known.
fn push_known(out: &mut Vec<u32>, destinations: &[u32]) -> Result<(), AllocError>
    ensures { OnOk result
        (Gains (λ to. Contains destinations.now to × (to ≢ 0)) out.old.items out.new.items) }
{
    for to in destinations {
        push_if_known(out, *to)?;
    }
    Ok(())
}

// Adds the destinations of a jump that is stated for the word at an address.
fn push_jump(out: &mut Vec<u32>, begun: &Begun<'_>, at: u32) -> Result<(), AllocError>
    ensures { OnOk result (Gains (IsStatedTo begun.now Jump at) out.old.items out.new.items) }
{
    let Some(target) = begun.target_at(at) else {
        return Ok(());
    };
    match target.kind() {
        TargetKind::Jump => push_known(out, target.to()),
        _ => Ok(()),
    }
}

// Adds the destinations of a call that is stated for the word at an address.
fn push_stated_call(out: &mut Vec<u32>, begun: &Begun<'_>, at: u32) -> Result<(), AllocError>
    ensures { OnOk result (Gains (IsStatedTo begun.now Call at) out.old.items out.new.items) }
{
    let Some(target) = begun.target_at(at) else {
        return Ok(());
    };
    match target.kind() {
        TargetKind::Call => push_known(out, target.to()),
        _ => Ok(()),
    }
}

// Whether control comes past a writer of R15: from a stated call, or where it is left open where the word
// leads, since the word before puts the return address into R14.
fn comes_past_writer(image: &Image, begun: &Begun<'_>, at: u32) -> bool
    ensures { IsTrue result ↔ ComesPast image.now begun.now at Writer }
{
    if is_stated_call(begun, at) {
        true
    } else {
        is_unsettled(begun, at) && has_return_address(image, at)
    }
}

// Whether control may go on at the next word.
fn goes_on(image: &Image, begun: &Begun<'_>, at: u32, action: Action) -> bool
    ensures yes { result ≡ true → GoesOn image.now begun.now at action }
    ensures no { GoesOn image.now begun.now at action → result ≡ true }
{
    if !action.cond.is_always() {
        return true;
    }
    match action.kind {
        Kind::Plain | Kind::Call(_) => true,
        Kind::Writer => comes_past_writer(image, begun, at),
        Kind::Branch(_) | Kind::Trap | Kind::Unallocated => false,
    }
}

// Adds the next word, where control may go on there.
fn push_next(
    out: &mut Vec<u32>,
    image: &Image,
    begun: &Begun<'_>,
    at: u32,
    action: Action,
) -> Result<(), AllocError>
    ensures { OnOk result
        (Gains (λ to. GoesOn image.now begun.now at action × (to ≡ next_of at)) out.old.items
        out.new.items) }
{
    if goes_on(image, begun, at, action) {
        out.push(ahead_of(at, 4))?;
    }
    Ok(())
}

// Adds the table of a word, where it is left open where the word leads.
fn push_open_table(
    out: &mut Vec<u32>,
    image: &Image,
    begun: &Begun<'_>,
    at: u32,
) -> Result<(), AllocError>
    ensures { OnOk result
        (Gains (λ to. IsUnsettled begun.now at × LeadsByTable image.now at to) out.old.items
        out.new.items) }
{
    if is_unsettled(begun, at) {
        push_table(out, image, at)
    } else {
        Ok(())
    }
}

// Adds where a writer of R15 leads inside the routine: by its stated jump, and as far as that is left open by
// its table.
fn push_writer(
    out: &mut Vec<u32>,
    image: &Image,
    begun: &Begun<'_>,
    at: u32,
) -> Result<(), AllocError>
    ensures { OnOk result (Gains (LeadsAway image.now begun.now at Writer) out.old.items out.new.items) }
{
    push_jump(out, begun, at)?;
    push_open_table(out, image, begun, at)
}

// Adds the other addresses inside the routine to which a word leads.
fn push_others(
    out: &mut Vec<u32>,
    image: &Image,
    begun: &Begun<'_>,
    at: u32,
    action: Action,
) -> Result<(), AllocError>
    ensures { OnOk result
        (Gains (λ to. (is_never action.cond ≡ false) × LeadsAway image.now begun.now at action.kind to)
        out.old.items out.new.items) }
{
    if action.cond.is_never() {
        return Ok(());
    }
    match action.kind {
        Kind::Branch(offset) => {
            out.push(branch_target(at, offset))?;
            Ok(())
        }
        Kind::Writer => push_writer(out, image, begun, at),
        _ => Ok(()),
    }
}

/// Adds the addresses at which control goes on from the word at an address inside its routine, as far as the
/// words show or as is stated: after a call at the next word, and through a table of branches at each.
pub(crate) fn push_ways(
    out: &mut Vec<u32>,
    image: &Image,
    begun: &Begun<'_>,
    at: u32,
) -> Result<(), AllocError>
    ensures { OnOk result (Gains (StepsTo image.now begun.now at) out.old.items out.new.items) }
{
    let Some(action) = action_at(image, at) else {
        return Ok(());
    };
    push_next(out, image, begun, at, action)?;
    push_others(out, image, begun, at, action)
}

// Adds the routines that a word calls which is carried out.
fn push_routines(
    out: &mut Vec<u32>,
    begun: &Begun<'_>,
    at: u32,
    kind: Kind,
) -> Result<(), AllocError>
    ensures { OnOk result (Gains (Calls begun.now at kind) out.old.items out.new.items) }
{
    match kind {
        Kind::Call(distance) => {
            out.push(branch_target(at, distance))?;
            Ok(())
        }
        Kind::Writer => push_stated_call(out, begun, at),
        _ => Ok(()),
    }
}

/// Adds the routines that the word at an address calls.
pub(crate) fn push_calls(
    out: &mut Vec<u32>,
    image: &Image,
    begun: &Begun<'_>,
    at: u32,
) -> Result<(), AllocError>
    ensures { OnOk result (Gains (CallsTo image.now begun.now at) out.old.items out.new.items) }
{
    let Some(action) = action_at(image, at) else {
        return Ok(());
    };
    if action.cond.is_never() {
        return Ok(());
    }
    push_routines(out, begun, at, action.kind)
}
