ghost use Rattle.std.specs.Prelude.{◌≡◌, All, IfOk, IfSome, OnOk, Some};
ghost use Rattle.std.specs.Map.{keys_of};
ghost use Rattle.text_draft.specs.Ends.{AreEnds, Ends, IsEnd, action_end};
ghost use Rattle.text_draft.specs.Picks.{Keeps};
ghost use Rattle.text_draft.specs.declared.ends.End.{End};

use crate::word_actions::action_at;
use control_flow::{Action, Kind};
use image::Image;
use std::alloc::{AllocError, Global};

/// Why a handler cannot go on at an address.
#[derive(Clone, Copy)]
pub enum End {
    /// The image has no word there.
    NoWord,
    /// The word is no instruction.
    Unallocated,
    /// The word is a software interrupt or undefined.
    Trap,
}

fn action_end(action: Action) -> Option<End>
    ensures { result ≡ action_end action }
{
    if action.cond.is_never() {
        return None;
    }
    match action.kind {
        Kind::Trap => Some(End::Trap),
        Kind::Unallocated => Some(End::Unallocated),
        Kind::Plain | Kind::Branch(_) | Kind::Call(_) | Kind::Writer => None,
    }
}

fn end_at(image: &Image, at: u32) -> Option<End>
    ensures some { IfSome result (IsEnd image.now at) }
    ensures only { (end : End) → IsEnd image.now at end → result ≡ Some end }
{
    match action_at(image, at) {
        Some(action) => action_end(action),
        None => Some(End::NoWord),
    }
}

// Takes an address at which a handler cannot go on.
fn keep_end(found: &mut Vec<(u32, End)>, image: &Image, at: u32) -> Result<(), AllocError>
    ensures kept { OnOk result
        (Keeps (Ends image.now) at (keys_of found.old.items) (keys_of found.new.items)) }
    ensures why { OnOk result
        (All (λ e. IsEnd image.now e.0 e.1) found.old.items
        → All (λ e. IsEnd image.now e.0 e.1) found.new.items) }
{
    let Some(end) = end_at(image, at) else {
        return Ok(());
    };
    found.push((at, end))?;
    Ok(())
}

/// Those of the addresses at which a handler cannot go on, and why.
pub(crate) fn find_ends(
    alloc: Global,
    image: &Image,
    addresses: &[u32],
) -> Result<Vec<(u32, End)>, AllocError>
    ensures { IfOk result (λ found. AreEnds image.now addresses.now found.items) }
{
    let mut found = Vec::new(alloc);
    for at in addresses {
        keep_end(&mut found, image, *at)?;
    }
    Ok(found)
}
