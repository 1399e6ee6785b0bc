//! Why a bound may not hold, the words at which that is so, and the heading above them.

ghost use Rattle.std.specs.Prelude.{◌≡◌, IfOk};
ghost use Rattle.std.specs.List.Sorted.{IsStrictlySortedBy};
ghost use Rattle.std.specs.Ordering.{nat_cmp};
ghost use Rattle.text_explained.specs.Assumed.{AreSubjectTo, caveat_heading};

use crate::assumptions::{Assumption, assumed};
use crate::links::{Overwrite, lost_links};
use loop_bounds::Handler;
use std::alloc::{AllocError, Global};

const RETURNS: &[u8] =
    b"\nWARNING: these count as returns but do not look like returns (see [[target]]):\n";

const FLAGS: &[u8] =
    b"\nWARNING: these leave the handler of an interrupt and restore no flags (no S, no ^):\n";

const CALLED: &[u8] = b"\nWARNING: these return by R14 after a call has overwritten it:\n";

const ADDRESSED: &[u8] =
    b"\nWARNING: these return by R14 after an address of the source was put into it:\n";

const TRANSFERS: &[u8] = b"\nLoads and stores that may be anywhere (see [[access]]):\n";

/// Why a bound may not hold where its handler reaches some words.
#[derive(Clone, Copy)]
pub(crate) enum Caveat {
    /// It takes that of them for granted.
    Assumed(Assumption),
    /// They return by an R14 that was overwritten so.
    LinkLost(Overwrite),
}

impl Caveat {
    /// The text above the rows of the words.
    pub(crate) fn heading(self) -> &'static [u8]
        ensures { result.now ≡ caveat_heading self }
    {
        match self {
            Caveat::Assumed(Assumption::TakenForReturn) => RETURNS,
            Caveat::Assumed(Assumption::LeavesFlags) => FLAGS,
            Caveat::Assumed(Assumption::LooseTransfer) => TRANSFERS,
            Caveat::LinkLost(Overwrite::ByCall) => CALLED,
            Caveat::LinkLost(Overwrite::ByAddress) => ADDRESSED,
        }
    }

    /// The addresses of the words, ascending. `AllocError`: an allocation failed.
    pub(crate) fn words(self, alloc: Global, handler: &Handler<'_>) -> Result<Vec<u32>, AllocError>
        ensures named { IfOk result
            (λ named. AreSubjectTo handler.now.image.now handler.now.statement handler.now.graph self
            named.items) }
        ensures ascending { IfOk result (λ named. IsStrictlySortedBy nat_cmp named.items) }
    {
        match self {
            Caveat::Assumed(what) => assumed(alloc, handler, what),
            Caveat::LinkLost(by) => lost_links(alloc, handler, by),
        }
    }
}
