ghost use Rattle.std.specs.Prelude.{◌≡◌, List, ℕ, IfErr, IfOk};
ghost use Rattle.handlers.specs.FiqHandler.{IsFiqRefused};
ghost use Rattle.handlers.specs.Refusal.{Carries, stop_fault};
ghost use Rattle.handlers.specs.Report.{BeforeOutput, IsHandlerOf};
ghost use Rattle.sources.specs.Source.{Says};
ghost use Rattle.sources.specs.File.{File};

use crate::fault::ReportFault;
use crate::handler::{stated_handler, stated_on};
use crate::refusal::Stop;
use bus_ticks::{FIQ_VECTOR, Profile};
use loop_bounds::Handler;
use sources::Source;
use std::alloc::Global;

/// FIQ's handler, of a source and a statement: it begins at FIQ's vector.
///
/// # Errors
///
/// The first in the order of the work: statement, `NotFiqEntry` where its entry is elsewhere, graph, loops.
/// `Memory`: an allocation failed.
pub fn fiq_handler<'s, 'a>(
    alloc: Global,
    source: &'s Source<'_>,
    text: &'a [u8],
    profile: &Profile,
) -> Result<Handler<'s>, Stop<'a>>
    ensures is { IfOk result (IsHandlerOf source.now text.now profile.now) }
    ensures entry { IfOk result (λ h. h.statement.entry ≡ FIQ_VECTOR) }
    ensures fault { (bytes : File) → Says bytes source.now
        → IfErr result (λ s. BeforeOutput (IsFiqRefused bytes text.now profile.now) (stop_fault s)) }
    ensures carries { IfErr result (Carries source.now text.now profile.now) }
{
    let statement = stated_on(alloc, source, text)?;
    if statement.entry() != FIQ_VECTOR {
        return Err(Stop::Alone(ReportFault::NotFiqEntry));
    }
    stated_handler(alloc, source, statement, profile)
}
