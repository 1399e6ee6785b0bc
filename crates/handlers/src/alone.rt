//! The bound of words and a statement, without what proves it.

ghost use Rattle.std.specs.Prelude.{◌≢◌, IfErr, IfOk};
ghost use Rattle.handlers.specs.Alone.{IsAnswerOf, IsBoundOf, IsRefusalOf};

use crate::fault::ReportFault;
use bus_ticks::Profile;
use control_flow::build;
use image::Image;
use longest_walk::longest;
use loop_bounds::nest;
use statement::Statement;
use std::alloc::{AllocError, Global};

// The bound in ticks. An error is why there is none, or `Memory`: an allocation failed.
fn bound_or_fault(
    alloc: Global,
    image: &Image,
    statement: &Statement,
    profile: &Profile,
) -> Result<u64, ReportFault>
    ensures bound { IfOk result (IsBoundOf image.now statement.now profile.now) }
    ensures fault { IfErr result
        (λ fault. fault ≢ ReportFault.Memory → IsRefusalOf image.now statement.now profile.now fault) }
{
    let graph = build(alloc, image, statement, profile)?;
    let tree = nest(alloc, &graph, statement)?;
    let found = longest(alloc, &graph, &tree)?;
    Ok(found.bound)
}

/// The greatest run time, in ticks, of the handler that has these words and of which this is stated; or why
/// it has none, the first in the order of the work: graph, loops, walk.
///
/// # Errors
///
/// An allocation failed.
pub fn bound_of(
    alloc: Global,
    image: &Image,
    statement: &Statement,
    profile: &Profile,
) -> Result<Result<u64, ReportFault>, AllocError>
    ensures { IfOk result (IsAnswerOf image.now statement.now profile.now) }
{
    match bound_or_fault(alloc, image, statement, profile) {
        Ok(bound) => Ok(Ok(bound)),
        Err(ReportFault::Memory) => Err(AllocError),
        Err(fault) => Ok(Err(fault)),
    }
}
