//! For how long stretches of code hold an interrupt back.

ghost use Rattle.std.specs.Prelude.{◌≡◌, ◌<◌, ◌≤◌, ◌*◌, ◌^◌, List, ℕ, IfErr, IfOk, length, map};
ghost use Rattle.handlers.specs.Refusal.{Carries, CarriesOneOf, stop_fault};
ghost use Rattle.handlers.specs.Report.{BeforeOutput, IsRefused};
ghost use Rattle.sources.specs.Source.{Says};
ghost use Rattle.response_reports.specs.RespondReport.{AddUpTo, OneIsRefused};
ghost use Rattle.response_reports.specs.RespondWork.{IsBoundOf};
ghost use Rattle.sources.specs.File.{File};

use bus_ticks::Profile;
use handlers::{Stop, longest_of, read_handler};
use sources::Source;
use std::alloc::Global;

// The greatest ticks of the stretch of a statement.
fn stretch_ticks<'a>(
    alloc: Global,
    said: &Source<'_>,
    statement: &'a [u8],
    profile: &Profile,
) -> Result<u64, Stop<'a>>
    ensures bound { (source : File) → Says source said.now
        → IfOk result (IsBoundOf source statement.now profile.now) }
    ensures fault { (source : File) → Says source said.now
        → IfErr result (λ s. BeforeOutput (IsRefused source statement.now profile.now) (stop_fault s)) }
    ensures carries { IfErr result (Carries said.now statement.now profile.now) }
{
    let handler = read_handler(alloc, said, statement, profile)?;
    let longest = longest_of(alloc, &handler)?;
    Ok(longest.bound)
}

/// The greatest ticks of the stretches of these statements, together.
///
/// # Errors
///
/// Those of the first statement that has no bound. `Memory`: an allocation failed.
pub(crate) fn stretches_ticks<'a>(
    alloc: Global,
    said: &Source<'_>,
    statements: &'a [Vec<u8>],
    profile: &Profile,
) -> Result<u128, Stop<'a>>
    ensures add_up { (source : File) → Says source said.now
        → IfOk result (AddUpTo source profile.now (map (λ v. v.items) statements.now)) }
    ensures small { IfOk result (λ total. total ≤ length statements.now * 2 ^ 64) }
    ensures fault { (source : File) → Says source said.now
        → IfErr result (λ s. BeforeOutput (OneIsRefused source profile.now
        (map (λ v. v.items) statements.now)) (stop_fault s)) }
    ensures carries { (source : File) → Says source said.now
        → IfErr result (CarriesOneOf source said.now (map (λ v. v.items) statements.now) profile.now) }
{
    let mut total: u128 = 0;
    for statement in statements {
        let ticks = stretch_ticks(alloc, said, statement, profile)?;
        total += u128::from(ticks);
    }
    Ok(total)
}
