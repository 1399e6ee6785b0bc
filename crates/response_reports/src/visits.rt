//! How FIQ's handler visits the response of IRQ's.

ghost use Rattle.std.specs.Prelude.{◌≡◌, ◌⊎◌, ◌+◌, ◌<◌, ◌^◌, ◌∷◌, [], List, ℕ, None, Some, IfErr, IfOk, OnOk};
ghost use Rattle.std.specs.Prelude.{option_map};
ghost use Rattle.handlers.specs.FiqHandler.{AreApart, IsFiqRefused, IsFiqsRefused, fiq_bytes};
ghost use Rattle.handlers.specs.Meeting.{SourcesShare};
ghost use Rattle.handlers.specs.Refusal.{Carries, CarriesReadOf, fault_only, refusal_fault, stop_fault};
ghost use Rattle.handlers.specs.Report.{BeforeOutput};
ghost use Rattle.handlers.specs.VisitStops.{refusal_on};
ghost use Rattle.sources.specs.Source.{IsSource, Says};
ghost use Rattle.response_reports.specs.Question.{fiq_part, fiq_question};
ghost use Rattle.response_reports.specs.RespondReport.{AreTooMany, waited_of};
ghost use Rattle.response_reports.specs.RespondText.{response_of};
ghost use Rattle.response_reports.specs.RespondWork.{AreTimed, AreTimedFor, AreVisitsRefused, IsFiqBoundOf};
ghost use Rattle.sources.specs.File.{File, file_of};

use crate::asked::AskedFiq;
use bus_ticks::Profile;
use handlers::{
    Refusal, ReportFault, Stop, VisitStop, VisitedBound, fiq_handler, longest_of, read_apart,
    with_source,
};
use longest_walk::WalkFault;
use responses::ResponseParts;
use sources::{Source, SourceFile};
use std::alloc::Global;

/// The refusal of a sum of 2^63 ticks or more.
pub(crate) const TOO_LONG: ReportFault = ReportFault::Walk(WalkFault::BoundTooLarge);

/// The visits of FIQ's handler to a response.
#[derive(Clone, Copy)]
pub(crate) struct FiqVisits {
    /// The bound of FIQ's handler, in ticks.
    pub(crate) bound: u64,
    /// FIQ is asked for at most once in so many ticks.
    pub(crate) every: u32,
    /// For how many ticks it may have waited as the response begins.
    pub(crate) waited: u64,
    /// The fewest visits that are enough; None where none are.
    pub(crate) visits: Option<u128>,
}

/// The visits to a response, and the ticks of the response with them; None where it never ends.
#[derive(Clone, Copy)]
pub(crate) struct VisitedTime {
    pub(crate) visits: FiqVisits,
    pub(crate) time: Option<u64>,
}

/// The parts of a response, and their sum in ticks.
#[derive(Clone, Copy)]
pub(crate) struct Response {
    pub(crate) parts: ResponseParts,
    pub(crate) ticks: u64,
}

// The bound of FIQ's handler.
fn fiq_bound<'a>(
    alloc: Global,
    said: &Source<'_>,
    statement: &'a [u8],
    profile: &Profile,
) -> Result<u64, Stop<'a>>
    ensures bound { (source : File) → Says source said.now
        → IfOk result (IsFiqBoundOf source statement.now profile.now) }
    ensures fault { (source : File) → Says source said.now
        → IfErr result (λ s. BeforeOutput (IsFiqRefused source statement.now profile.now) (stop_fault s)) }
    ensures carries { IfErr result (Carries said.now statement.now profile.now) }
{
    let handler = fiq_handler(alloc, said, statement, profile)?;
    let longest = longest_of(alloc, &handler)?;
    Ok(longest.bound)
}

// The same on its own source, whose words have to be apart from those of the source that was read first.
fn own_bound<'a>(
    alloc: Global,
    said: &Source<'_>,
    own: SourceFile<'a>,
    statement: &'a [u8],
    profile: &Profile,
) -> Result<u64, Refusal<'a>>
    ensures apart { (source : File) → Says source said.now
        → OnOk result (SourcesShare source (file_of own.entry) None) }
    ensures bound { IfOk result (IsFiqBoundOf (file_of own.entry) statement.now profile.now) }
    ensures fault { (source : File) → Says source said.now
        → IfErr (fault_only result)
        (BeforeOutput (IsFiqsRefused source (Some (file_of own.entry)) statement.now profile.now)) }
    ensures carries { IfErr result (CarriesReadOf ((file_of own.entry, statement.now) ∷ []) profile.now) }
{
    let read = read_apart(alloc, said, own)?;
    let bound = fiq_bound(alloc, &read, statement, profile);
    with_source(read, bound)
}

// The bound of FIQ's handler, on the source that was read first or on its own.
fn visitor_bound<'a>(
    alloc: Global,
    said: &Source<'_>,
    asked: AskedFiq<'a>,
    profile: &Profile,
) -> Result<u64, VisitStop<'a>>
    ensures apart { (source : File) → Says source said.now
        → OnOk result (AreApart source (fiq_question asked.entry).own) }
    ensures bound { (source : File) → Says source said.now
        → IfOk result (IsFiqBoundOf (fiq_bytes source (fiq_question asked.entry).own)
        asked.entry.statement.now profile.now) }
    ensures fault { (source : File) → Says source said.now
        → IfErr result (λ s. BeforeOutput (IsFiqsRefused source (fiq_question asked.entry).own
        asked.entry.statement.now profile.now) (refusal_fault (refusal_on said.now s))) }
    ensures carries { (source : File) → IsSource source said.now
        → IfErr result (λ s. CarriesReadOf
        ((fiq_bytes source (fiq_question asked.entry).own, asked.entry.statement.now) ∷ []) profile.now
        (refusal_on said.now s)) }
{
    match asked.source {
        Some(own) => Ok(own_bound(alloc, said, own, asked.statement, profile)?),
        None => Ok(fiq_bound(alloc, said, asked.statement, profile)?),
    }
}

// For how many ticks FIQ may have waited.
fn waited_of(waited: Option<u64>, parts: ResponseParts) -> u64
    requires { parts.longest + parts.masked < 2 ^ 64 }
    ensures { result ≡ waited_of waited parts }
{
    match waited {
        Some(waited) => waited,
        None => {
            if parts.masked == 0 {
                0
            } else {
                parts.longest + parts.masked
            }
        }
    }
}

// The visits of FIQ's handler with this bound, and the response with them.
fn timed_visits(
    profile: &Profile,
    asked: AskedFiq<'_>,
    response: Response,
    bound: u64,
) -> Result<VisitedTime, ReportFault>
    requires { response.ticks ≡ response_of profile.now response.parts }
    ensures timed { IfOk result (AreTimed profile.now response.parts (fiq_question asked.entry) bound) }
    ensures fault { IfErr result (λ e. (e ≡ TOO_LONG)
        × AreTooMany profile.now response.parts (fiq_question asked.entry) bound) }
{
    let visited = VisitedBound {
        irq: response.ticks,
        fiq: bound,
    };
    let waited = waited_of(asked.waited, response.parts);
    let fewest = visited.fewest_visits(profile, asked.every, waited);
    let time = match fewest {
        Some(visits) => match visited.total(profile, visits) {
            Some(total) => Some(total),
            None => return Err(TOO_LONG),
        },
        None => None,
    };
    let visits = FiqVisits {
        bound,
        every: asked.every,
        waited,
        visits: fewest,
    };
    Ok(VisitedTime { visits, time })
}

/// The visits to a response, and its time with them, where FIQ is asked for.
///
/// # Errors
///
/// Those of FIQ's own source and statement; then `Walk` with `BoundTooLarge` where the time with the visits
/// is 2^63 ticks or more. `Memory`: an allocation failed.
pub(crate) fn response_visits<'a>(
    alloc: Global,
    said: &Source<'_>,
    fiq: Option<AskedFiq<'a>>,
    profile: &Profile,
    response: Response,
) -> Result<Option<VisitedTime>, VisitStop<'a>>
    requires { response.ticks ≡ response_of profile.now response.parts }
    ensures timed { (source : File) → Says source said.now
        → IfOk result (AreTimedFor profile.now response.parts source (option_map fiq_question fiq.entry)) }
    ensures fault { (source : File) → Says source said.now
        → IfErr result (λ s. BeforeOutput (AreVisitsRefused profile.now response.parts source
        (option_map fiq_question fiq.entry)) (refusal_fault (refusal_on said.now s))) }
    ensures carries { (source : File) → IsSource source said.now
        → IfErr result (λ s. (s ≡ VisitStop.OnRead (Stop.Alone TOO_LONG))
        ⊎ CarriesReadOf (fiq_part source (option_map fiq_question fiq.entry)) profile.now
        (refusal_on said.now s)) }
{
    let Some(asked) = fiq else {
        return Ok(None);
    };
    let bound = visitor_bound(alloc, said, asked, profile)?;
    Ok(Some(timed_visits(profile, asked, response, bound)?))
}
