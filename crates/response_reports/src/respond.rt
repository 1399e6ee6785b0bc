//! How long after an interrupt's line rises its handler responds.

ghost use Rattle.std.specs.Prelude.{◌≡◌, ◌+◌, ◌<◌, ◌≤◌, ◌^◌, IfErr, IfOk, MatchOption, option_map, unwrap_or};
ghost use Rattle.walks.specs.declared.limits.TheConstants.{COST_LIMIT};
ghost use Rattle.handlers.specs.Priced.{Priced};
ghost use Rattle.handlers.specs.Refusal.{CarriesBy, CarriesOneOf, CarriesReadOf, fault_only};
ghost use Rattle.handlers.specs.Refusal.{refusal_fault, stop_fault};
ghost use Rattle.handlers.specs.Report.{BeforeOutput};
ghost use Rattle.handlers.specs.VisitStops.{refusal_on};
ghost use Rattle.sources.specs.Source.{IsSource, Says};
ghost use Rattle.response_reports.specs.Question.{parts_asked, question_of, statements_of};
ghost use Rattle.response_reports.specs.RespondReport.{IsRespondRefused, IsRespondReport, Responds};
ghost use Rattle.response_reports.specs.RespondWork.{IsResponseOf};
ghost use Rattle.sources.specs.File.{file_of};

use crate::asked::AskedResponse;
use crate::held_back::stretches_ticks;
use crate::reaching::reached_by;
use crate::texts::{ResponseAnswer, response_answer};
use crate::visits::{Response, TOO_LONG, response_visits};
use bus_ticks::Profile;
use handlers::{
    Refusal, Stop, VisitStop, fault_only, print_or_refuse, profile_of, read_source, refused_on,
};
use outputs::Output;
use responses::{ResponseParts, longest_step, response_law, visited_response_law};
use sources::Source;
use std::alloc::Global;

// For how many ticks the interrupt is held back: so many, and those of the stretches. None where they are too
// many for 64 bits.
fn masked_ticks(masked: Option<u64>, stretches: u128) -> Option<u64>
    requires { stretches < 2 ^ 127 }
    ensures { MatchOption result (COST_LIMIT ≤ unwrap_or masked 0 + stretches)
        (λ ticks. ticks ≡ unwrap_or masked 0 + stretches) }
{
    let total = u128::from(masked.unwrap_or(0)) + stretches;
    match u64::try_from(total) {
        Ok(ticks) => Some(ticks),
        Err(_) => None,
    }
}

// The response of a source that was read, without visits.
fn response_of<'a>(
    alloc: Global,
    said: &Source<'_>,
    asked: AskedResponse<'a>,
    profile: &Profile,
) -> Result<Response, Stop<'a>>
    requires { Says (file_of asked.source) said.now }
    ensures response { IfOk result (IsResponseOf (question_of asked.entry) profile.now) }
    ensures fault { IfErr result
        (λ s. BeforeOutput (IsRespondRefused (question_of asked.entry) profile.now) (stop_fault s)) }
    ensures carries { IfErr result (CarriesOneOf (file_of asked.entry.source) said.now
        (statements_of (question_of asked.entry)) profile.now) }
{
    let reached = reached_by(alloc, said, asked, profile)?;
    let stretches = stretches_ticks(alloc, said, asked.masked_by, profile)?;
    let Some(masked) = masked_ticks(asked.masked, stretches) else {
        return Err(Stop::Alone(TOO_LONG));
    };
    let most = u64::from(longest_step(profile));
    let parts = ResponseParts {
        interrupt: reached.interrupt,
        longest: asked.longest.unwrap_or(most),
        masked,
        arrival: reached.arrival,
        own: reached.own,
    };
    match parts.sum(profile) {
        Some(ticks) => Ok(Response { parts, ticks }),
        None => Err(Stop::Alone(TOO_LONG)),
    }
}

// The answer on the response of a source that was read.
fn source_response<'a>(
    alloc: Global,
    said: &Source<'_>,
    asked: AskedResponse<'a>,
    profile: &Profile,
) -> Result<ResponseAnswer, VisitStop<'a>>
    requires { Says (file_of asked.source) said.now }
    ensures report { IfOk result
        (λ a. IsRespondReport (question_of asked.entry) profile.now a.within a.text.items) }
    ensures fault { IfErr result (λ s. BeforeOutput (IsRespondRefused (question_of asked.entry) profile.now)
        (refusal_fault (refusal_on said.now s))) }
    ensures carries { IsSource (file_of asked.entry.source) said.now → IfErr result
        (λ s. CarriesReadOf (parts_asked (question_of asked.entry)) profile.now (refusal_on said.now s)) }
{
    let response = response_of(alloc, said, asked, profile)?;
    let visits = response_visits(alloc, said, asked.fiq, profile, response)?;
    response_law();
    visited_response_law();
    Ok(response_answer(alloc, asked, profile, response, visits)?)
}

// The answer on a source's response.
fn read_response<'a>(
    alloc: Global,
    asked: AskedResponse<'a>,
    profile: &Profile,
) -> Result<ResponseAnswer, Refusal<'a>>
    ensures report { IfOk result
        (λ a. IsRespondReport (question_of asked.entry) profile.now a.within a.text.items) }
    ensures fault { IfErr (fault_only result)
        (BeforeOutput (IsRespondRefused (question_of asked.entry) profile.now)) }
    ensures carries { IfErr result
        (CarriesReadOf (parts_asked (question_of asked.entry)) profile.now) }
{
    let said = read_source(alloc, asked.source)?;
    let answer = source_response(alloc, &said, asked, profile);
    refused_on(said, answer)
}

/// Writes how long after the line of IRQ or FIQ rises the handler's first step at a label ends, at most, by
/// a cycle profile's file or by the first profile: the interrupt and the label; then, in ticks, the step in
/// progress, for how long the processor holds the interrupt back, its entry, the handler's way to the label,
/// and the step there; their sum, in ticks and in microseconds; the sum with DMA bursts, if any are given,
/// and with the visits of FIQ's handler, if it is asked for; and, if ticks are wanted, by how much the
/// greatest of these times is less, or more. No run that serves the interrupt takes more than the sum, nor
/// with FIQ's visits at the rate that is asked more than the sum with them, but for the profile's burst price
/// for each DMA burst. Answers whether the greatest time is at most what is wanted.
///
/// # Errors
///
/// The first in the order of the work: profile, source, the handler's statement, graph and loops,
/// `NotVector`, `NoSuchEntry`, `Walk`, `NotReached`; then those of each statement of a stretch that holds the
/// interrupt back, with `Walk` where it has no bound, and `Walk` with `BoundTooLarge` where the sum is 2^63
/// ticks or more; then those of FIQ's own source, `WordsMeet` where it has a word at an address of the other
/// one, and those of FIQ's handler with `NotFiqEntry` after its statement; and last `Walk` with
/// `BoundTooLarge` where the sum with its visits is too large. `Memory`: an allocation failed. `Device`: the
/// output failed, and took a front of the report. After any but `Device` nothing was written. Where FIQ is
/// asked for, a handler that does not begin at IRQ's vector is refused with `NotVector`.
pub fn respond_report<'a, O: Output>(
    alloc: Global,
    asked: AskedResponse<'a>,
    profile: Option<&'a [u8]>,
    out: &mut O,
) -> Result<bool, Refusal<'a>>
    ensures answers { Priced (option_map (λ f. f.now) profile.entry)
        (λ p. Responds (question_of asked.entry) p O.taken O.failures out.old out.new (fault_only result))
        out.old out.new (fault_only result) }
    ensures carries { IfErr result (CarriesBy (option_map (λ f. f.now) profile.entry)
        (CarriesReadOf (parts_asked (question_of asked.entry)))) }
{
    let profile = profile_of(alloc, profile)?;
    let answer = read_response(alloc, asked, &profile)?;
    print_or_refuse(answer.within, &answer.text, out)
}
