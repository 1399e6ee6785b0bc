//! How a handler comes to the address where it responds.

ghost use Rattle.std.specs.Prelude.{◌≡◌, ◌≢◌, ◌⊎◌, IfErr, IfOk, MatchOption, option_map};
ghost use Rattle.bus_ticks.specs.declared.profile.Profile.{Profile};
ghost use Rattle.loop_bounds.specs.Handler.{HasItsTree};
ghost use Rattle.handlers.specs.Refusal.{Carries, ComesAlone, stop_fault};
ghost use Rattle.handlers.specs.Report.{BeforeOutput, HasLoops, IsHandlerRefused};
ghost use Rattle.sources.specs.Source.{Says};
ghost use Rattle.response_reports.specs.Question.{fiq_question, question_of};
ghost use Rattle.response_reports.specs.RespondReport.{IsAimRefused, IsAskedOf, vector_at};
ghost use Rattle.response_reports.specs.RespondWork.{IsReachedAs};
ghost use Rattle.sources.specs.File.{file_of};

use crate::asked::{AskedFiq, AskedResponse};
use bus_ticks::FIQ_VECTOR;
use handlers::{Handler, ReportFault, Stop, longest_of, read_handler};
use responses::{Interrupt, worst_arrival, worst_step_at};
use source_reports::entry_of;
use sources::Source;
use std::alloc::Global;

// IRQ's vector, an address in bytes.
const IRQ_VECTOR: u32 = 0x18;

/// How a handler comes to an address: the interrupt that it serves, and the greatest ticks of the way there
/// and of the step there.
#[derive(Clone, Copy)]
pub(crate) struct Reached {
    pub(crate) interrupt: Interrupt,
    pub(crate) arrival: u64,
    pub(crate) own: u32,
}

// The interrupt whose handler begins at an address, among those that have a response.
fn interrupt_at(address: u32, fiq: Option<AskedFiq<'_>>) -> Option<Interrupt>
    ensures { MatchOption result
        ((interrupt : Interrupt) → IsAskedOf (option_map fiq_question fiq.entry) interrupt
        → address ≢ vector_at interrupt)
        (λ interrupt. IsAskedOf (option_map fiq_question fiq.entry) interrupt
        × (address ≡ vector_at interrupt)) }
{
    if address == IRQ_VECTOR {
        return Some(Interrupt::Irq);
    }
    if address != FIQ_VECTOR {
        return None;
    }
    match fiq {
        Some(_) => None,
        None => Some(Interrupt::Fiq),
    }
}

// How a handler of the source comes to the label.
fn reached_on(
    alloc: Global,
    said: &Source<'_>,
    handler: &Handler<'_>,
    asked: AskedResponse<'_>,
) -> Result<Reached, ReportFault>
    requires says { Says (file_of asked.source) said.now }
    requires tree { HasItsTree handler.now }
    ensures reached { (profile : Profile) → HasLoops (file_of asked.entry.source) asked.entry.statement.now
        profile handler.now.statement handler.now.graph
        → IfOk result (IsReachedAs (question_of asked.entry) profile) }
    ensures fault { (profile : Profile) → HasLoops (file_of asked.entry.source) asked.entry.statement.now
        profile handler.now.statement handler.now.graph → IfErr result
        (λ e. (e ≡ ReportFault.Memory) ⊎ IsAimRefused (question_of asked.entry) profile e) }
    ensures alone { IfErr result ComesAlone }
{
    let Some(interrupt) = interrupt_at(handler.statement.entry(), asked.fiq) else {
        return Err(ReportFault::NotVector);
    };
    let Some(address) = entry_of(&said.labels, asked.label) else {
        return Err(ReportFault::NoSuchEntry);
    };
    // As for any other report, some walk has to leave the handler.
    longest_of(alloc, handler)?;
    let Some(arrival) = worst_arrival(alloc, handler, address)? else {
        return Err(ReportFault::NotReached);
    };
    let Some(own) = worst_step_at(&handler.graph, address) else {
        return Err(ReportFault::NotReached);
    };
    Ok(Reached {
        interrupt,
        arrival,
        own,
    })
}

/// How the handler of a source and a statement comes to a label.
///
/// # Errors
///
/// The first in the order of the work: statement, graph, loops, `NotVector`, `NoSuchEntry`, `Walk`,
/// `NotReached`. `Memory`: an allocation failed.
pub(crate) fn reached_by<'a>(
    alloc: Global,
    said: &Source<'_>,
    asked: AskedResponse<'a>,
    profile: &bus_ticks::Profile,
) -> Result<Reached, Stop<'a>>
    requires { Says (file_of asked.source) said.now }
    ensures reached { IfOk result (IsReachedAs (question_of asked.entry) profile.now) }
    ensures fault { IfErr result
        (λ s. IsHandlerRefused (file_of asked.entry.source) asked.entry.statement.now profile.now
        (stop_fault s) ⊎ IsAimRefused (question_of asked.entry) profile.now (stop_fault s)) }
    ensures carries { IfErr result (Carries said.now asked.entry.statement.now profile.now) }
{
    let handler = read_handler(alloc, said, asked.statement, profile)?;
    Ok(reached_on(alloc, said, &handler, asked)?)
}
