//! Refusals with what their faults were found in.

ghost use Rattle.std.specs.Prelude.{◌≡◌, IfErr, IfOk};
ghost use Rattle.std.specs.Io.KnownBytes.{Appends};
ghost use Rattle.outputs.specs.Output.{FailsSince, TakesFront};
ghost use Rattle.handlers.specs.Refusal.{stop_fault, refusal_fault, fault_only, with_source};

use crate::fault::ReportFault;
use crate::output::print_answer;
use bus_ticks::Profile;
use control_flow::{BuildFault, Graph};
use loop_bounds::NestFault;
use outputs::Output;
use sources::Source;
use statement::{Statement, StatementFault};
use std::alloc::AllocError;

/// Why work on a source has stopped, with what the fault was found in.
#[derive(Drop)]
pub enum Stop<'a> {
    /// A fault of another kind, of which the line of a refusal says all, or a file that was read beside the
    /// source.
    Alone(ReportFault),
    /// The text of the statement has the fault.
    Statement(&'a [u8], StatementFault),
    /// The statement has no flow graph by these prices.
    Graph(Statement, Profile, BuildFault),
    /// The loops of the statement and its flow graph do not fit each other.
    Loops(Statement, Graph, NestFault),
}

/// Why there is no report, with what the fault was found in.
#[derive(Drop)]
pub enum Refusal<'a> {
    /// A fault of the source, of the cycle profile or of the file of facts, a failure of the output, or lack
    /// of memory.
    Alone(ReportFault),
    /// The source was read, and the work on it has stopped.
    OnSource(Source<'a>, Stop<'a>),
}

impl<'a> From<ReportFault> for Stop<'a> {
    ghost use Rattle.handlers.specs.declared.refusal.Stop.TheVariants.{Alone};

    ghost from_gives = { λ lower stop. stop ≡ Alone lower };

    fn from(lower: ReportFault) -> Stop<'a> {
        Stop::Alone(lower)
    }
}

impl<'a> From<AllocError> for Stop<'a> {
    ghost use Rattle.handlers.specs.declared.refusal.Stop.TheVariants.{Alone};
    ghost use Rattle.handlers.specs.declared.fault.ReportFault.TheVariants.{Memory};

    ghost from_gives = { λ _ stop. stop ≡ Alone Memory };

    fn from(_refused: AllocError) -> Stop<'a> {
        Stop::Alone(ReportFault::Memory)
    }
}

impl<'a> From<ReportFault> for Refusal<'a> {
    ghost use Rattle.handlers.specs.declared.refusal.Refusal.TheVariants.{Alone};

    ghost from_gives = { λ lower refusal. refusal ≡ Alone lower };

    fn from(lower: ReportFault) -> Refusal<'a> {
        Refusal::Alone(lower)
    }
}

impl<'a> From<AllocError> for Refusal<'a> {
    ghost use Rattle.handlers.specs.declared.refusal.Refusal.TheVariants.{Alone};
    ghost use Rattle.handlers.specs.declared.fault.ReportFault.TheVariants.{Memory};

    ghost from_gives = { λ _ refusal. refusal ≡ Alone Memory };

    fn from(_refused: AllocError) -> Refusal<'a> {
        Refusal::Alone(ReportFault::Memory)
    }
}

impl Stop<'_> {
    /// The fault alone.
    pub fn fault(&self) -> ReportFault
        ensures { result ≡ stop_fault self.now }
    {
        match self {
            Stop::Alone(fault) => *fault,
            Stop::Statement(_, fault) => ReportFault::Statement(*fault),
            Stop::Graph(_, _, fault) => ReportFault::Graph(*fault),
            Stop::Loops(_, _, fault) => ReportFault::Loops(*fault),
        }
    }
}

impl Refusal<'_> {
    /// The fault alone.
    pub fn fault(&self) -> ReportFault
        ensures { result ≡ refusal_fault self.now }
    {
        match self {
            Refusal::Alone(fault) => *fault,
            Refusal::OnSource(_, stop) => stop.fault(),
        }
    }
}

/// The answer with the fault alone.
pub fn fault_only<T: Drop>(answer: Result<T, Refusal<'_>>) -> Result<T, ReportFault>
    ensures { result ≡ fault_only answer.entry }
{
    match answer {
        Ok(found) => Ok(found),
        Err(refusal) => Err(refusal.fault()),
    }
}

/// The answer of work on the source, with the source where the work stopped.
pub fn with_source<'a, T: Drop>(
    source: Source<'a>,
    answer: Result<T, Stop<'a>>,
) -> Result<T, Refusal<'a>>
    ensures { result ≡ with_source source.entry answer.entry }
{
    match answer {
        Ok(found) => Ok(found),
        Err(stop) => Err(Refusal::OnSource(source, stop)),
    }
}

/// Writes a report's whole text as [`print_answer`] does, and returns its answer.
///
/// # Errors
///
/// The only refusal is `Device`, alone: the output failed. It took a front of the text then.
pub fn print_or_refuse<'a, T: Drop, O: Output>(
    answer: T,
    text: &[u8],
    out: &mut O,
) -> Result<T, Refusal<'a>>
    ensures printed { IfOk result
        (λ x. (x ≡ answer) × Appends (O.taken out.old) (O.taken out.new) text.now) }
    ensures device { IfErr result
        (λ e. (e ≡ Refusal.Alone ReportFault.Device)
        × (TakesFront (O.taken out.old) (O.taken out.new) text.now
        × FailsSince (O.failures out.old) (O.failures out.new))) }
{
    Ok(print_answer(answer, text, out)?)
}
