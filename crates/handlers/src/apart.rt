//! FIQ's handler of its own source, which is loaded at the same time as the source that was read first.

ghost use Rattle.std.specs.Prelude.{◌≡◌, ◌∷◌, [], List, ℕ, None, Some, IfErr, IfOk, OnOk};
ghost use Rattle.bus_ticks.specs.declared.profile.Profile.{Profile};
ghost use Rattle.handlers.specs.FiqHandler.{IsFiqsRefused};
ghost use Rattle.handlers.specs.Meeting.{SourcesShare};
ghost use Rattle.handlers.specs.Refusal.{CarriesReadOf, fault_only};
ghost use Rattle.handlers.specs.Report.{BeforeOutput};
ghost use Rattle.handlers.specs.VisitStops.{refused_on};
ghost use Rattle.sources.specs.Source.{IsSource, Says};
ghost use Rattle.sources.specs.File.{File, file_of};

use crate::fault::ReportFault;
use crate::handler::read_source;
use crate::meeting::first_shared;
use crate::refusal::{Refusal, Stop};
use sources::{Source, SourceFile};
use std::alloc::{AllocError, Global};

/// Where the work on a handler and on FIQ's, which visits it, has stopped.
#[derive(Drop)]
pub enum VisitStop<'a> {
    /// On the source that was read first.
    OnRead(Stop<'a>),
    /// On FIQ's own source, or where that is read.
    OnOwn(Refusal<'a>),
}

impl<'a> From<Stop<'a>> for VisitStop<'a> {
    ghost use Rattle.handlers.specs.declared.apart.VisitStop.TheVariants.{OnRead};

    ghost from_gives = { λ lower stop. stop ≡ OnRead lower };

    fn from(lower: Stop<'a>) -> VisitStop<'a> {
        VisitStop::OnRead(lower)
    }
}

impl<'a> From<Refusal<'a>> for VisitStop<'a> {
    ghost use Rattle.handlers.specs.declared.apart.VisitStop.TheVariants.{OnOwn};

    ghost from_gives = { λ lower stop. stop ≡ OnOwn lower };

    fn from(lower: Refusal<'a>) -> VisitStop<'a> {
        VisitStop::OnOwn(lower)
    }
}

impl<'a> From<ReportFault> for VisitStop<'a> {
    ghost use Rattle.handlers.specs.declared.refusal.Stop.TheVariants.{Alone};
    ghost use Rattle.handlers.specs.declared.apart.VisitStop.TheVariants.{OnRead};

    ghost from_gives = { λ lower stop. stop ≡ OnRead (Alone lower) };

    fn from(lower: ReportFault) -> VisitStop<'a> {
        VisitStop::OnRead(Stop::Alone(lower))
    }
}

impl<'a> From<AllocError> for VisitStop<'a> {
    ghost use Rattle.handlers.specs.declared.fault.ReportFault.TheVariants.{Memory};
    ghost use Rattle.handlers.specs.declared.refusal.Stop.TheVariants.{Alone};
    ghost use Rattle.handlers.specs.declared.apart.VisitStop.TheVariants.{OnRead};

    ghost from_gives = { λ _ stop. stop ≡ OnRead (Alone Memory) };

    fn from(_refused: AllocError) -> VisitStop<'a> {
        VisitStop::OnRead(Stop::Alone(ReportFault::Memory))
    }
}

/// The answer, with the source that was read first where the work on it stopped.
pub fn refused_on<'a, T: Drop>(
    said: Source<'a>,
    answer: Result<T, VisitStop<'a>>,
) -> Result<T, Refusal<'a>>
    ensures { result ≡ refused_on said.entry answer.entry }
{
    match answer {
        Ok(found) => Ok(found),
        Err(VisitStop::OnRead(stop)) => Err(Refusal::OnSource(said, stop)),
        Err(VisitStop::OnOwn(refusal)) => Err(refusal),
    }
}

/// FIQ's own source, which shares no address with the one that was read first.
///
/// # Errors
///
/// `Source`, with its line, of a text; `Image` of an image; then `WordsMeet`, with the address, where it has
/// a word at an address of the other one. `Memory`: an allocation failed.
pub fn read_apart<'a>(
    alloc: Global,
    said: &Source<'_>,
    own: SourceFile<'a>,
) -> Result<Source<'a>, Refusal<'a>>
    ensures is { IfOk result (IsSource (file_of own.entry)) }
    ensures apart { (source : File) → Says source said.now
        → OnOk result (SourcesShare source (file_of own.entry) None) }
    ensures fault { (source : File) (fiq : List ℕ) (profile : Profile) → Says source said.now
        → IfErr (fault_only result) (BeforeOutput
        (IsFiqsRefused source (Some (file_of own.entry)) fiq profile)) }
    ensures carries { (fiq : List ℕ) (profile : Profile)
        → IfErr result (CarriesReadOf ((file_of own.entry, fiq) ∷ []) profile) }
{
    let read = read_source(alloc, own)?;
    match first_shared(&said.image, &read.image) {
        Some(address) => {
            let stop = Stop::Alone(ReportFault::WordsMeet(address));
            Err(Refusal::OnSource(read, stop))
        }
        None => Ok(read),
    }
}
