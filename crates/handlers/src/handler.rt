ghost use Rattle.std.specs.Prelude.{◌≡◌, ◌≢◌, List, ℕ, Ok, IfErr, IfOk, OnOk, option_map};
ghost use Rattle.image.specs.Labels.{address_of};
ghost use Rattle.longest_walk.specs.Longest.{IsLongest, IsWalkFault};
ghost use Rattle.loop_bounds.specs.Bounds.{IsGreatestCost};
ghost use Rattle.loop_bounds.specs.Handler.{HasItsTree};
ghost use Rattle.numbered_walks.specs.declared.fault.WalkFault.{WalkFault};
ghost use Rattle.statement.specs.Statement.{IsStatement};
ghost use Rattle.handlers.specs.Priced.{HasNoProfile, IsProfile};
ghost use Rattle.handlers.specs.Refusal.{Carries, ComesAlone, HasNoHandler, HasNoStatement};
ghost use Rattle.handlers.specs.Refusal.{stop_fault};
ghost use Rattle.handlers.specs.Report.{BeforeOutput, IsHandlerOf};
ghost use Rattle.handlers.specs.Report.{IsHandlerRefused, IsRefused, OfHandler};
ghost use Rattle.handlers.specs.Source.{IsSourceFault};
ghost use Rattle.sources.specs.Source.{IsSource, Says};
ghost use Rattle.sources.specs.File.{File, file_of};

use crate::fault::ReportFault;
use crate::refusal::Stop;
use bus_ticks::Profile;
use control_flow::{BuildFault, build};
use longest_walk::{Longest, longest};
use loop_bounds::{Handler, NestFault, nest};
use machine_file::read_profile;
use sources::{Source, SourceFile};
use statement::{Statement, StatementFault, read_statement};
use std::alloc::Global;

/// The cycle profile of a file, or the first one where there is no file.
///
/// # Errors
///
/// `Profile` with the file's fault. `Memory`: an allocation failed.
pub fn profile_of(alloc: Global, file: Option<&[u8]>) -> Result<Profile, ReportFault>
    ensures is { IfOk result (IsProfile (option_map (λ f. f.now) file.entry)) }
    ensures none { IfErr result (HasNoProfile (option_map (λ f. f.now) file.entry)) }
{
    match file {
        Some(text) => {
            let profile = read_profile(alloc, text)?;
            Ok(profile)
        }
        None => Ok(Profile::one()),
    }
}

/// A source, an image where it begins as one, else a text.
///
/// # Errors
///
/// `Source`, with its line, of a text; `Image` of an image. `Memory`: an allocation failed.
pub fn read_source<'a>(alloc: Global, source: SourceFile<'a>) -> Result<Source<'a>, ReportFault>
    ensures is { IfOk result (IsSource (file_of source.entry)) }
    ensures fault { IfErr result (IsSourceFault (file_of source.entry)) }
{
    let read = Source::read(alloc, source)?;
    Ok(read)
}

/// The statement on a source that the text says.
///
/// # Errors
///
/// `Statement` with the text's fault. `Memory`: an allocation failed.
pub(crate) fn stated_on<'a>(
    alloc: Global,
    source: &Source<'_>,
    text: &'a [u8],
) -> Result<Statement, Stop<'a>>
    ensures is { IfOk result (λ s. IsStatement text.now (address_of source.now.labels) (Ok s)) }
    ensures stops { IfErr result (HasNoStatement source.now text.now) }
{
    match read_statement(alloc, text, &source.labels) {
        Ok(statement) => Ok(statement),
        Err(StatementFault::Memory) => Err(Stop::Alone(ReportFault::Memory)),
        Err(fault) => Err(Stop::Statement(text, fault)),
    }
}

/// The handler of a source and a statement.
///
/// # Errors
///
/// The first in the order of the work: statement, graph, loops. `Memory`: an allocation failed.
pub fn read_handler<'s, 'a>(
    alloc: Global,
    source: &'s Source<'_>,
    text: &'a [u8],
    profile: &Profile,
) -> Result<Handler<'s>, Stop<'a>>
    ensures is { IfOk result (IsHandlerOf source.now text.now profile.now) }
    ensures fault { (bytes : File) → Says bytes source.now
        → IfErr result (λ s. IsHandlerRefused bytes text.now profile.now (stop_fault s)) }
    ensures stops { IfErr result (HasNoHandler source.now text.now profile.now) }
    ensures carries { IfErr result (Carries source.now text.now profile.now) }
{
    let statement = stated_on(alloc, source, text)?;
    stated_handler(alloc, source, statement, profile)
}

/// The same, of a statement that was read.
///
/// # Errors
///
/// The first in the order of the work: graph, loops. `Memory`: an allocation failed.
pub(crate) fn stated_handler<'s, 'a>(
    alloc: Global,
    source: &'s Source<'_>,
    statement: Statement,
    profile: &Profile,
) -> Result<Handler<'s>, Stop<'a>>
    ensures is { (text : List ℕ) → IsStatement text (address_of source.now.labels) (Ok statement)
        → IfOk result (IsHandlerOf source.now text profile.now) }
    ensures same { IfOk result (λ h. h.statement ≡ statement) }
    ensures stops { (text : List ℕ) → IsStatement text (address_of source.now.labels) (Ok statement)
        → IfErr result (HasNoHandler source.now text profile.now) }
{
    let graph = match build(alloc, &source.image, &statement, profile) {
        Ok(graph) => graph,
        Err(BuildFault::Memory) => return Err(Stop::Alone(ReportFault::Memory)),
        Err(fault) => return Err(Stop::Graph(statement, *profile, fault)),
    };
    match nest(alloc, &graph, &statement) {
        Ok(tree) => Ok(Handler {
            image: &source.image,
            statement,
            graph,
            tree,
        }),
        Err(NestFault::Memory) => Err(Stop::Alone(ReportFault::Memory)),
        Err(fault) => Err(Stop::Loops(statement, graph, fault)),
    }
}

/// The greatest of a handler's walks.
///
/// # Errors
///
/// `Walk` with `NoCompleteWalk` where no walk from the entry leaves the handler, else with `BoundTooLarge`
/// where a walk from the entry that keeps the bounds costs 2^63 ticks or more, wherever it ends. `Memory`: an
/// allocation failed.
pub fn longest_of(alloc: Global, handler: &Handler<'_>) -> Result<Longest, ReportFault>
    requires { HasItsTree handler.now }
    ensures longest { IfOk result (IsLongest handler.now.graph handler.now.tree) }
    ensures greatest { IfOk result
        (λ l. IsGreatestCost handler.now.graph handler.now.statement.loops l.bound) }
    ensures allowed { OnOk result
        ((fault : WalkFault) → fault ≢ WalkFault.Memory → IsWalkFault handler.now.graph handler.now.tree fault
        → ⊥) }
    ensures fault { OfHandler handler.now
        (λ source statement profile. IfErr result (BeforeOutput (IsRefused source statement profile))) }
    ensures alone { IfErr result ComesAlone }
{
    let found = longest(alloc, &handler.graph, &handler.tree)?;
    Ok(found)
}
