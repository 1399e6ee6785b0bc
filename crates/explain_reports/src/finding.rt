//! What is found of a certificate, by the handler of a source and a statement.

ghost use Rattle.std.specs.Prelude.{◌≡◌, ◌∷◌, [], List, ℕ, Option, IfErr, IfOk};
ghost use Rattle.bus_ticks.specs.declared.profile.Profile.{Profile};
ghost use Rattle.cert_check.specs.Columns.{Ascends};
ghost use Rattle.loop_bounds.specs.Handler.{HasItsTree};
ghost use Rattle.loop_bounds.specs.Tree.{IsTree};
ghost use Rattle.explain_reports.specs.Check.{IsCheckRefused, IsCheckable};
ghost use Rattle.explain_reports.specs.Found.{Finds, FindsRow, FindsVerdict, IsFound};
ghost use Rattle.handlers.specs.Refusal.{ComesAlone, Carries, CarriesRead, stop_fault, fault_only};
ghost use Rattle.handlers.specs.Report.{BeforeOutput, OfHandler};
ghost use Rattle.sources.specs.Source.{Says};
ghost use Rattle.sources.specs.File.{File, file_of};

use crate::check::CheckInputs;
use bus_ticks::Profile;
use cert_check::{CheckFault, FailingRow, Verdict, check, failing_row};
use certificate::{Cert, read_cert};
use control_flow::{Graph, graphs_are_well_formed};
use handlers::{Handler, Refusal, ReportFault, Stop, read_handler, read_source, with_source};
use loop_bounds::LoopTree;
use sources::Source;
use std::alloc::Global;

/// What the checker finds of a certificate.
pub(crate) trait Finding: Sized + Drop {
    /// What it says of a graph, the tree of its loops and a certificate.
    ghost says: { Finds Self };

    /// The only refusal is `Memory`.
    fn find(alloc: Global, graph: &Graph, tree: &LoopTree, cert: &Cert) -> Result<Self, CheckFault>
        requires tree { IsTree graph.now tree.now }
        requires ascending { Ascends cert.now }
        ensures { IfOk result (says graph.now tree.now cert.now) };
}

impl Finding for Verdict {
    ghost says = { FindsVerdict };

    fn find(
        alloc: Global,
        graph: &Graph,
        tree: &LoopTree,
        cert: &Cert,
    ) -> Result<Verdict, CheckFault> {
        check(alloc, graph, tree, cert)
    }
}

impl Finding for Option<FailingRow> {
    ghost says = { FindsRow };

    fn find(
        alloc: Global,
        graph: &Graph,
        tree: &LoopTree,
        cert: &Cert,
    ) -> Result<Option<FailingRow>, CheckFault> {
        failing_row(alloc, graph, tree, cert)
    }
}

// What is found of a certificate by a handler.
fn found_on<F: Finding>(alloc: Global, handler: &Handler<'_>, cert: &[u8]) -> Result<F, ReportFault>
    requires { HasItsTree handler.now }
    ensures found { OfHandler handler.now
        (λ source statement profile. IfOk result (IsFound F.says source statement cert.now profile)) }
    ensures fault { OfHandler handler.now
        (λ source statement profile. IfErr result
        (BeforeOutput (IsCheckRefused source statement cert.now profile))) }
    ensures only { (source : File) (statement : List ℕ) (profile : Profile)
        → IsCheckable source statement cert.now profile → IfErr result (λ e. e ≡ ReportFault.Memory) }
    ensures alone { IfErr result ComesAlone }
{
    graphs_are_well_formed(&handler.graph);
    let read = read_cert(alloc, cert)?;
    let found = F::find(alloc, &handler.graph, &handler.tree, &read)?;
    Ok(found)
}

// The same, by the handler of a source that was read.
fn source_found<'a, F: Finding>(
    alloc: Global,
    said: &Source<'_>,
    inputs: CheckInputs<'a>,
    profile: &Profile,
) -> Result<F, Stop<'a>>
    ensures found { (source : File) → Says source said.now
        → IfOk result (IsFound F.says source inputs.entry.statement.now inputs.entry.cert.now profile.now) }
    ensures fault { (source : File) → Says source said.now
        → IfErr result (λ s. BeforeOutput (IsCheckRefused source inputs.entry.statement.now
        inputs.entry.cert.now profile.now) (stop_fault s)) }
    ensures only { (source : File) → Says source said.now
        → IsCheckable source inputs.entry.statement.now inputs.entry.cert.now profile.now
        → IfErr result (λ s. stop_fault s ≡ ReportFault.Memory) }
    ensures carries { IfErr result (Carries said.now inputs.entry.statement.now profile.now) }
{
    let handler = read_handler(alloc, said, inputs.statement, profile)?;
    Ok(found_on(alloc, &handler, inputs.cert)?)
}

/// What is found of the certificate by a source's handler.
pub(crate) fn found_of<'a, F: Finding>(
    alloc: Global,
    inputs: CheckInputs<'a>,
    profile: &Profile,
) -> Result<F, Refusal<'a>>
    ensures found { IfOk result
        (IsFound F.says (file_of inputs.entry.source) inputs.entry.statement.now inputs.entry.cert.now
        profile.now) }
    ensures fault { IfErr (fault_only result)
        (BeforeOutput (IsCheckRefused (file_of inputs.entry.source) inputs.entry.statement.now
        inputs.entry.cert.now profile.now)) }
    ensures only { IsCheckable (file_of inputs.entry.source) inputs.entry.statement.now inputs.entry.cert.now
        profile.now → IfErr (fault_only result) (λ e. e ≡ ReportFault.Memory) }
    ensures carries { IfErr result
        (CarriesRead (file_of inputs.entry.source) (inputs.entry.statement.now ∷ []) profile.now) }
{
    let said = read_source(alloc, inputs.source)?;
    let found = source_found(alloc, &said, inputs, profile);
    with_source(said, found)
}
