ghost use Rattle.std.specs.Prelude.{◌≡◌, ◌++◌, ◌∷◌, [], map, All, IfErr, IfOk, OnOk, Some, None, ◌<◌};
ghost use Rattle.bus_ticks.specs.declared.space.TheConstants.{SPACE_END};
ghost use Rattle.control_flow.specs.Edges.{call_places, places_at, return_place, skip_edge};
ghost use Rattle.control_flow.specs.Kinds.{IsWork};
ghost use Rattle.control_flow.specs.Places.{IsInSpace};
ghost use Rattle.control_flow.specs.Search.{AddsEdges, IsEdgeFault, IsSound, call_fault, unstated_fault};
ghost use Rattle.control_flow.specs.Sites.{IsMemoryOr, all_edges, done_edges, done_fault, edge_to};
ghost use Rattle.control_flow.specs.Sites.{site_fault};
ghost use Rattle.control_flow.specs.Sites.{site_writer_fault, writer_places};

use crate::actions::{Kind, action_of};
use crate::call_list::Calls;
use crate::edges::{Edge, Label};
use crate::faults::BuildFault;
use crate::graph_inputs::GraphInputs;
use crate::places::Place;
use crate::sites::Site;
use crate::ticks::{do_ticks, passing_ticks};
use crate::ways::{may_do, may_skip};
use arm2_effect::branch_target;
use bus_ticks::ahead_of;
use statement::{Returns, TargetKind};
use std::alloc::Global;

// Where a word goes: to those addresses, inside the calls.
#[derive(Clone, Copy)]
struct Landing<'a> {
    calls: Calls,
    to: &'a [u32],
}

// The edge that passes over the word.
fn push_skip(out: &mut Vec<Edge>, site: &Site) -> Result<(), BuildFault>
    ensures ok { OnOk result
        (out.new.items
        ≡ out.old.items ++ skip_edge site.now.inputs.profile.now site.now.calls site.now.address ∷ []) }
    ensures fault { IfErr result (λ fault. fault ≡ BuildFault.Memory) }
{
    out.push(Edge {
        from: Place::At(site.calls, site.address),
        label: Label::Skip,
        to: Place::At(site.calls, ahead_of(site.address, 4)),
        cost: passing_ticks(site.inputs.profile, site.address),
    })?;
    Ok(())
}

// The edge that does the word and goes to that place.
fn push_do(out: &mut Vec<Edge>, site: &Site, to: Place) -> Result<(), BuildFault>
    requires work { IsWork site.now.action.work }
    requires to { IsInSpace to }
    ensures ok { OnOk result
        (out.new.items ≡ out.old.items ++ edge_to site.now to ∷ []) }
    ensures fault { IfErr result (λ fault. fault ≡ BuildFault.Memory) }
{
    out.push(Edge {
        from: Place::At(site.calls, site.address),
        label: Label::Do,
        to,
        cost: do_ticks(site, &to),
    })?;
    Ok(())
}

// The edges that do the word and go where it lands.
fn push_landing(out: &mut Vec<Edge>, site: &Site, landing: &Landing) -> Result<(), BuildFault>
    requires work { IsWork site.now.action.work }
    requires to { All (λ a. a < SPACE_END) landing.now.to.now }
    ensures ok { OnOk result
        (out.new.items ≡ out.old.items ++ map (edge_to site.now)
        (places_at landing.now.calls landing.now.to.now)) }
    ensures fault { IfErr result (λ fault. fault ≡ BuildFault.Memory) }
{
    for address in landing.to {
        push_do(out, site, Place::At(landing.calls, *address))?;
    }
    Ok(())
}

// The edges of a word that calls one of those addresses.
fn push_call(out: &mut Vec<Edge>, site: &Site, to: &[u32]) -> Result<(), BuildFault>
    requires address { site.now.address < SPACE_END }
    requires work { IsWork site.now.action.work }
    requires to { All (λ a. a < SPACE_END) to.now }
    ensures ok { OnOk result
        (out.new.items ≡ out.old.items ++ map (edge_to site.now)
        (call_places site.now.calls site.now.address to.now)) }
    ensures sound { OnOk result (call_fault site.now.calls ≡ None) }
    ensures fault { IfErr result (IsMemoryOr (call_fault site.now.calls)) }
{
    match site.calls.with(site.address) {
        Some(calls) => push_landing(out, site, &Landing { calls, to }),
        None => Err(BuildFault::TooDeep),
    }
}

// Where a return goes.
fn return_place(calls: &Calls) -> Place
    ensures value { result ≡ return_place calls.now }
    ensures fits { IsInSpace result }
{
    match calls.split_last() {
        Some((outer, last)) => Place::At(outer, ahead_of(last, 4)),
        None => Place::Exit,
    }
}

// The edge of a word that writes R15 and has no stated target: a return.
fn push_unstated(out: &mut Vec<Edge>, site: &Site) -> Result<(), BuildFault>
    requires work { IsWork site.now.action.work }
    ensures ok { OnOk result
        (out.new.items ≡ out.old.items ++ edge_to site.now (return_place site.now.calls) ∷ []) }
    ensures sound { OnOk result
        (unstated_fault site.now.inputs.statement.now.returns site.now.address ≡ None) }
    ensures fault { IfErr result
        (IsMemoryOr (unstated_fault site.now.inputs.statement.now.returns site.now.address)) }
{
    match site.inputs.statement.returns() {
        Returns::Assumed => push_do(out, site, return_place(&site.calls)),
        Returns::Stated => Err(BuildFault::UnstatedTarget(site.address)),
    }
}

// The edges of a word that writes R15, by what is stated of it.
fn push_writer(out: &mut Vec<Edge>, site: &Site) -> Result<(), BuildFault>
    requires address { site.now.address < SPACE_END }
    requires work { IsWork site.now.action.work }
    ensures ok { OnOk result
        (out.new.items ≡ out.old.items ++ map (edge_to site.now) (writer_places site.now)) }
    ensures sound { OnOk result (site_writer_fault site.now ≡ None) }
    ensures fault { IfErr result (IsMemoryOr (site_writer_fault site.now)) }
{
    let Some(target) = site.inputs.statement.target_at(site.address) else {
        return push_unstated(out, site);
    };
    match target.kind() {
        TargetKind::Jump => {
            let (calls, to) = (site.calls, target.to());
            push_landing(out, site, &Landing { calls, to })
        }
        TargetKind::Call => push_call(out, site, target.to()),
        TargetKind::Return => push_do(out, site, return_place(&site.calls)),
        TargetKind::Leave => push_do(out, site, Place::Exit),
    }
}

// The edges that do the word.
fn push_done(out: &mut Vec<Edge>, site: &Site) -> Result<(), BuildFault>
    requires address { site.now.address < SPACE_END }
    requires work { IsWork site.now.action.work }
    ensures ok { OnOk result
        (out.new.items ≡ out.old.items ++ done_edges site.now) }
    ensures sound { OnOk result (done_fault site.now ≡ None) }
    ensures fault { IfErr result (IsMemoryOr (done_fault site.now)) }
{
    let address = site.address;
    match site.action.kind {
        Kind::Plain => {
            let next = Place::At(site.calls, ahead_of(address, 4));
            push_do(out, site, next)
        }
        Kind::Branch(offset) => {
            let to = Place::At(site.calls, branch_target(address, offset));
            push_do(out, site, to)
        }
        Kind::Call(offset) => { push_call(out, site, &[branch_target(address, offset)]) }
        Kind::Writer => push_writer(out, site),
        Kind::Trap => Err(BuildFault::TrapInHandler(address)),
        Kind::Unallocated => Err(BuildFault::UnallocatedWord(address)),
    }
}

// The edges of a word.
fn push_word(out: &mut Vec<Edge>, site: &Site) -> Result<(), BuildFault>
    requires address { site.now.address < SPACE_END }
    requires work { IsWork site.now.action.work }
    ensures ok { OnOk result
        (out.new.items ≡ out.old.items ++ all_edges site.now) }
    ensures sound { OnOk result (site_fault site.now ≡ None) }
    ensures fault { IfErr result (IsMemoryOr (site_fault site.now)) }
{
    let taken = site.inputs.statement.taken_at(site.address);
    if may_skip(site.action.cond, taken) {
        push_skip(out, site)?;
    }
    if may_do(site.action.cond, taken) {
        push_done(out, site)?;
    }
    Ok(())
}

impl GraphInputs<'_> {
    /// Adds the edges of a place.
    pub(crate) fn push_edges(&self, out: &mut Vec<Edge>, place: &Place) -> Result<(), BuildFault>
        ensures adds { OnOk result
            (AddsEdges self.now.image.now self.now.statement.now self.now.profile.now place.now
            out.old.items out.new.items) }
        ensures sound { OnOk result (IsSound self.now.image.now self.now.statement.now place.now) }
        ensures fault { IfErr result
            (IsEdgeFault self.now.image.now self.now.statement.now place.now) }
    {
        let (calls, address) = match place {
            Place::Exit => return Ok(()),
            Place::At(calls, address) => (calls, *address),
        };
        let Some(word) = self.image.word_at(address) else {
            return Err(BuildFault::OutsideImage(address));
        };
        let site = Site {
            inputs: *self,
            calls: *calls,
            address,
            action: action_of(word),
        };
        push_word(out, &site)
    }

    /// The edges of a place.
    pub(crate) fn edges_at(&self, alloc: Global, place: &Place) -> Result<Vec<Edge>, BuildFault>
        ensures adds { IfOk result
            (λ edges. AddsEdges self.now.image.now self.now.statement.now self.now.profile.now
            place.now [] edges.items) }
        ensures sound { OnOk result (IsSound self.now.image.now self.now.statement.now place.now) }
        ensures fault { IfErr result
            (IsEdgeFault self.now.image.now self.now.statement.now place.now) }
    {
        let mut edges = Vec::new(alloc);
        self.push_edges(&mut edges, place)?;
        Ok(edges)
    }
}
