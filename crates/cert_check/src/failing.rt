ghost use Rattle.std.specs.Prelude.{◌≡◌};
ghost use Rattle.cert_check.specs.Failing.{objection_of, verdict_of};

use crate::verdict::{Objection, Verdict};
use control_flow::{Edge, Place};

/// The row of an edge that asks for more than the number that it is about.
#[derive(Clone, Copy)]
pub struct HeavyRow {
    /// The edge.
    pub edge: Edge,
    /// What the row asks for, in ticks, below 2^63: the distance of the place that the edge leaves, a whole
    /// stay in each instance that it leaves, and its cost.
    pub needed: u64,
    /// The number that the certificate states at the edge's end, in ticks.
    pub stated: u64,
}

/// What fails in a certificate: where its objection comes from.
#[derive(Clone, Copy)]
pub enum FailingRow {
    /// The prices are not those of the handler's graph.
    WrongProfile,
    /// No row is about this place.
    MissingPlace(Place),
    /// No row is about the instance with this header.
    MissingInstance(Place),
    /// A row is about this, and the graph has no such place.
    ExtraPlace(Place),
    /// A row is about an instance with this header, and there is none.
    ExtraInstance(Place),
    /// The row of this edge asks for 2^63 or more.
    NumberTooLarge(Edge),
    /// The row of an edge that neither goes back nor leaves an instance.
    EdgeTooHeavy(HeavyRow),
    /// The row of a back edge.
    RoundTooHeavy(HeavyRow),
    /// The row of an edge that leaves an instance, and is no back edge.
    LeaveTooHeavy(HeavyRow),
    /// The first item of the walk's list, counted from 0, with which it is no walk of the handler.
    BrokenWalk(usize),
    /// The walk ends at this place, inside the handler.
    OpenWalk(Place),
    /// The header and the bound of an instance in which a stay of the walk turns back more often.
    WalkOverBound(Place, u32),
    /// What the walk costs, in ticks, capped at [`COST_CAP`](crate::COST_CAP), 2^64.
    WalkCost(u128),
}

/// The objection for which this fails.
pub fn objection_of(row: &FailingRow) -> Objection
    ensures { result ≡ objection_of row.now }
{
    match row {
        FailingRow::WrongProfile => Objection::WrongProfile,
        FailingRow::MissingPlace(_) | FailingRow::MissingInstance(_) => Objection::MissingPlace,
        FailingRow::ExtraPlace(_) | FailingRow::ExtraInstance(_) => Objection::ExtraPlace,
        FailingRow::NumberTooLarge(_) => Objection::NumberTooLarge,
        FailingRow::EdgeTooHeavy(_) => Objection::EdgeTooHeavy,
        FailingRow::RoundTooHeavy(_) => Objection::RoundTooHeavy,
        FailingRow::LeaveTooHeavy(_) => Objection::LeaveTooHeavy,
        FailingRow::BrokenWalk(_) | FailingRow::OpenWalk(_) => Objection::BrokenWalk,
        FailingRow::WalkOverBound(_, _) => Objection::WalkOverBound,
        FailingRow::WalkCost(_) => Objection::WalkCost,
    }
}

/// The verdict on a certificate in which this fails, or nothing.
pub fn verdict_of(row: Option<FailingRow>) -> Verdict
    ensures { result ≡ verdict_of row }
{
    match row {
        None => Verdict::Yes,
        Some(row) => Verdict::No(objection_of(&row)),
    }
}
