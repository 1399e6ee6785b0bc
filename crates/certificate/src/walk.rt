use control_flow::Label;
use numbered_walks::ItemList;

/// Where an edge leads, as a certificate names it.
#[derive(Clone, Copy, Debug, PartialEq, Eq)]
pub enum To {
    /// To the instruction at this address, below 4000000.
    At(u32),
    /// Out of the handler.
    Exit,
}

/// An edge, as a certificate names it. The calls that it is inside of follow from the walk.
#[derive(Clone, Copy, PartialEq, Eq)]
pub struct StepLine {
    /// The address of the instruction that the edge leaves, below 4000000.
    pub address: u32,
    /// Whether the instruction is passed over or done.
    pub label: Label,
    /// Where the edge leads.
    pub to: To,
    /// The edge's cost in ticks, from 1 to 2^63 - 1.
    pub cost: u64,
}

/// A part of a certificate's walk.
#[derive(Drop)]
pub enum CertItem {
    /// One edge.
    Step(StepLine),
    /// A walk, taken so many times, from 1 to 1,048,576.
    Repeat(u32, Vec<CertItem>),
}

/// A certificate's walk: a list of edges and of walks that are taken several times.
pub type CertWalk = ItemList<CertItem>;
