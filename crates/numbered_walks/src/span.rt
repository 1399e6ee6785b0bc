/// An edge between numbers of places; that of Exit is the number of places.
#[derive(Clone, Copy, Debug, PartialEq, Eq)]
pub struct NumberedEdge {
    /// The number that it leaves.
    pub from: usize,
    /// The number where it ends.
    pub to: usize,
    /// What it costs, in ticks.
    pub cost: u32,
}

/// An instance in the order of a tree: the numbers of its members, from its header's to the greatest.
#[derive(Clone, Copy, Debug, PartialEq, Eq)]
pub struct Span {
    /// The header's number, the least of the members'.
    pub header: usize,
    /// The greatest number of a member.
    pub last: usize,
    /// The most back edges that one stay takes, from 0 to 1,048,576.
    pub bound: u32,
}
