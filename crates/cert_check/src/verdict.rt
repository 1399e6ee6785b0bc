/// Why a certificate proves nothing.
#[derive(Clone, Copy, Debug, PartialEq, Eq)]
pub enum Objection {
    /// A place or an instance of the handler has no row.
    MissingPlace,
    /// A row is about no place, or no instance, of the handler.
    ExtraPlace,
    /// The row of an edge that neither goes back nor leaves an instance does not hold.
    EdgeTooHeavy,
    /// The row of a back edge does not hold.
    RoundTooHeavy,
    /// The row of an edge that leaves an instance, and is no back edge, does not hold.
    LeaveTooHeavy,
    /// The walk is no complete walk of the handler, or a repeat is not rounds of one instance.
    BrokenWalk,
    /// The walk breaks a bound.
    WalkOverBound,
    /// The walk's cost is not the bound.
    WalkCost,
    /// A row asks for 2^63 or more.
    NumberTooLarge,
    /// The prices are not those of the handler's graph.
    WrongProfile,
}

/// What the check of a certificate answers.
#[derive(Clone, Copy, Debug, PartialEq, Eq)]
pub enum Verdict {
    /// The certificate proves that its bound is the greatest.
    Yes,
    /// It does not, for this reason.
    No(Objection),
}
