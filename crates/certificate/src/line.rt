use crate::walk::StepLine;
use longest_walk::{InstanceRow, PlaceRow};

/// What a line of a walk says.
#[derive(Clone, Copy)]
pub enum WalkLine {
    /// An edge.
    Step(StepLine),
    /// A walk begins that is taken so many times.
    Repeat(u32),
    /// The walk that is taken several times ends.
    End,
}

/// The versions of the format. The first is for the first cycle profile alone.
#[derive(Clone, Copy)]
pub enum Version {
    One,
    Two,
}

/// What a line of a certificate says.
#[derive(Clone, Copy)]
pub enum Line {
    Title(Version),
    /// The numbers of a cycle profile other than the first.
    Profile([u32; 15]),
    Bound(u64),
    Walk(WalkLine),
    /// The walk has ended.
    Close,
    Place(PlaceRow),
    Instance(InstanceRow),
    Stop,
}
