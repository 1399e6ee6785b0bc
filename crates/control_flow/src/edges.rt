use crate::places::Place;

/// Whether an instruction is passed over, since its condition fails, or done.
#[derive(Clone, Copy, PartialEq, Eq)]
pub enum Label {
    Skip,
    Do,
}

/// A step of a walk, with its cost in ticks.
#[derive(Clone, Copy)]
pub struct Edge {
    pub from: Place,
    pub label: Label,
    pub to: Place,
    pub cost: u32,
}
