ghost use Rattle.flow_graph.specs.StepLaw.{RunLaw, StepCost, StepLaw};
ghost use Rattle.flow_graph.specs.TightFile.{FreeEdgesAreTight};
ghost use Rattle.flow_graph.specs.TightWork.{TightLaw};

/// What the machine's steps cost against the edges of the flow graph: a law over the definitions that
/// [`build`](control_flow::build) and the machine's step keep.
pub fn step_law()
    ensures edge { StepLaw }
    ensures cost { StepCost }
{}

/// A run of the machine whose steps are the edges of a walk costs at most the walk, and the price of its DMA
/// bursts.
pub fn run_law()
    ensures { RunLaw }
{}

/// A machine that is set for an edge takes it at exactly its price, in ticks: it is at the word in SVC
/// mode, with both interrupts masked and ROM's time fields at their dearest, and where the word is done, its
/// registers and memory are such that the word costs the most that it can by what is stated, and leads to the
/// edge's target. The call does nothing.
pub fn tight_law()
    ensures { TightLaw }
{}

/// Each free edge ([`is_free`](control_flow::is_free)) of the flow graph of an image has a machine and an
/// input whose one step takes it at exactly its price, in ticks, and a machine file that states them, such as
/// [`tight_state`](crate::tight_state) returns where memory is found. The machine is set for the edge as
/// [`tight_law`] asks. The call does nothing.
pub fn free_edges_are_tight()
    ensures { FreeEdgesAreTight }
{}
