//! The control-flow graph of a handler: its places, and the edges between them with their costs in ticks.
#![tactic(auto)]

mod actions;
mod building;
mod call_list;
mod edges;
mod faults;
mod faulty;
mod free_edges;
mod graph;
mod graph_inputs;
mod law;
mod place_edges;
mod places;
mod search;
mod sites;
mod strays;
mod ticks;
mod ways;

pub use actions::{Action, Kind, Work, action_of, base_of, is_multiply, transfer_work};
pub use building::build;
pub use call_list::{Calls, MOST_CALLS};
pub use edges::{Edge, Label};
pub use faults::BuildFault;
pub use faulty::{FaultyPlace, faulty_place};
pub use free_edges::is_free;
pub use graph::Graph;
pub use graph_inputs::GraphInputs;
pub use law::{graphs_are_well_formed, order_of_places, place_limits};
pub use places::Place;
pub use search::MOST_PLACES;
pub use ticks::work_ticks;
pub use ways::{may_do, may_skip};
