//! Where the control-flow graph of a handler meets the machine: a step takes an edge and costs at most its
//! price, and each free edge has a machine that takes it at exactly its price. The graph, and the statement
//! that it is built from, are re-exported as they are.
#![tactic(auto)]

mod label_flags;
mod law;
mod tight;
mod tight_setting;

pub use control_flow::{
    Action, BuildFault, Calls, Edge, FaultyPlace, Graph, Kind, Label, MOST_CALLS, MOST_PLACES,
    Place, Work, action_of, build, faulty_place, is_free, order_of_places, place_limits,
    transfer_work, work_ticks,
};
pub use label_flags::flags_for;
pub use law::{free_edges_are_tight, run_law, step_law, tight_law};
pub use statement::{Loop, MOST_ROUNDS, Statement, StatementFault, read_statement};
pub use tight::{Tight, TightFault, tight_state};
