//! What reports are made of, and why there is none: the words of a source, a cycle profile, a handler with
//! its flow graph, loops and greatest walk, FIQ's handler, a machine with the source's words in its memory;
//! outputs, the faults of reports, what comes with a refusal, and its line.
#![tactic(auto)]

mod alone;
mod apart;
mod fault;
mod fault_names;
mod fiq;
mod handler;
mod law;
mod meeting;
mod output;
mod parts;
mod placing;
mod refusal;
mod refusal_line;
mod visited_bound;

pub use alone::bound_of;
pub use apart::{VisitStop, read_apart, refused_on};
pub use fault::ReportFault;
pub use fault_names::fault_name;
pub use fiq::fiq_handler;
pub use handler::{longest_of, profile_of, read_handler, read_source};
pub use law::{apart_is_taken_every, visited_is_taken_every};
pub use loop_bounds::Handler;
pub use meeting::first_shared;
pub use output::{MemoryOutput, StreamOutput, print_answer};
pub use placing::{Placed, place, place_image};
pub use refusal::{Refusal, Stop, fault_only, print_or_refuse, with_source};
pub use refusal_line::{FaultPlace, fault_place, print_refusal_line};
pub use visited_bound::VisitedBound;
