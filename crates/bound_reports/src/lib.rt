//! Reports of a handler's bound: the certificate of it, with FIQ's visits too, and the machine that takes an
//! edge of the flow graph at its price.
#![tactic(auto)]

mod bound;
mod tight;
mod visit_rate;
mod visits;
mod visits_summary;

pub use bound::{BoundReport, bound_report, longest_report, print_bound};
pub use tight::{AskedEdge, print_tight, tight_report};
pub use visit_rate::VisitRate;
pub use visits::{VisitedHandler, visits_report};
