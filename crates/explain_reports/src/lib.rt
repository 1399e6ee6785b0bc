//! Reports that judge and explain a bound: the verdict on a certificate and what fails in it, where the ticks
//! of a bound go, drawings of the flow graph with them, and pages of HTML.
#![tactic(auto)]

mod check;
mod each;
mod explain;
mod finding;
mod first_starts;
mod graph;
mod html;
mod law;
mod verdict;

pub use check::{CheckInputs, check_report, print_check};
pub use explain::{Explained, TableForm, explain_report};
pub use graph::{DrawnHandler, graph_report};
pub use html::page_report;
pub use law::certificates_are_accepted;
pub use text_graph::Extent;
pub use verdict::verdict_report;
