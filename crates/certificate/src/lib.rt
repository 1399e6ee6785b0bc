//! The text of a certificate: the bound, a walk written with repeats, and the numbers that prove the bound.
//! Each certificate has one spelling, which [`print_cert`] writes and [`read_cert`] reads.
#![tactic(auto)]

mod cert;
mod draft;
mod fault;
mod fields;
mod hex_text;
mod law;
mod line;
mod line_end;
mod line_reading;
mod line_text;
mod lines_lately;
mod numbers;
mod open_walk;
mod reading;
mod splitting;
mod steps_lately;
mod walk;
mod writing;

pub use cert::Cert;
pub use fault::CertFault;
pub use law::{longest_can_be_spelled, one_text_each};
pub use line::WalkLine;
pub use longest_walk::{InstanceRow, PlaceRow};
pub use reading::read_cert;
pub use walk::{CertItem, CertWalk, StepLine, To};
pub use writing::{print_cert, write_cert, write_edge};
