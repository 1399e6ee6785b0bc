//! Where bytes are written: outputs that count their failures, and pages that hold bytes back on their way to
//! one.
#![tactic(auto)]

mod output;
mod page;
mod vec_output;

pub use output::{Output, OutputFault, write_whole};
pub use page::Page;
pub use vec_output::VecOutput;
