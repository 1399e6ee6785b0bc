//! The assembler: source text to an image and its labels, and words to lines of source.
#![tactic(auto)]

mod assembly;
mod disassembly;
mod encoded;
mod fault;
mod item;
mod law;
mod placed;
mod placed_line;
mod program;
mod reference;
mod spelling;
mod sweep;
mod text;

pub use assembly::{Assembly, assemble};
pub use disassembly::disassemble;
pub use fault::{AsmFault, LineFault};
pub use law::{first_address, sources_are_assembled, sources_are_refused};
pub use placed::placed_lines;
pub use placed_line::PlacedLine;
pub use program::Program;
pub use sweep::FIRST_ADDRESS;
pub use text::Line;
