//! Code of other tools, whose bytes are words at stated addresses, as images: of raw bytes, and of ELF files.
#![tactic(auto)]

mod elf;
mod fault;
mod parts;
#[cfg(test)]
mod tests;

pub use elf::import_elf;
pub use fault::ImportFault;
pub use parts::{MOST_PARTS, Part, import_limits, import_parts};
