//! The memory controller: RAM in pages of one of four sizes, who may use them, and what answers at an
//! address.
#![tactic(auto)]

mod law;
mod memory;
mod pages;
mod spots;

pub use law::controller_map;
pub use memory::Memc;
pub use pages::PHYSICAL_PAGES;
pub use spots::{MapFault, MemcFault, PageSize, Refused, Spot};
