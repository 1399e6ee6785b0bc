//! Response times: how long after an interrupt's line rises the handler's first step at an address ends.
//!
//! The step in progress ends, the processor may hold the interrupt back, then it takes it, and the handler
//! comes to the address. The prices of that step and of the entry are greatest over all programs.
#![tactic(auto)]

mod arriving;
mod interrupts;
mod law;
mod longest;
mod response;
mod ways;

pub use arriving::{worst_arrival, worst_step_at};
pub use interrupts::{Interrupt, entry_ticks, irq_entry};
pub use law::{
    irq_costs_its_entry, response_law, some_run_serves, unmasked_is_taken, visited_response_law,
};
pub use longest::longest_step;
pub use response::ResponseParts;
