//! Loads and stores of the ARM2: what they do to the registers, to memory and to the devices, and the ticks
//! that they take.
//!
//! They are single ones and those of a list of registers. A [`Processor`] carries out every instruction, and
//! has `arm2_effect` do all others. The rules are those of the VL86C010 data sheet, and where it is silent our
//! own: all words of a transfer are located before the first is moved, so an aborted one changes nothing.
//! Every call takes constant time.
#![tactic(auto)]

mod addresses;
mod block_transfer;
mod bus;
mod law;
mod operations;
mod processor;
mod registers;
mod run;
mod single_fields;
mod single_transfer;
mod span;
mod transfer_ends;
mod words;

pub use addresses::{address_by, lowest_of};
pub use bus::Bus;
pub use law::bases_after_transfers;
pub use processor::Processor;
