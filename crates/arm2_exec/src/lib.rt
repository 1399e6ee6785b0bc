//! The Archimedes, step by step: an ARM2 with its memory controller MEMC, IOC and VIDC.
//!
//! A tick is one cycle of the 8 MHz processor. A step is one instruction or the entry of an interrupt.
//! The processor is that of the VL86C010 data sheet. The memory map, the devices and the prices are our own
//! profile, shaped on the data sheets of VL86C110, VL86C410 and VL86C310.
#![tactic(auto)]

mod decoded;
mod law;
mod machine;
mod step_work;

pub use arm2_effect::{Kind, Reg, Vector, Why};
pub use law::{exceptions_keep_the_rest, fiq_costs_its_entry};
pub use machine::{Input, Machine, MachineFault, Ran, Stepped, Traced};
