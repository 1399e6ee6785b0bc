use crate::bus::Bus;
use arm2_effect::{Prices, Registers};

/// The processor with what its instructions work on: its registers, the bus, the port, and the prices of
/// accesses.
#[derive(Drop)]
pub struct Processor {
    pub registers: Registers,
    pub bus: Bus,
    /// The word that a load reads among the devices where IOC has no register.
    pub port: u32,
    pub prices: Prices,
}
