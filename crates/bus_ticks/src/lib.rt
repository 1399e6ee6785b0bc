//! Prices of bus accesses, in ticks.
//!
//! A tick is one cycle of the 8 MHz processor. What an access costs depends on the class of its
//! address, on whether it follows the access before it, and on the fifteen numbers of a [`Profile`].
#![tactic(auto)]

mod dearest;
mod law;
mod prices;
mod profile;
mod space;
mod worst;

pub use dearest::{dearest_device, dearest_leave, dearest_ram_start, dearest_rom_times};
pub use law::{
    devices_cost_their_speed, fetches_cost_the_worst, memory_map, rom_blocks_cost_the_worst,
};
pub use prices::{class_of, fetch_n, fetch_s, narrowest_class, transfer};
pub use profile::{Class, NumbersFault, Profile, RomTimes};
pub use space::{
    FAST_START, FIQ_VECTOR, HIGH_ROM_START, IO_START, MEDIUM_START, PHYSICAL_START, ROM_START,
    SPACE_END, SYNCHRONOUS_START, ahead_of, is_word_address, word_address,
};
pub use worst::{fiq_entry, worst_fetch_n, worst_fetch_s, worst_leave, worst_transfer};
