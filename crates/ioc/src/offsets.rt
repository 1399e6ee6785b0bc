//! The offsets of IOC's registers, in bytes from 3200000.
//!
//! Of each bank (IRQ A, IRQ B and FIQ): its status, its request, which is status and mask, and its mask. Of
//! each timer: the two bytes of its output, which are written to its latch; where a write has the latch as
//! the count; and where one has the count as the output.

pub(crate) const STATUS_A: u32 = 0x10;
// A write clears the four latched requests.
pub(crate) const REQUEST_A: u32 = 0x14;

pub(crate) const MASK_A: u32 = 0x18;

pub(crate) const STATUS_B: u32 = 0x20;

pub(crate) const REQUEST_B: u32 = 0x24;

pub(crate) const MASK_B: u32 = 0x28;

pub(crate) const STATUS_F: u32 = 0x30;

pub(crate) const REQUEST_F: u32 = 0x34;

pub(crate) const MASK_F: u32 = 0x38;

pub(crate) const TIMER_0_LOW: u32 = 0x40;

pub(crate) const TIMER_0_HIGH: u32 = 0x44;

pub(crate) const TIMER_0_START: u32 = 0x48;

pub(crate) const TIMER_0_SAMPLE: u32 = 0x4C;

pub(crate) const TIMER_1_LOW: u32 = 0x50;

pub(crate) const TIMER_1_HIGH: u32 = 0x54;

pub(crate) const TIMER_1_START: u32 = 0x58;

pub(crate) const TIMER_1_SAMPLE: u32 = 0x5C;
