//! The limits of the loops that bound walks, and of what a walk costs.

/// The highest bound of a loop: how often a stay among its members may turn back.
pub const MOST_ROUNDS: u32 = 1_048_576;

/// In how many instances of loops a place may lie.
pub const MOST_INSTANCES: usize = 16;

/// A cost of so many ticks or more is too large.
pub const COST_LIMIT: u64 = 1 << 63;
