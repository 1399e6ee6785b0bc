//! Words that are moved between registers and memory.

/// Words that are moved, one after the other.
#[derive(Clone, Copy)]
pub struct Transfers {
    /// From registers to memory.
    pub store: bool,
    /// The lowest address, in bytes.
    pub address: u32,
    /// How many words.
    pub words: u32,
}
