/// Where the words of a block lie.
#[derive(Clone, Copy)]
pub struct Span {
    /// The lowest address, of 32 bits, a multiple of 4.
    pub lowest: u32,
    /// From 1 to 16.
    pub words: u32,
    /// The base after the transfer.
    pub base: u32,
}
