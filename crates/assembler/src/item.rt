ghost use Rattle.std.specs.Prelude.{◌≤◌};
ghost use Rattle.bus_ticks.specs.declared.space.TheConstants.{SPACE_END};

use asm_text::Reference;

/// What is at an address.
#[derive(Clone, Copy)]
pub enum Pending<'a> {
    /// A word.
    Fixed(u32),
    /// A word with a target.
    Waits(Reference, &'a [u8]),
    /// A label's address.
    Address(&'a [u8]),
}

/// One word of the source.
#[derive(Clone, Copy)]
pub struct Item<'a> {
    /// The number of its line, from 1.
    pub line: usize,
    pub at: u32,
    pub pending: Pending<'a>,
    ghost within: { at ≤ SPACE_END },
}
