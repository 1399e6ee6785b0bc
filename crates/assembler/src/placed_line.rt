ghost use Rattle.std.specs.Prelude.{◌+◌, ◌*◌, ◌≤◌};
ghost use Rattle.bus_ticks.specs.declared.space.TheConstants.{SPACE_END};

/// Where a line of a source is placed.
#[derive(Clone, Copy)]
pub struct PlacedLine {
    /// The byte address of its first word and of its label: that after the words of the lines before it, or
    /// that of the ORG in front of it.
    pub at: u32,
    /// How many words it has. An ORG has none.
    pub words: usize,
    ghost within: { at + 4 * words ≤ SPACE_END },
}
