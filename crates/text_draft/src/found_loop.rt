ghost use Rattle.std.specs.Prelude.{◌≤◌, ◌↔◌, IsTrue};

/// A loop that can be stated, by the addresses of its header and of its first and last instruction.
#[derive(Clone, Copy)]
pub struct FoundLoop {
    pub header: u32,
    pub first: u32,
    pub last: u32,
    /// How many loops lie around it.
    pub depth: u32,
    /// How often it turns back, where the words show it.
    pub turns: Option<u32>,
    /// Whether a proof is claimed for that.
    pub proved: bool,
    ghost from_first: { first ≤ header },
    ghost to_last: { header ≤ last },
}

impl FoundLoop {
    /// Whether an address lies from the first to the last.
    pub fn holds(&self, at: u32) -> bool
        ensures { IsTrue result ↔ (self.now.first ≤ at × (at ≤ self.now.last)) }
    {
        self.first <= at && at <= self.last
    }
}
