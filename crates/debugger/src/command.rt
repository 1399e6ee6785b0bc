use ioc::Lines;

/// How many steps `run` makes at most.
pub(crate) const MOST_STEPS: u32 = 65_536;

/// How many steps `step` makes, and shows, at most.
pub(crate) const MOST_SHOWN_STEPS: u32 = 1024;

/// How many words `mem` and `dis` show at most.
pub(crate) const MOST_SHOWN_WORDS: usize = 16;

/// A command, with its numbers in their ranges.
#[derive(Clone, Copy)]
pub enum Command {
    /// A line without words.
    Nothing,
    /// A number of steps.
    Step(u32),
    /// A number of steps, up to a breakpoint.
    Run(u32),
    ListBreaks,
    /// An address.
    Break(u32),
    Regs,
    /// An address and a number of words.
    Mem(u32, u32),
    /// An address and a number of words.
    Dis(u32, u32),
    Ticks,
    /// DMA bursts in the next step.
    Burst(u16),
    /// A line, and whether it is active.
    Line(Lines, bool),
    /// A word.
    Port(u32),
}
