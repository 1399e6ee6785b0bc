ghost use Rattle.std.specs.Prelude.{◌≡◌, ◌+◌, ◌<◌, ◌^◌};

use crate::exceptions::Vector;

/// Why a step stops the machine.
#[derive(Clone, Copy, Debug, PartialEq, Eq)]
pub enum Why {
    /// The word is no instruction.
    Unallocated,
    /// A store asks for what this machine does not do, as a change of the page size.
    UnsupportedWrite,
}

/// How a step ends.
#[derive(Clone, Copy, Debug, PartialEq, Eq)]
pub enum Kind {
    /// An instruction was done, or passed over.
    Plain,
    /// An exception was taken.
    Taken(Vector),
    /// Nothing was done.
    Stopped(Why),
}

/// How a step ended, and how long it took.
#[derive(Clone, Copy)]
pub struct Done {
    pub kind: Kind,
    /// In ticks of the processor.
    pub ticks: u32,
    ghost few: { ticks < 2 ^ 16 },
}

impl Done {
    /// The answer of a step that does an instruction or passes it over, in so many ticks.
    #[inline(always)]
    pub(crate) fn plain(ticks: u32) -> Self
        requires { ticks < 2 ^ 16 }
        ensures kind { result.kind ≡ Kind.Plain }
        ensures ticks { result.ticks ≡ ticks }
    {
        Done {
            kind: Kind::Plain,
            ticks,
        }
    }

    /// The same answer, so many ticks later.
    #[inline(always)]
    pub(crate) fn delayed(self, ticks: u32) -> Self
        requires { ticks + self.ticks < 2 ^ 16 }
        ensures kind { result.kind ≡ self.kind }
        ensures ticks { result.ticks ≡ ticks + self.ticks }
    {
        Done {
            kind: self.kind,
            ticks: ticks + self.ticks,
        }
    }

    /// The answer of a step that stops: no time passes.
    pub fn stopped(why: Why) -> Self
        ensures kind { result.kind ≡ Kind.Stopped why }
        ensures ticks { result.ticks ≡ 0 }
    {
        Done {
            kind: Kind::Stopped(why),
            ticks: 0,
        }
    }
}
