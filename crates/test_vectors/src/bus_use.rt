//! What a step does on the bus.

ghost use Rattle.std.specs.Prelude.{◌≡◌};
ghost use Rattle.test_vectors.specs.Shape.{is_store, settled};
ghost use Rattle.test_vectors.specs.Writing.{FewWords};

use arm2_exec::Kind;
use json_trace::Transfers;

/// What a step does on the bus, by its address and the next one.
#[derive(Clone, Copy)]
pub(crate) enum BusUse {
    /// Nothing: the machine stopped.
    Nothing,
    /// Internal cycles, if there are any, the fetch ahead, and two fetches more where it jumps.
    Fetches { delay: Option<u32>, jumps: bool },
    /// The fetch ahead, the words that are loaded, an internal cycle, and two fetches more where it jumps.
    Loads { words: Transfers, jumps: bool },
    /// The fetch ahead, and the words that are stored.
    Stores { words: Transfers },
}

/// What a step of a kind does, whose instruction was to do this.
pub(crate) fn settled(kind: Kind, planned: BusUse) -> BusUse
    ensures does { result ≡ settled kind planned }
    ensures few { FewWords planned → FewWords result }
{
    match kind {
        Kind::Plain => planned,
        Kind::Taken(_) => BusUse::Fetches {
            delay: None,
            jumps: true,
        },
        Kind::Stopped(_) => BusUse::Nothing,
    }
}

/// Whether it stores words.
pub(crate) fn is_store(done: BusUse) -> bool
    ensures { result ≡ is_store done }
{
    match done {
        BusUse::Stores { .. } => true,
        BusUse::Nothing | BusUse::Fetches { .. } | BusUse::Loads { .. } => false,
    }
}
