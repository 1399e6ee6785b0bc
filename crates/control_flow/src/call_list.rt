ghost use Rattle.std.specs.Prelude.{◌≡◌, ℕ, ◌<◌, ◌≤◌, ◌↔◌, List, [], ◌∷◌, ◌++◌, length, ◌-◌};
ghost use Rattle.std.specs.Prelude.{IfSome, IsNone, ◌==◌};
ghost use Rattle.std.proofs.Common.{rules};
ghost use Rattle.std.specs.Cmp.{partial_order_from_own_ties};
ghost use Rattle.std.specs.Cmp.Rules.{comparing};
ghost use Rattle.std.specs.Cmp.Lexicographic.{slice_cmp, pointwise};
ghost use Rattle.std.specs.Ordering.{nat_cmp, as_partial_cmp};
ghost use Rattle.bus_ticks.specs.declared.space.TheConstants.{SPACE_END};

use std::cmp::Ordering;
use std::marker::Model;

/// How many calls a place is inside of at most.
pub const MOST_CALLS: usize = 8;

/// The addresses of the calls that a place is inside of, the outermost first: at most [`MOST_CALLS`], each
/// below 4000000.
#[derive(Clone, Copy)]
pub struct Calls {
    len: usize,
    slots: [u32; MOST_CALLS],
}

impl Model for Calls {
    ghost use Rattle.std.specs.Prelude.{ℕ, List};

    ghost Value = { List ℕ };

    ghost use Rattle.control_flow.specs.Calls.{IsCalls, addresses_of, calls_of};

    ghost view = { addresses_of };

    ghost invariant = { IsCalls };

    ghost inverse = { calls_of };
}

impl Calls {
    /// No calls.
    pub fn new() -> Calls
        ensures { result ≡ [] }
    {
        Calls {
            len: 0,
            slots: [0; MOST_CALLS],
        }
    }

    /// The list with one more address, or None where it holds [`MOST_CALLS`].
    pub fn with(self, address: u32) -> Option<Calls>
        requires { address < SPACE_END }
        ensures longer { IfSome result (λ calls. calls ≡ self ++ address ∷ []) }
        ensures full { IsNone result ↔ (length self ≡ MOST_CALLS) }
        ensures few { length self ≤ MOST_CALLS }
    {
        if self.len == MOST_CALLS {
            return None;
        }
        let mut slots = self.slots;
        slots[self.len] = address;
        Some(Calls {
            len: self.len + 1,
            slots,
        })
    }

    /// The list without its last address, and that address, or None where it is empty.
    pub fn split_last(self) -> Option<(Calls, u32)>
        ensures parts { IfSome result (λ parts. self ≡ parts.0 ++ parts.1 ∷ []) }
        ensures empty { IsNone result ↔ (self ≡ []) }
        ensures small { IfSome result (λ parts. parts.1 < SPACE_END) }
    {
        if self.len == 0 {
            return None;
        }
        let last = self.slots[self.len - 1];
        let mut slots = self.slots;
        slots[self.len - 1] = 0;
        Some((
            Calls {
                len: self.len - 1,
                slots,
            },
            last,
        ))
    }

    /// The addresses, the outermost call's first.
    pub fn items(&self) -> &[u32]
        ensures value { result.now ≡ self.now }
        ensures few { length self.now ≤ MOST_CALLS }
    {
        &self.slots[..self.len]
    }
}

impl PartialEq for Calls {
    ghost eq = { pointwise ◌==◌ };

    ghost laws = { Prim.search (comparing, rules) };

    fn eq(&self, other: &Calls) -> bool {
        self.items() == other.items()
    }
}

impl Eq for Calls {
    ghost laws = { Prim.search (comparing, rules) };
}

impl Ord for Calls {
    ghost cmp = { slice_cmp nat_cmp };

    ghost total = { Prim.search (comparing, rules) };

    ghost matches_partial_cmp = { Prim.search (comparing, rules) };

    ghost matches_eq = { Prim.search (comparing, rules) };

    fn cmp(&self, other: &Calls) -> Ordering {
        // Most places are inside no call.
        if self.len == 0 {
            if other.len == 0 {
                return Ordering::Equal;
            }
        }
        self.items().cmp(other.items())
    }
}

impl PartialOrd for Calls {
    ghost partial_cmp = { as_partial_cmp (slice_cmp nat_cmp) };

    ghost laws = { partial_order_from_own_ties (Prim.search (comparing, rules))
        (Prim.search (comparing, rules)) };

    fn partial_cmp(&self, other: &Calls) -> Option<Ordering> {
        Some(self.cmp(other))
    }
}
