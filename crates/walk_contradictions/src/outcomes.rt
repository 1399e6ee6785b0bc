//! How conditions come out, and sets of that.

ghost use Rattle.std.specs.Prelude.{◌≡◌, ◌↔◌, ◌⊎◌, ◌<◌, ◌≤◌, ℕ, Bool, IsTrue, true, false};
ghost use Rattle.std.specs.Prelude.{slice_index_or};
ghost use Rattle.arm2_decode.specs.declared.flags.Flags.{Flags};
ghost use Rattle.arm2_decode.specs.declared.names.Cond.TheVariants.{Al};
ghost use Rattle.walk_contradictions.specs.Outcomes.{Exclude, Gives};
ghost use Rattle.walk_contradictions.specs.declared.outcomes.Outcome.{Outcome};
ghost use Rattle.walk_contradictions.specs.Passing.{Excludes, ExcludesAt, ExcludesBy, has};

use arm2_decode::{Cond, Flags, holds};

/// A condition, and whether it holds.
#[derive(Clone, Copy, Debug, PartialEq, Eq)]
pub(crate) struct Outcome {
    pub cond: Cond,
    pub holds: bool,
}

// Whether the flags give both.
fn gives_both(one: Outcome, other: Outcome, flags: Flags) -> bool
    ensures { IsTrue result ↔ (Gives flags one × Gives flags other) }
{
    holds(one.cond, flags) == one.holds && holds(other.cond, flags) == other.holds
}

fn some_overflow(one: Outcome, other: Outcome, negative: bool, zero: bool, carry: bool) -> bool
    ensures { IsTrue result ↔ ((overflow : Bool)
        × (Gives (record { negative = negative; zero = zero; carry = carry; overflow = overflow }) one
        × Gives (record { negative = negative; zero = zero; carry = carry; overflow = overflow }) other)) }
{
    let flags = Flags {
        negative,
        zero,
        carry,
        overflow: false,
    };
    if gives_both(one, other, flags) {
        return true;
    }
    let flags = Flags {
        negative,
        zero,
        carry,
        overflow: true,
    };
    gives_both(one, other, flags)
}

fn some_carry(one: Outcome, other: Outcome, negative: bool, zero: bool) -> bool
    ensures { IsTrue result ↔ ((carry : Bool) × ((overflow : Bool)
        × (Gives (record { negative = negative; zero = zero; carry = carry; overflow = overflow }) one
        × Gives (record { negative = negative; zero = zero; carry = carry; overflow = overflow }) other))) }
{
    if some_overflow(one, other, negative, zero, false) {
        return true;
    }
    some_overflow(one, other, negative, zero, true)
}

fn some_zero(one: Outcome, other: Outcome, negative: bool) -> bool
    ensures { IsTrue result ↔ ((zero : Bool) × ((carry : Bool) × ((overflow : Bool)
        × (Gives (record { negative = negative; zero = zero; carry = carry; overflow = overflow }) one
        × Gives (record { negative = negative; zero = zero; carry = carry; overflow = overflow }) other)))) }
{
    if some_carry(one, other, negative, false) {
        return true;
    }
    some_carry(one, other, negative, true)
}

fn some_flags(one: Outcome, other: Outcome) -> bool
    ensures { IsTrue result ↔ ((flags : Flags) × (Gives flags one × Gives flags other)) }
{
    if some_zero(one, other, false) {
        return true;
    }
    some_zero(one, other, true)
}

impl Outcome {
    fn excludes(self, other: Outcome) -> bool
        ensures { IsTrue result ↔ Exclude self other }
    {
        !some_flags(self, other)
    }

    /// Whether some flags give it.
    pub(crate) fn is_possible(self) -> bool
        ensures { IsTrue result → (flags : Flags) × Gives flags self }
    {
        some_flags(self, self)
    }

    /// Whether it is that the condition AL holds.
    pub(crate) fn is_always(self) -> bool
        ensures { IsTrue result → self ≡ record { cond = Al; holds = true } }
    {
        matches!(self.cond, Cond::Al) & self.holds
    }
}

/// A set of outcomes: the conditions that hold and those that fail, by their numbers.
#[derive(Clone, Copy)]
pub(crate) struct Outcomes {
    held: [bool; 16],
    failed: [bool; 16],
}

impl Outcomes {
    pub(crate) fn none() -> Outcomes
        ensures { (o : Outcome) → has result o ≡ false }
    {
        Outcomes {
            held: [false; 16],
            failed: [false; 16],
        }
    }

    fn has(&self, outcome: Outcome) -> bool
        ensures { result ≡ has self.now outcome }
    {
        let number = outcome.cond.number() as usize;
        if outcome.holds {
            return self.held[number];
        }
        self.failed[number]
    }

    pub(crate) fn with(&self, outcome: Outcome) -> Outcomes
        ensures { (o : Outcome) → (has result o ≡ true) ↔ ((has self.now o ≡ true) ⊎ (o ≡ outcome)) }
    {
        let number = outcome.cond.number() as usize;
        let mut set = *self;
        if outcome.holds {
            set.held[number] = true;
            return set;
        }
        set.failed[number] = true;
        set
    }

    // Whether the set has the outcome of the condition with the number, and that excludes another.
    fn excludes_by(&self, number: u32, holds: bool, outcome: Outcome) -> bool
        requires { number < 16 }
        ensures { IsTrue result ↔ ExcludesBy self.now outcome number holds }
    {
        let one = Outcome {
            cond: Cond::of(number),
            holds,
        };
        self.has(one) && one.excludes(outcome)
    }

    fn excludes_at(&self, number: u32, outcome: Outcome) -> bool
        requires { number < 16 }
        ensures { IsTrue result ↔ ExcludesAt self.now outcome number }
    {
        self.excludes_by(number, true, outcome) || self.excludes_by(number, false, outcome)
    }

    /// Whether one of the set excludes the outcome.
    pub(crate) fn excludes(&self, outcome: Outcome) -> bool
        ensures { IsTrue result ↔ Excludes self.now outcome }
    {
        for number in 0..16 {
            if self.excludes_at(number, outcome) {
                return true;
            }
        }
        false
    }

    /// All of both.
    pub(crate) fn joined(&self, other: &Outcomes) -> Outcomes
        ensures { (o : Outcome) → (has result o ≡ true)
            ↔ ((has self.now o ≡ true) ⊎ (has other.now o ≡ true)) }
    {
        Outcomes {
            held: either(&self.held, &other.held),
            failed: either(&self.failed, &other.failed),
        }
    }
}

fn either(first: &[bool; 16], second: &[bool; 16]) -> [bool; 16]
    ensures { (n : ℕ) → (slice_index_or result n false ≡ true)
        ↔ ((slice_index_or first.now n false ≡ true) ⊎ (slice_index_or second.now n false ≡ true)) }
{
    let mut both = *first;
    for number in 0..16 {
        if second[number] {
            both[number] = true;
        }
    }
    both
}
