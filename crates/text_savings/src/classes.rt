ghost use Rattle.std.specs.Prelude.{◌≡◌, option_map};
ghost use Rattle.text_savings.specs.Gains.{class_gain, next_class, next_price};

use crate::gains::{Gain, Refinement};
use bus_ticks::Class;

/// A class of addresses in place of another.
#[derive(Clone, Copy)]
pub(crate) struct ClassChange {
    pub(crate) present: Class,
    pub(crate) better: Class,
}

/// A class of addresses, and what an access costs by it.
#[derive(Clone, Copy)]
pub(crate) struct PricedClass {
    pub(crate) class: Class,
    pub(crate) ticks: u32,
}

// The greatest of the candidates' prices that are below the present one, 0 (no price) where there is none.
fn next_price(present: u32, candidates: &[PricedClass]) -> u32
    ensures { result ≡ next_price present candidates.now }
{
    candidates
        .iter()
        .map(|candidate| candidate.ticks)
        .filter(|ticks| *ticks < present)
        .fold(0, u32::max)
}

// The class of the first candidate of that price.
fn next_class(candidates: &[PricedClass], next: u32) -> Option<Class>
    ensures { result ≡ next_class candidates.now next }
{
    candidates
        .iter()
        .find(|candidate| candidate.ticks == next)
        .map(|candidate| candidate.class)
}

/// What the next better of the candidates takes off the present price: the one whose price is the greatest
/// below that, and the first of this price. None where no candidate costs less.
pub(crate) fn class_gain(class: Class, present: u32, candidates: &[PricedClass]) -> Option<Gain>
    ensures { result ≡ class_gain class present candidates.now }
{
    let next = next_price(present, candidates);
    if next == 0 {
        return None;
    }
    let better = next_class(candidates, next)?;
    let change = ClassChange {
        present: class,
        better,
    };
    Some(Gain {
        refinement: Refinement::Addresses(change),
        ticks: present.saturating_sub(next),
    })
}
