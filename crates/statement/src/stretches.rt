ghost use Rattle.std.specs.Prelude.{◌≡◌, ◌↔◌, ◌≤◌, ℕ, All, IfOk, MatchOption, OnOk, Option, false, true, ⊤};
ghost use Rattle.arm2_decode.specs.Names.{register_number};
ghost use Rattle.statement.specs.Stated.{IsRule};
ghost use Rattle.statement.specs.Statement.{are_disjoint};
ghost use Rattle.statement.specs.Stretches.{AreDisjoint, AreOf, IsCovered, IsJoined, IsMet, IsNextFrom};
ghost use Rattle.statement.specs.Stretches.{number_for};

use crate::stated::BaseRule;
use arm2_decode::Register;
use std::alloc::{AllocError, Global};
use std::collections::BTreeMap;

/// The addresses from the first to the last, of what is transferred by a base register.
#[derive(Clone, Copy)]
pub(crate) struct Stretch {
    pub(crate) base: Register,
    pub(crate) first: u32,
    pub(crate) last: u32,
}

/// Stretches with values, of which no two of one register share an address: by the number of the register and
/// the last address, the first address and the value.
pub(crate) type Stretches<T> = BTreeMap<(u32, u32), (u32, T)>;

// The first stretch of the register that ends at the address or later.
fn next_from<T: Copy>(stretches: &Stretches<T>, base: u32, address: u32) -> Option<(u32, (u32, T))>
    ensures { IsNextFrom stretches.now base address result }
{
    match stretches.range((base, address)..).next() {
        Some((key, value)) => {
            if key.0 == base {
                Some((key.1, *value))
            } else {
                None
            }
        }
        None => None,
    }
}

// The first of them that shares an address with the stretch, if one does.
fn met<T: Copy>(stretches: &Stretches<T>, stretch: Stretch) -> Option<(u32, (u32, T))>
    requires { AreDisjoint stretches.now }
    ensures { MatchOption result ((s : ℕ × (ℕ × T)) → ¬ IsMet stretches.now stretch s)
        (IsMet stretches.now stretch) }
{
    match next_from(stretches, stretch.base.number(), stretch.first) {
        Some((last, (first, value))) => {
            if first <= stretch.last {
                Some((last, (first, value)))
            } else {
                None
            }
        }
        None => None,
    }
}

/// The value of the stretch of the register that has the address.
pub(crate) fn value_at<T: Copy>(stretches: &Stretches<T>, base: Register, address: u32) -> Option<T>
    requires { AreDisjoint stretches.now }
    ensures { (value : ℕ → ℕ → Option T) → AreOf stretches.now value
        → result ≡ value (register_number base) address }
{
    let word = Stretch {
        base,
        first: address,
        last: address,
    };
    match met(stretches, word) {
        Some((_, (_, value))) => Some(value),
        None => None,
    }
}

// Takes out those that share an address with the stretch, and returns one from the first address of all to
// the last.
fn join(stretches: &mut Stretches<()>, stretch: Stretch) -> Stretch
    requires disjoint { AreDisjoint stretches.old }
    requires ordered { stretch.first ≤ stretch.last }
    ensures joined { IsJoined stretches.old stretch stretches.new result }
    ensures alone { (s : ℕ × (ℕ × ⊤)) → ¬ IsMet stretches.new result s }
{
    let mut whole = stretch;
    while let Some((last, (first, _))) = met(stretches, whole) {
        stretches.remove(&(whole.base.number(), last));
        whole.first = whole.first.min(first);
        whole.last = whole.last.max(last);
    }
    whole
}

/// Adds the addresses of a stretch, and says whether one of them was there.
pub(crate) fn cover(stretches: &mut Stretches<()>, stretch: Stretch) -> Result<bool, AllocError>
    requires disjoint { AreDisjoint stretches.old }
    requires ordered { stretch.first ≤ stretch.last }
    ensures known { IfOk result (λ known. known ≡ true ↔ ((s : ℕ × (ℕ × ⊤)) × IsMet stretches.old stretch s)) }
    ensures added { OnOk result (IsCovered stretches.old stretch stretches.new) }
{
    let known = met(stretches, stretch).is_some();
    let whole = join(stretches, stretch);
    stretches.insert((whole.base.number(), whole.last), (whole.first, ()))?;
    Ok(known)
}

/// The numbers of the rules by their registers and parts, or None where two of one register share an address.
///
/// # Errors
///
/// An allocation failed.
pub(crate) fn index_of(
    alloc: Global,
    rules: &[BaseRule],
) -> Result<Option<Stretches<usize>>, AllocError>
    requires { All IsRule rules.now }
    ensures { IfOk result
        (λ made. MatchOption made (are_disjoint rules.now ≡ false)
        (λ index. (are_disjoint rules.now ≡ true) × AreOf index (number_for rules.now))) }
{
    let mut index = BTreeMap::new(alloc);
    for (number, rule) in rules.iter().enumerate() {
        let stretch = Stretch {
            base: rule.register,
            first: rule.first,
            last: rule.last,
        };
        if met(&index, stretch).is_some() {
            return Ok(None);
        }
        index.insert((rule.register.number(), rule.last), (rule.first, number))?;
    }
    Ok(Some(index))
}
