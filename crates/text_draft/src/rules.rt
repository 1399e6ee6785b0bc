//! The rules for base registers, which stand for loads and stores that have one base and one class.

ghost use Rattle.std.specs.Prelude.{◌≡◌, ◌↔◌, ◌+◌, ℕ, List, IfOk, IfSome, IsTrue, OnOk, Some, length};
ghost use Rattle.text_draft.specs.Rules.{AreRules, IsMostFrequent, IsNewRule, IsRule};
ghost use Rattle.text_draft.specs.Rules.{MayRule, Shows, class_number, has_both, is_same_class};
ghost use Rattle.text_draft.specs.Tallies.{AreTallies, Leads, ShowsNth, with_rule};
ghost use Rattle.text_draft.specs.declared.accesses.FoundAccess.{FoundAccess};
ghost use Rattle.text_draft.specs.declared.rules.FoundRule.{FoundRule};

use crate::accesses::{FoundAccess, base_used, shown_by_pc};
use crate::begun::Begun;
use crate::grounds::Ground;
use crate::tallies::{Tally, tallies, tally_at};
use arm2_decode::Register;
use bus_ticks::Class;
use image::Image;
use std::alloc::{AllocError, Global};
use word_shapes::instr_at;

/// A rule for a base register, in place of the entries of loads and stores.
#[derive(Clone, Copy)]
pub struct FoundRule {
    pub register: Register,
    pub class: Class,
    /// For how many it stands.
    pub count: usize,
    /// The address of the first of them.
    pub first: u32,
    /// What its class rests on: a pattern until that is looked at.
    pub basis: Ground,
}

/// Whether both are the same class.
pub(crate) fn is_same_class(class: Class, other: Class) -> bool
    ensures { result ≡ is_same_class class other }
{
    class == other
}

// Whether the word at an address shows the class by itself, or neither loads nor stores by R15.
fn shows(image: &Image, at: u32, class: Class) -> bool
    ensures { IsTrue result ↔ Shows image.now at class }
{
    let Some(instr) = instr_at(image, at) else {
        return true;
    };
    let Some(register) = base_used(&instr) else {
        return true;
    };
    if !register.is_pc() {
        return true;
    }
    match shown_by_pc(at, &instr.operation) {
        Some(shown) => is_same_class(shown, class),
        None => false,
    }
}

// Whether the n-th word does, if there is one.
fn nth_shows(image: &Image, n: u32, class: Class) -> bool
    ensures { IsTrue result ↔ ShowsNth image.now n class }
{
    match image.address(n) {
        Some(at) => shows(image, at, class),
        None => true,
    }
}

// Whether each word does.
fn all_show(image: &Image, class: Class) -> bool
    ensures { IsTrue result ↔ ((at : ℕ) → Shows image.now at class) }
{
    for n in 0..image.words() {
        if !nth_shows(image, n, class) {
            return false;
        }
    }
    true
}

// Whether a rule of the class says of no word more than is known.
fn may_rule(image: &Image, open_left: bool, register: Register, class: Class) -> bool
    ensures { IsTrue result ↔ MayRule image.now open_left register class }
{
    if !open_left {
        return true;
    }
    register.is_pc() && all_show(image, class)
}

// Of two classes of a base the second only where it has more loads and stores.
fn more_frequent(table: &[Tally], register: Register, best: Class, class: Class) -> Class
    requires { length table.now ≡ 128 }
    ensures { (accesses : List FoundAccess) → AreTallies accesses table.now → (last : ℕ)
        → class_number class ≡ last + 1 → Leads accesses register last best
        → Leads accesses register (last + 1) result }
{
    if tally_at(table, register, class).count > tally_at(table, register, best).count {
        class
    } else {
        best
    }
}

// The class of a base that has most loads and stores: of several the first in their order.
fn most_frequent(table: &[Tally], register: Register) -> Class
    requires { length table.now ≡ 128 }
    ensures { (accesses : List FoundAccess) → AreTallies accesses table.now
        → IsMostFrequent accesses register result }
{
    let best = more_frequent(table, register, Class::Ram, Class::Rom);
    let best = more_frequent(table, register, best, Class::Io);
    let best = more_frequent(table, register, best, Class::Any);
    let best = more_frequent(table, register, best, Class::Slow);
    let best = more_frequent(table, register, best, Class::Medium);
    let best = more_frequent(table, register, best, Class::Fast);
    more_frequent(table, register, best, Class::Synchronous)
}

// The rule of a base, if it has one.
fn rule_of(image: &Image, table: &[Tally], open_left: bool, register: Register) -> Option<FoundRule>
    requires { length table.now ≡ 128 }
    ensures some { (accesses : List FoundAccess) → AreTallies accesses table.now
        → IfSome result (λ r. IsRule image.now open_left accesses r × (r.register ≡ register)) }
    ensures only { (accesses : List FoundAccess) → AreTallies accesses table.now → (r : FoundRule)
        → IsRule image.now open_left accesses r → r.register ≡ register → result ≡ Some r }
{
    let class = most_frequent(table, register);
    let tally = tally_at(table, register, class);
    if tally.count < 2 {
        return None;
    }
    if !may_rule(image, open_left, register, class) {
        return None;
    }
    Some(FoundRule {
        register,
        class,
        count: tally.count,
        first: tally.first,
        basis: Ground::Pattern,
    })
}

// The rule of a base, if it has one and none is stated for it.
fn new_rule_of(
    image: &Image,
    table: &[Tally],
    open_left: bool,
    begun: &Begun<'_>,
    register: Register,
) -> Option<FoundRule>
    requires { length table.now ≡ 128 }
    ensures some { (accesses : List FoundAccess) → AreTallies accesses table.now
        → IfSome result
        (λ r. IsNewRule image.now open_left accesses begun.now r × (r.register ≡ register)) }
    ensures only { (accesses : List FoundAccess) → AreTallies accesses table.now → (r : FoundRule)
        → IsNewRule image.now open_left accesses begun.now r → r.register ≡ register → result ≡ Some r }
{
    if begun.has_rule(register) {
        return None;
    }
    rule_of(image, table, open_left, register)
}

// Takes a rule, if there is one.
fn push_rule(rules: &mut Vec<FoundRule>, rule: Option<FoundRule>) -> Result<(), AllocError>
    ensures { OnOk result (rules.new.items ≡ with_rule rules.old.items rule) }
{
    if let Some(rule) = rule {
        rules.push(rule)?;
    }
    Ok(())
}

/// The rules for base registers for which none is stated, by ascending registers.
pub(crate) fn find_rules(
    alloc: Global,
    image: &Image,
    open_left: bool,
    begun: &Begun<'_>,
    accesses: &[FoundAccess],
) -> Result<Vec<FoundRule>, AllocError>
    ensures { IfOk result (λ rules. AreRules image.now open_left accesses.now begun.now rules.items) }
{
    let table = tallies(alloc, accesses)?;
    let mut rules = Vec::new(alloc);
    for number in 0..16 {
        let register = Register::of(number);
        let rule = new_rule_of(image, &table, open_left, begun, register);
        push_rule(&mut rules, rule)?;
    }
    Ok(rules)
}

/// Whether a load or store has that base and that class.
pub(crate) fn has_both(register: Register, class: Class, access: &FoundAccess) -> bool
    ensures { result ≡ has_both register class access.now }
{
    register == access.base && is_same_class(class, access.class)
}
