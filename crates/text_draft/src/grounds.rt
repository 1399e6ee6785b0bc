//! What the classes and counts rest on that a draft writes.

ghost use Rattle.std.specs.Prelude.{◌≡◌, ◌↔◌, ℕ, true, false, IfOk, IsTrue, OnOk, map};
ghost use Rattle.text_draft.specs.Accesses.{RestsOnWord};
ghost use Rattle.text_draft.specs.Grounds.{AreEntries, AreGrounded, IsGround, IsGroundOf, by_claim};
ghost use Rattle.text_draft.specs.Grounds.{claims_class, claims_loop, covers, has_ground, is_covered};
ghost use Rattle.text_draft.specs.Grounds.{is_same_ground, plain, rule_ground, with_claim, with_ground};
ghost use Rattle.text_draft.specs.Picks.{Keeps};

use crate::accesses::{FoundAccess, shown_by_pc};
use crate::found_loop::FoundLoop;
use crate::rules::{FoundRule, has_both, is_same_class};
use bus_ticks::Class;
use image::Image;
use std::alloc::{AllocError, Global};
use std::collections::BTreeSet;
use word_shapes::instr_at;

/// What a class rests on that the words suggest.
#[derive(Clone, Copy, PartialEq, Eq)]
pub enum Ground {
    /// The word alone shows it, or it is any.
    Word,
    /// A proof is claimed for it.
    Proof,
    /// A pattern of the words: it is left to the author.
    Pattern,
}

/// For which classes and counts a proof is claimed: for all, or else for the loads and stores at these
/// addresses, and for the loops with headers at these.
#[derive(Drop)]
pub struct Claims {
    pub all: bool,
    pub classes: BTreeSet<u32>,
    pub loops: BTreeSet<u32>,
}

impl Claims {
    /// For all.
    pub fn all(alloc: Global) -> Claims
        ensures { result.all ≡ true }
    {
        Claims {
            all: true,
            classes: BTreeSet::new(alloc),
            loops: BTreeSet::new(alloc),
        }
    }

    /// For none.
    pub fn none(alloc: Global) -> Claims
        ensures classes { (at : ℕ) → claims_class result at ≡ false }
        ensures loops { (header : ℕ) → claims_loop result header ≡ false }
    {
        Claims {
            all: false,
            classes: BTreeSet::new(alloc),
            loops: BTreeSet::new(alloc),
        }
    }

    fn has_class(&self, at: u32) -> bool
        ensures { result ≡ claims_class self.now at }
    {
        self.all || self.classes.contains(&at)
    }

    fn has_loop(&self, header: u32) -> bool
        ensures { result ≡ claims_loop self.now header }
    {
        self.all || self.loops.contains(&header)
    }
}

// Whether the class rests on the word alone.
fn rests_on_word(image: &Image, at: u32, class: Class) -> bool
    ensures { IsTrue result ↔ RestsOnWord image.now at class }
{
    if is_same_class(class, Class::Any) {
        return true;
    }
    let Some(instr) = instr_at(image, at) else {
        return false;
    };
    match shown_by_pc(at, &instr.operation) {
        Some(shown) => is_same_class(shown, class),
        None => false,
    }
}

fn by_claim(claimed: bool) -> Ground
    ensures { result ≡ by_claim claimed }
{
    if claimed {
        Ground::Proof
    } else {
        Ground::Pattern
    }
}

// What the class rests on.
fn ground_of(image: &Image, claims: &Claims, access: &FoundAccess) -> Ground
    ensures { IsGroundOf image.now claims.now access.now.at access.now.class result }
{
    if rests_on_word(image, access.at, access.class) {
        return Ground::Word;
    }
    by_claim(claims.has_class(access.at))
}

// With what its class rests on.
fn grounded(image: &Image, claims: &Claims, access: &FoundAccess) -> FoundAccess
    ensures same { plain result ≡ plain access.now }
    ensures basis { IsGround image.now claims.now result }
{
    let mut grounded = *access;
    grounded.basis = ground_of(image, claims, access);
    grounded
}

/// The loads and stores with what their classes rest on.
pub(crate) fn all_grounded(
    alloc: Global,
    image: &Image,
    claims: &Claims,
    accesses: &[FoundAccess],
) -> Result<Vec<FoundAccess>, AllocError>
    ensures { IfOk result (λ found. AreGrounded image.now claims.now accesses.now found.items) }
{
    let mut found = Vec::new(alloc);
    for access in accesses {
        found.push(grounded(image, claims, access))?;
    }
    Ok(found)
}

fn is_same_ground(basis: Ground, other: Ground) -> bool
    ensures { result ≡ is_same_ground basis other }
{
    basis == other
}

// Whether a load or store has the rule's base and class.
fn covers(rule: &FoundRule, access: &FoundAccess) -> bool
    ensures { result ≡ covers rule.now access.now }
{
    has_both(rule.register, rule.class, access)
}

// Whether the class of one that has them rests on that.
fn has_ground(accesses: &[FoundAccess], rule: &FoundRule, basis: Ground) -> bool
    ensures { result ≡ has_ground accesses.now rule.now basis }
{
    accesses.iter().any(|access| covers(rule, access) && is_same_ground(basis, access.basis))
}

// What a rule rests on.
fn rule_ground(accesses: &[FoundAccess], rule: &FoundRule) -> Ground
    ensures { result ≡ rule_ground accesses.now rule.now }
{
    if has_ground(accesses, rule, Ground::Pattern) {
        return Ground::Pattern;
    }
    if has_ground(accesses, rule, Ground::Proof) {
        return Ground::Proof;
    }
    Ground::Word
}

fn with_ground(accesses: &[FoundAccess], rule: &FoundRule) -> FoundRule
    ensures { result ≡ with_ground accesses.now rule.now }
{
    let mut grounded = *rule;
    grounded.basis = rule_ground(accesses, rule);
    grounded
}

/// The rules with what they rest on.
pub(crate) fn all_with_ground(
    alloc: Global,
    accesses: &[FoundAccess],
    rules: &[FoundRule],
) -> Result<Vec<FoundRule>, AllocError>
    ensures { IfOk result (λ found. found.items ≡ map (with_ground accesses.now) rules.now) }
{
    let mut found = Vec::new(alloc);
    for rule in rules {
        found.push(with_ground(accesses, rule))?;
    }
    Ok(found)
}

fn with_claim(claims: &Claims, found: &FoundLoop) -> FoundLoop
    ensures { result ≡ with_claim claims.now found.now }
{
    let mut claimed = *found;
    claimed.proved = claims.has_loop(found.header);
    claimed
}

/// The loops with the claims for their counts.
pub(crate) fn all_with_claim(
    alloc: Global,
    claims: &Claims,
    loops: &[FoundLoop],
) -> Result<Vec<FoundLoop>, AllocError>
    ensures { IfOk result (λ found. found.items ≡ map (with_claim claims.now) loops.now) }
{
    let mut found = Vec::new(alloc);
    for one in loops {
        found.push(with_claim(claims, one))?;
    }
    Ok(found)
}

// Whether a rule stands for the load or store.
fn is_covered(rules: &[FoundRule], access: &FoundAccess) -> bool
    ensures { result ≡ is_covered rules.now access.now }
{
    rules.iter().any(|rule| covers(rule, access) && is_same_ground(rule.basis, access.basis))
}

// Takes a load or store for which no rule stands.
fn keep_entry(
    entries: &mut Vec<FoundAccess>,
    rules: &[FoundRule],
    access: &FoundAccess,
) -> Result<(), AllocError>
    ensures { OnOk result
        (Keeps (λ e. is_covered rules.now e ≡ false) access.now entries.old.items entries.new.items) }
{
    if is_covered(rules, access) {
        return Ok(());
    }
    entries.push(*access)?;
    Ok(())
}

/// Those of the loads and stores for which no rule stands, in their order.
pub(crate) fn find_entries(
    alloc: Global,
    rules: &[FoundRule],
    accesses: &[FoundAccess],
) -> Result<Vec<FoundAccess>, AllocError>
    ensures { IfOk result (λ entries. AreEntries accesses.now rules.now entries.items) }
{
    let mut entries = Vec::new(alloc);
    for access in accesses {
        keep_entry(&mut entries, rules, access)?;
    }
    Ok(entries)
}
