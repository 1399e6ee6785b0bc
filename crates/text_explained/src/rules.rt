//! The rules of a statement for base registers: how many words each covers.

ghost use Rattle.std.specs.Prelude.{◌≡◌, ◌++◌, ◌<◌, ◌+◌, ◌^◌, AllPairs, Contains, IfOk, IfSome, OnOk, Some};
ghost use Rattle.std.specs.Prelude.{is_some, length};
ghost use Rattle.std.specs.Prelude.{nat_eq, slice_index_or};
ghost use Rattle.std.specs.List.Sorted.{IsStrictlySortedBy};
ghost use Rattle.std.specs.Map.{lookup};
ghost use Rattle.std.specs.Ordering.{nat_cmp};
ghost use Rattle.arm2_decode.specs.declared.names.Register.{Register};
ghost use Rattle.asm_text.specs.Appended.{Appends};
ghost use Rattle.statement.specs.Stated.{ShareNoWord};
ghost use Rattle.text_explained.specs.RuleParts.{AreCoverages, AreDoneCoverages, IsRuleOver, counted};
ghost use Rattle.text_explained.specs.Rules.{AreRuleLines, IsCoverageRow, UsesBase, coverage_row, part_text};
ghost use Rattle.text_explained.specs.Rules.{register_text};
ghost use Rattle.text_rows.specs.Rows.{AreRows};

use crate::assumptions::sorted;
use crate::leaving::{EdgeKind, addresses_left};
use arm2_decode::Register;
use asm_text::hex8;
use control_flow::base_of;
use image::Image;
use loop_bounds::Handler;
use statement::{BaseRule, Statement, class_name};
use std::alloc::{AllocError, Global};
use text_rows::{put, put_decimal, put_number, put_right, section};
use word_shapes::instr_at;

const HEADING: &[u8] = b"\nRules for base registers ([[base]]), and how many words each covers:\n";

// The register by which the word at an address loads or stores, if it does.
fn base_at(image: &Image, at: u32) -> Option<Register>
    ensures some { IfSome result (UsesBase image.now at) }
    ensures only { (base : Register) → UsesBase image.now at base → result ≡ Some base }
{
    match instr_at(image, at) {
        Some(instr) => base_of(&instr.operation),
        None => None,
    }
}

fn has_access(statement: &Statement, at: u32) -> bool
    ensures { result ≡ is_some (lookup (nat_eq at) statement.now.accesses) }
{
    statement.accesses().contains_key(&at)
}

// The number of the rule that covers the word at an address, if one does.
fn rule_over(image: &Image, statement: &Statement, at: u32) -> Option<usize>
    requires { AllPairs ShareNoWord statement.now.rules }
    ensures { IsRuleOver image.now statement.now at result }
{
    if has_access(statement, at) {
        return None;
    }
    match base_at(image, at) {
        Some(base) => statement.rule_at(at, base),
        None => None,
    }
}

// Counts a word more for a rule, if there is one.
fn count(counts: &mut Vec<usize>, rule: Option<usize>)
    requires { IfSome rule
        (λ k. (k < length counts.now.items) × (slice_index_or counts.now.items k 0 + 1 < 2 ^ 64)) }
    ensures { counts.new.items ≡ counted counts.old.items rule }
{
    if let Some(rule) = rule {
        counts[rule] += 1;
    }
}

// How many of the words at some addresses, which ascend, each rule covers.
fn coverages(alloc: Global, handler: &Handler<'_>, at: &[u32]) -> Result<Vec<usize>, AllocError>
    requires { IsStrictlySortedBy nat_cmp at.now }
    ensures { IfOk result
        (λ counts. AreCoverages handler.now.image.now handler.now.statement (Contains at.now) counts.items) }
{
    let rules = handler.statement.rules();
    let mut counts = vec![in alloc; 0; rules.len()]?;
    for address in at {
        count(
            &mut counts,
            rule_over(handler.image, &handler.statement, *address),
        );
    }
    Ok(counts)
}

/// How many of the words that the graph carries out each rule covers. `AllocError`: an allocation failed.
pub(crate) fn done_coverages(alloc: Global, handler: &Handler<'_>) -> Result<Vec<usize>, AllocError>
    ensures { IfOk result
        (λ counts. AreDoneCoverages handler.now.image.now handler.now.statement handler.now.graph
        counts.items) }
{
    if handler.statement.rules().is_empty() {
        return Ok(Vec::new(alloc));
    }
    let done = addresses_left(alloc, &handler.graph, EdgeKind::CarriesOut)?;
    let addresses = sorted(alloc, &done)?;
    coverages(alloc, handler, &addresses)
}

/// Adds the name of a register. `AllocError`: an allocation failed.
pub(crate) fn put_register(out: &mut Vec<u8>, register: Register) -> Result<(), AllocError>
    ensures { OnOk result (out.new.items ≡ out.old.items ++ register_text register) }
{
    put(out, b"R")?;
    put_decimal(out, u64::from(register.number()))
}

/// Adds the part of the handler for which a rule is. `AllocError`: an allocation failed.
pub(crate) fn put_part(out: &mut Vec<u8>, rule: &BaseRule) -> Result<(), AllocError>
    ensures { OnOk result (out.new.items ≡ out.old.items ++ part_text rule.now) }
{
    put(out, &hex8(rule.first))?;
    put(out, b" to ")?;
    put(out, &hex8(rule.last))
}

fn put_rule(out: &mut Vec<u8>, rule: &BaseRule, words: usize) -> Result<(), AllocError>
    ensures { OnOk result (out.new.items ≡ out.old.items ++ coverage_row rule.now words) }
{
    let mut register = Vec::new(*out.allocator());
    put_register(&mut register, rule.register)?;
    put_right(out, &register, 5)?;
    put_right(out, class_name(rule.class).as_bytes(), 13)?;
    put(out, b"  ")?;
    put_part(out, rule)?;
    put_number(out, words as u64, 8)?;
    put(out, b"\n")
}

fn put_rules(out: &mut Vec<u8>, handler: &Handler<'_>, counts: &[usize]) -> Result<(), AllocError>
    requires { AreDoneCoverages handler.now.image.now handler.now.statement handler.now.graph counts.now }
    ensures { OnOk result
        (Appends (AreRows (IsCoverageRow handler.now.image.now handler.now.statement handler.now.graph)
        handler.now.statement.rules) out.old.items out.new.items) }
{
    for (rule, words) in handler.statement.rules().iter().zip(counts) {
        put_rule(out, rule, *words)?;
    }
    Ok(())
}

/// How many words each rule for a base register covers: a row for each rule, in the order of the statement,
/// with the register, the class, the part of the handler, and the number of words there that are carried out,
/// load or store by the register, and have no access of their own. Nothing where the statement has no rules.
///
/// # Errors
///
/// An allocation failed.
pub fn rule_lines(alloc: Global, handler: &Handler<'_>) -> Result<Vec<u8>, AllocError>
    ensures { IfOk result
        (λ text. AreRuleLines handler.now.image.now handler.now.statement handler.now.graph text.items) }
{
    let counts = done_coverages(alloc, handler)?;
    let mut rows = Vec::new(alloc);
    put_rules(&mut rows, handler, &counts)?;
    section(alloc, HEADING, &rows)
}
