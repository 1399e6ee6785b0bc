//! Conditional lines, which are assembled or left out.

ghost use Rattle.std.specs.Prelude.{◌≡◌, ◌∷◌, [], IfErr, OnOk, Ok, MatchOption, map, option_map};
ghost use Rattle.std.specs.Prelude.{length, nat_lt, reverse};
ghost use Rattle.objasm.specs.Conditions.{branch_for, closed, condition_at, condition_line_of};
ghost use Rattle.objasm.specs.Conditions.{condition_view, conditions_after, has_room, if_alone, innermost};
ghost use Rattle.objasm.specs.Conditions.{is_condition, is_hidden, is_taken, open_in, opened, opened_by};
ghost use Rattle.objasm.specs.Conditions.{other_branch, sign_line, turned, word_line};
ghost use Rattle.objasm.specs.Names.{Told, meanings_of};
ghost use Rattle.objasm.specs.Parts.{part_of};

use crate::faults::LineFault;
use crate::names::Names;
use crate::settings::truth_of;
use crate::token::{Token, after_blanks, is_over};
use std::alloc::Global;

// How many conditions may be open at once.
const MOST: usize = 64;

/// Which part of a condition lines are in.
#[derive(Clone, Copy)]
pub enum Branch {
    /// One that is assembled.
    Taken,
    /// One that is left out, and the other is not.
    Waiting,
    /// One that is left out, and so is what follows it.
    Over,
}

/// A condition that is open.
#[derive(Clone, Copy)]
pub struct Condition {
    /// The part that lines are in.
    pub branch: Branch,
    /// Whether it is the part behind `|`.
    pub is_last: bool,
    /// The number of the line that opened it.
    pub line: usize,
}

/// The conditions that are open, the innermost last.
#[derive(Drop)]
pub(crate) struct Conditions {
    pub stack: Vec<Condition>,
}

/// A line that opens, turns or closes a condition, and what is behind its sign.
#[derive(Clone, Copy)]
pub(crate) enum ConditionLine<'a, 'b> {
    /// `[` or IF
    If(&'b [Token<'a>]),
    /// `|` or ELSE
    Else(&'b [Token<'a>]),
    /// `]` or ENDIF
    EndIf(&'b [Token<'a>]),
    /// ELIF, or one of these behind a label.
    Unknown,
}

fn sign_line<'a, 'b>(b: u8, rest: &'b [Token<'a>]) -> Option<ConditionLine<'a, 'b>>
    ensures { option_map condition_view result ≡ sign_line b (map part_of rest.now) }
{
    match b {
        b'[' => Some(ConditionLine::If(rest)),
        b'|' => Some(ConditionLine::Else(rest)),
        b']' => Some(ConditionLine::EndIf(rest)),
        _ => None,
    }
}

fn word_line<'a, 'b>(word: &[u8], rest: &'b [Token<'a>]) -> Option<ConditionLine<'a, 'b>>
    ensures { option_map condition_view result ≡ word_line word.now (map part_of rest.now) }
{
    if word == b"IF".as_slice() {
        Some(ConditionLine::If(rest))
    } else if word == b"ELSE".as_slice() {
        Some(ConditionLine::Else(rest))
    } else if word == b"ENDIF".as_slice() {
        Some(ConditionLine::EndIf(rest))
    } else if word == b"ELIF".as_slice() {
        Some(ConditionLine::Unknown)
    } else {
        None
    }
}

fn condition_at<'a, 'b>(tokens: &'b [Token<'a>]) -> Option<ConditionLine<'a, 'b>>
    ensures { option_map condition_view result ≡ condition_at (map part_of tokens.now) }
{
    match tokens {
        [Token::Byte(b), rest @ ..] => sign_line(*b, rest),
        [Token::Run(word), rest @ ..] => word_line(word, rest),
        _ => None,
    }
}

// What a line says of a condition: no label stands in front.
fn condition_line_of<'a, 'b>(tokens: &'b [Token<'a>]) -> Option<ConditionLine<'a, 'b>>
    ensures { option_map condition_view result ≡ condition_line_of (map part_of tokens.now) }
{
    match tokens {
        [Token::Run(_), rest @ ..] => match condition_at(after_blanks(rest)) {
            Some(_) => Some(ConditionLine::Unknown),
            None => None,
        },
        _ => condition_at(after_blanks(tokens)),
    }
}

/// No conditions. It takes no memory.
pub(crate) fn no_conditions(alloc: Global) -> Conditions
    ensures { open_in result ≡ [] }
{
    Conditions {
        stack: Vec::new(alloc),
    }
}

fn last(stack: &[Condition]) -> Option<Condition>
    ensures { result ≡ innermost (reverse stack.now) }
{
    match stack {
        [.., condition] => Some(*condition),
        _ => None,
    }
}

/// The innermost condition.
pub(crate) fn innermost(conditions: &Conditions) -> Option<Condition>
    ensures { result ≡ innermost (open_in conditions.now) }
{
    last(&conditions.stack)
}

/// Whether lines are assembled.
pub(crate) fn is_taken(conditions: &Conditions) -> bool
    ensures { result ≡ is_taken (open_in conditions.now) }
{
    match innermost(conditions) {
        Some(condition) => match condition.branch {
            Branch::Taken => true,
            _ => false,
        },
        None => true,
    }
}

fn branch_for(holds: bool) -> Branch
    ensures { result ≡ branch_for holds }
{
    if holds {
        Branch::Taken
    } else {
        Branch::Waiting
    }
}

fn room(stack: &[Condition]) -> bool
    ensures { result ≡ nat_lt (length stack.now) 64 }
{
    stack.len() < MOST
}

fn has_room(conditions: &Conditions) -> bool
    ensures { result ≡ has_room (open_in conditions.now) }
{
    room(&conditions.stack)
}

fn open_one(conditions: &mut Conditions, line: usize, branch: Branch) -> Result<(), LineFault>
    ensures ok { OnOk result
        (opened line (open_in conditions.old) branch ≡ Ok (open_in conditions.new)) }
    ensures fault { IfErr result
        (λ fault. Told fault (opened line (open_in conditions.old) branch)) }
{
    if !has_room(conditions) {
        return Err(LineFault::ConditionTooDeep);
    }
    conditions.stack.push(Condition {
        branch,
        is_last: false,
        line,
    })?;
    Ok(())
}

// Opens a condition. In lines that are left out it is not judged.
fn open_by(
    alloc: Global,
    names: &Names,
    conditions: &mut Conditions,
    line: usize,
    tokens: &[Token<'_>],
) -> Result<(), LineFault>
    ensures ok { OnOk result
        (opened_by (meanings_of names.now) line (open_in conditions.old) (map part_of tokens.now)
        ≡ Ok (open_in conditions.new)) }
    ensures fault { IfErr result (λ fault. Told fault
        (opened_by (meanings_of names.now) line (open_in conditions.old) (map part_of tokens.now))) }
{
    if !is_taken(conditions) {
        return open_one(conditions, line, Branch::Over);
    }
    let holds = truth_of(alloc, names, tokens)?;
    open_one(conditions, line, branch_for(holds))
}

fn other_branch(branch: Branch) -> Branch
    ensures { result ≡ other_branch branch }
{
    match branch {
        Branch::Waiting => Branch::Taken,
        _ => Branch::Over,
    }
}

// Takes the innermost condition.
fn pop_one(conditions: &mut Conditions) -> Option<Condition>
    ensures { MatchOption result (open_in conditions.old ≡ [])
        (λ c. open_in conditions.old ≡ c ∷ open_in conditions.new) }
{
    let found = last(&conditions.stack);
    conditions.stack.pop();
    found
}

// Goes on to the other part of the innermost condition.
fn turn(conditions: &mut Conditions) -> Result<(), LineFault>
    ensures ok { OnOk result (turned (open_in conditions.old) ≡ Ok (open_in conditions.new)) }
    ensures fault { IfErr result (λ fault. Told fault (turned (open_in conditions.old))) }
{
    let Some(condition) = pop_one(conditions) else {
        return Err(LineFault::ConditionMissing);
    };
    if condition.is_last {
        return Err(LineFault::ElseTwice);
    }
    conditions.stack.push(Condition {
        branch: other_branch(condition.branch),
        is_last: true,
        line: condition.line,
    })?;
    Ok(())
}

fn close(conditions: &mut Conditions) -> Result<(), LineFault>
    ensures ok { OnOk result (closed (open_in conditions.old) ≡ Ok (open_in conditions.new)) }
    ensures fault { IfErr result (λ fault. Told fault (closed (open_in conditions.old))) }
{
    match pop_one(conditions) {
        Some(_) => Ok(()),
        None => Err(LineFault::ConditionMissing),
    }
}

// The same, where nothing stands behind the sign.
fn turn_alone(conditions: &mut Conditions, behind: &[Token<'_>]) -> Result<(), LineFault>
    ensures ok { OnOk result
        (if_alone (map part_of behind.now) (turned (open_in conditions.old))
        ≡ Ok (open_in conditions.new)) }
    ensures fault { IfErr result (λ fault.
        Told fault (if_alone (map part_of behind.now) (turned (open_in conditions.old)))) }
{
    if !is_over(after_blanks(behind)) {
        return Err(LineFault::BadOperand);
    }
    turn(conditions)
}

fn close_alone(conditions: &mut Conditions, behind: &[Token<'_>]) -> Result<(), LineFault>
    ensures ok { OnOk result
        (if_alone (map part_of behind.now) (closed (open_in conditions.old))
        ≡ Ok (open_in conditions.new)) }
    ensures fault { IfErr result (λ fault.
        Told fault (if_alone (map part_of behind.now) (closed (open_in conditions.old)))) }
{
    if !is_over(after_blanks(behind)) {
        return Err(LineFault::BadOperand);
    }
    close(conditions)
}

/// Notes what the line of this number says of conditions.
pub(crate) fn step_conditions(
    alloc: Global,
    names: &Names,
    conditions: &mut Conditions,
    line: usize,
    tokens: &[Token<'_>],
) -> Result<(), LineFault>
    ensures ok { OnOk result
        (conditions_after (meanings_of names.now) line (open_in conditions.old)
        (map part_of tokens.now) ≡ Ok (open_in conditions.new)) }
    ensures fault { IfErr result (λ fault. Told fault
        (conditions_after (meanings_of names.now) line (open_in conditions.old)
        (map part_of tokens.now))) }
{
    match condition_line_of(tokens) {
        Some(ConditionLine::If(expression)) => open_by(alloc, names, conditions, line, expression),
        Some(ConditionLine::Else(behind)) => turn_alone(conditions, behind),
        Some(ConditionLine::EndIf(behind)) => close_alone(conditions, behind),
        Some(ConditionLine::Unknown) => Err(LineFault::UnknownDirective),
        None => Ok(()),
    }
}

fn is_condition(tokens: &[Token<'_>]) -> bool
    ensures { result ≡ is_condition (map part_of tokens.now) }
{
    match condition_line_of(tokens) {
        Some(_) => true,
        None => false,
    }
}

/// Whether nothing stands for a line: it is left out, or says something of conditions.
pub(crate) fn is_hidden(conditions: &Conditions, tokens: &[Token<'_>]) -> bool
    ensures { result ≡ is_hidden (open_in conditions.now) (map part_of tokens.now) }
{
    !is_taken(conditions) || is_condition(tokens)
}
