ghost use Rattle.std.specs.Prelude.{◌≡◌, IfOk, option_map, reverse};
ghost use Rattle.objasm.specs.Evaluation.{evaluated, finished, first, is_ready, operand, operator};
ghost use Rattle.objasm.specs.Evaluation.{reduced, released, step, unary_of};
ghost use Rattle.objasm.specs.Expressions.{applied, between};

use crate::operators::{Binary, Unary, Value, binary_value, level, unary_value};
use crate::symbols::Symbol;
use std::alloc::{AllocError, Global};

// The level up to which an end or a `)` applies all.
const ALL: u32 = 5;

/// What waits for the value to its right. A value is none where an operator gives none.
#[derive(Clone, Copy)]
pub enum Waiting {
    /// An operator in front of the value.
    Before(Unary),
    /// A value, and the operator behind it.
    Between(Option<Value>, Binary),
    /// A `(`.
    Opened,
}

/// What may come next.
#[derive(Clone, Copy)]
pub enum Place {
    /// A value.
    Expects,
    /// An operator or an end: there is a value.
    Has(Option<Value>),
}

fn applied(operator: Unary, a: Option<Value>) -> Option<Value>
    ensures { result ≡ applied operator a }
{
    match a {
        Some(a) => unary_value(operator, a),
        None => None,
    }
}

fn between(operator: Binary, a: Option<Value>, b: Option<Value>) -> Option<Value>
    ensures { result ≡ between operator a b }
{
    match a {
        Some(a) => match b {
            Some(b) => binary_value(operator, a, b),
            None => None,
        },
        None => None,
    }
}

// Whether what waits last is applied by an operator of the level.
fn is_ready(waiting: Waiting, by: u32) -> bool
    ensures { result ≡ is_ready by waiting }
{
    match waiting {
        Waiting::Before(_) => true,
        Waiting::Between(_, operator) => level(operator) <= by,
        Waiting::Opened => false,
    }
}

// The value, once what waits for it is applied.
fn released(waiting: Waiting, value: Option<Value>) -> Option<Value>
    ensures { result ≡ released waiting value }
{
    match waiting {
        Waiting::Before(operator) => applied(operator, value),
        Waiting::Between(left, operator) => between(operator, left, value),
        Waiting::Opened => value,
    }
}

// What waits last.
fn last(stack: &[Waiting]) -> Option<Waiting>
    ensures { result ≡ first (reverse stack.now) }
{
    match stack {
        [.., waiting] => Some(*waiting),
        _ => None,
    }
}

// Applies all of the level or below.
fn reduce(stack: &mut Vec<Waiting>, by: u32, value: Option<Value>) -> Option<Value>
    ensures { reduced by (reverse stack.old.items) value ≡ (reverse stack.new.items, result) }
{
    let mut value = value;
    while let Some(waiting) = last(stack) {
        if !is_ready(waiting, by) {
            return value;
        }
        stack.pop();
        value = released(waiting, value);
    }
    value
}

fn unary_of(symbol: Symbol) -> Option<Unary>
    ensures { result ≡ unary_of symbol }
{
    match symbol {
        Symbol::Operator(Binary::Plus) => Some(Unary::Keep),
        Symbol::Operator(Binary::Minus) => Some(Unary::Negate),
        Symbol::Not => Some(Unary::Invert),
        Symbol::LogicalNot => Some(Unary::Deny),
        _ => None,
    }
}

// Puts a symbol where a value is expected. None where it is none.
fn operand(stack: &mut Vec<Waiting>, symbol: Symbol) -> Result<Option<Place>, AllocError>
    ensures { IfOk result (λ place.
        operand (reverse stack.old.items) symbol ≡ option_map (λ p. (reverse stack.new.items, p)) place) }
{
    match symbol {
        Symbol::Number(n) => Ok(Some(Place::Has(Some(Value::Number(n))))),
        Symbol::Open => {
            stack.push(Waiting::Opened)?;
            Ok(Some(Place::Expects))
        }
        _ => match unary_of(symbol) {
            Some(operator) => {
                stack.push(Waiting::Before(operator))?;
                Ok(Some(Place::Expects))
            }
            None => Ok(None),
        },
    }
}

// Puts a symbol after a value. None where it does not follow one.
fn operator(
    stack: &mut Vec<Waiting>,
    value: Option<Value>,
    symbol: Symbol,
) -> Result<Option<Place>, AllocError>
    ensures { IfOk result (λ place.
        operator (reverse stack.old.items) value symbol
        ≡ option_map (λ p. (reverse stack.new.items, p)) place) }
{
    match symbol {
        Symbol::Operator(operator) => {
            let left = reduce(stack, level(operator), value);
            stack.push(Waiting::Between(left, operator))?;
            Ok(Some(Place::Expects))
        }
        Symbol::Close => {
            let inner = reduce(stack, ALL, value);
            match stack.pop() {
                Some(Waiting::Opened) => Ok(Some(Place::Has(inner))),
                _ => Ok(None),
            }
        }
        _ => Ok(None),
    }
}

fn step(stack: &mut Vec<Waiting>, place: Place, symbol: Symbol) -> Result<Option<Place>, AllocError>
    ensures { IfOk result (λ next.
        step (reverse stack.old.items) place symbol ≡ option_map (λ p. (reverse stack.new.items, p)) next) }
{
    match place {
        Place::Expects => operand(stack, symbol),
        Place::Has(value) => operator(stack, value, symbol),
    }
}

// The value at the end of the symbols.
fn finished(stack: &mut Vec<Waiting>, place: Place) -> Option<Option<Value>>
    ensures { result ≡ finished (reverse stack.old.items) place }
{
    match place {
        Place::Expects => None,
        Place::Has(value) => {
            let whole = reduce(stack, ALL, value);
            if stack.is_empty() { Some(whole) } else { None }
        }
    }
}

/// The value of the expression that the symbols are, none where an operator gives none. None where they are
/// none.
pub(crate) fn evaluated(
    alloc: Global,
    symbols: &[Symbol],
) -> Result<Option<Option<Value>>, AllocError>
    ensures { IfOk result (λ found. found ≡ evaluated symbols.now) }
{
    let mut stack = Vec::new(alloc);
    let mut place = Place::Expects;
    for symbol in symbols {
        match step(&mut stack, place, *symbol)? {
            Some(next) => place = next,
            None => return Ok(None),
        }
    }
    Ok(finished(&mut stack, place))
}
