ghost use Rattle.std.specs.Prelude.{◌≡◌, ◌++◌, if◌then◌else◌, IfOk, None, OnOk, Some};
ghost use Rattle.std.specs.BTreeMap.{get};
ghost use Rattle.std.specs.BTreeSet.{contains};
ghost use Rattle.std.specs.Ordering.{nat_cmp};
ghost use Rattle.text_explained.specs.Pricing.{ArePriced, IsGranted, both_text, column_name, granted_text};
ghost use Rattle.text_explained.specs.Pricing.{instr_granted, leave_text, operation_granted, pricing_text};
ghost use Rattle.text_explained.specs.PricingParts.{Prices, IsPricedBy};

use crate::doing::may_be_done;
use crate::leaving::{EdgeKind, addresses_left};
use arm2_decode::{Instr, Operation};
use bus_ticks::Class;
use control_flow::{Place, base_of, is_multiply};
use image::Image;
use loop_bounds::Handler;
use statement::{Statement, class_name};
use std::alloc::{AllocError, Global};
use std::collections::{BTreeMap, BTreeSet};
use text_rows::{put, put_decimal};
use word_shapes::instr_at;

/// What the price of an instruction takes for granted of what it does besides its fetches.
#[derive(Clone, Copy)]
pub enum Granted {
    Nothing,
    /// That a multiply takes so many cycles: its most, 16, or those that are stated.
    Multiplier(u32),
    /// That it loads or stores at addresses of the class.
    Access(Class),
}

/// What the price of an instruction takes for granted.
#[derive(Clone, Copy)]
pub struct Pricing {
    pub granted: Granted,
    /// The class of the addresses to which the handler leaves, if it does so there.
    pub leave: Option<Class>,
}

fn operation_granted(statement: &Statement, at: u32, operation: &Operation) -> Granted
    ensures { result ≡ operation_granted statement.now at operation.now }
{
    if is_multiply(operation) {
        Granted::Multiplier(statement.cycles_at(at))
    } else if operation.is_transfer() {
        Granted::Access(statement.class_at(at, base_of(operation)))
    } else {
        Granted::Nothing
    }
}

fn instr_granted(statement: &Statement, at: u32, instr: &Instr) -> Granted
    ensures { result ≡ instr_granted statement.now at instr.now }
{
    if may_be_done(statement, at, instr) {
        operation_granted(statement, at, &instr.operation)
    } else {
        Granted::Nothing
    }
}

fn granted_at(image: &Image, statement: &Statement, at: u32) -> Granted
    ensures { IsGranted image.now statement.now at result }
{
    match instr_at(image, at) {
        Some(instr) => instr_granted(statement, at, &instr),
        None => Granted::Nothing,
    }
}

// The class of the addresses to which the handler leaves, if it does so at the address.
fn leave_at(leaving: &BTreeSet<u32>, leave: Class, at: u32) -> Option<Class>
    ensures { result ≡ (if contains nat_cmp leaving.now at then Some leave else None) }
{
    if leaving.contains(&at) {
        Some(leave)
    } else {
        None
    }
}

fn pricing_at(handler: &Handler<'_>, leaving: &BTreeSet<u32>, at: u32) -> Pricing
    ensures { IsPricedBy handler.now.image.now handler.now.statement (contains nat_cmp leaving.now)
        at result }
{
    Pricing {
        granted: granted_at(handler.image, &handler.statement, at),
        leave: leave_at(leaving, handler.statement.leave(), at),
    }
}

// Puts what is said of the price at a place's address.
fn put_pricing_of(
    prices: &mut BTreeMap<u32, Pricing>,
    handler: &Handler<'_>,
    leaving: &BTreeSet<u32>,
    place: &Place,
) -> Result<(), AllocError>
    ensures { OnOk result
        (Prices handler.now.image.now handler.now.statement (contains nat_cmp leaving.now) place.now
        (get nat_cmp prices.old) (get nat_cmp prices.new)) }
{
    let Place::At(_, address) = place else {
        return Ok(());
    };
    prices.insert(*address, pricing_at(handler, leaving, *address))?;
    Ok(())
}

/// What the prices of the words take for granted, by the addresses where the graph has a place.
///
/// # Errors
///
/// An allocation failed.
pub fn priced(alloc: Global, handler: &Handler<'_>) -> Result<BTreeMap<u32, Pricing>, AllocError>
    ensures { IfOk result
        (λ prices. ArePriced handler.now.image.now handler.now.statement handler.now.graph
        (get nat_cmp prices)) }
{
    let leaving = addresses_left(alloc, &handler.graph, EdgeKind::LeadsOut)?;
    let mut prices = BTreeMap::new(alloc);
    for place in handler.graph.places() {
        put_pricing_of(&mut prices, handler, &leaving, place)?;
    }
    Ok(prices)
}

// The name of a class in a column, which has no room for `synchronous`.
fn column_name(class: Class) -> &'static str
    ensures { result.now ≡ column_name class }
{
    match class {
        Class::Synchronous => "sync",
        Class::Any
        | Class::Ram
        | Class::Rom
        | Class::Io
        | Class::Slow
        | Class::Medium
        | Class::Fast => class_name(class),
    }
}

fn put_granted(out: &mut Vec<u8>, granted: Granted) -> Result<(), AllocError>
    ensures { OnOk result (out.new.items ≡ out.old.items ++ granted_text granted) }
{
    match granted {
        Granted::Nothing => Ok(()),
        Granted::Multiplier(cycles) => {
            put(out, b"m = ")?;
            put_decimal(out, u64::from(cycles))
        }
        Granted::Access(class) => put(out, column_name(class).as_bytes()),
    }
}

fn put_leave(out: &mut Vec<u8>, granted: Granted, class: Class) -> Result<(), AllocError>
    ensures { OnOk result (out.new.items ≡ out.old.items ++ leave_text granted class) }
{
    match granted {
        Granted::Nothing => put(out, b"> ")?,
        Granted::Multiplier(_) | Granted::Access(_) => {
            put_granted(out, granted)?;
            put(out, b" > ")?;
        }
    }
    put(out, class_name(class).as_bytes())
}

// Adds what a price takes for granted, and the class of the addresses to which the handler leaves there.
fn put_both(out: &mut Vec<u8>, granted: Granted, leave: Option<Class>) -> Result<(), AllocError>
    ensures { OnOk result (out.new.items ≡ out.old.items ++ both_text granted leave) }
{
    match leave {
        Some(class) => put_leave(out, granted, class),
        None => put_granted(out, granted),
    }
}

/// Adds what a price takes for granted: the cycles of a multiply, as `m = 16`, the class of what a load or a
/// store transfers, as `ram`, and after `>` the class to which the handler leaves; nothing where there is
/// none.
///
/// # Errors
///
/// An allocation failed.
pub fn put_pricing(out: &mut Vec<u8>, pricing: Option<Pricing>) -> Result<(), AllocError>
    ensures { OnOk result (out.new.items ≡ out.old.items ++ pricing_text pricing) }
{
    match pricing {
        Some(pricing) => put_both(out, pricing.granted, pricing.leave),
        None => Ok(()),
    }
}
