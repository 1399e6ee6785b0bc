ghost use Rattle.std.specs.Prelude.{◌≡◌, [], None, Some, is_some, nat_eq};
ghost use Rattle.std.specs.Map.{lookup};
ghost use Rattle.arm2_decode.specs.Names.{is_same};
ghost use Rattle.bus_ticks.specs.Prices.{by_class, class_of};
ghost use Rattle.control_flow.specs.Kinds.{IsWork, work_of};
ghost use Rattle.text_savings.specs.Gains.{class_gain, known_address, leave_gain, may_exchange, operands_of};
ghost use Rattle.text_savings.specs.Gains.{operation_gain, transfer_gain, unstated_gain};

use crate::classes::{ClassChange, PricedClass, class_gain};
use arm2_decode::{Operation, Register};
use arm2_transfer::address_by;
use bus_ticks::{Class, Profile, ahead_of, class_of, narrowest_class, worst_leave};
use control_flow::{Work, base_of, is_multiply, transfer_work, work_ticks};
use statement::Statement;

// What a transfer is offered in place of any.
const FOR_ANY: [Class; 3] = [Class::Ram, Class::Rom, Class::Io];

// What a transfer is offered in place of io.
const FOR_IO: [Class; 4] = [Class::Slow, Class::Medium, Class::Fast, Class::Synchronous];

// What the way out is offered in place of any.
const WAYS_OUT: [Class; 2] = [Class::Ram, Class::Rom];

/// Whether the operands Rm and Rs of a multiply may be exchanged.
#[derive(Clone, Copy)]
pub(crate) enum Operands {
    Exchangeable,
    Fixed,
}

/// What a price would take for granted in place of what it does.
#[derive(Clone, Copy)]
pub(crate) enum Refinement {
    /// That a multiply with such operands takes 15 cycles, and not 16.
    Multiplier(Operands),
    /// Addresses of another class.
    Addresses(ClassChange),
}

/// What a refinement takes off the price.
#[derive(Clone, Copy)]
pub(crate) struct Gain {
    pub(crate) refinement: Refinement,
    pub(crate) ticks: u32,
}

// What the next better class takes off the price of a transfer of 1 to 16 words. A stated class is true, so
// only a class within it may be better.
fn gain_anywhere(profile: &Profile, class: Class, work: Work) -> Option<Gain>
    requires { IsWork work }
    ensures { result ≡ transfer_gain profile.now class None work }
{
    let present = work_ticks(profile, class, work);
    let priced = |class| PricedClass {
        class,
        ticks: work_ticks(profile, class, work),
    };
    match class {
        Class::Any => class_gain(class, present, &FOR_ANY.map(priced)),
        Class::Io => class_gain(class, present, &FOR_IO.map(priced)),
        Class::Ram | Class::Rom | Class::Slow | Class::Medium | Class::Fast | Class::Synchronous =>
            None,
    }
}

// What a class takes off the price of a transfer of devices, where the address is one of a device.
fn gain_in_io(class: Class, present: u32, address: u32, narrow: &[PricedClass]) -> Option<Gain>
    ensures { result ≡ class_gain class present (by_class (class_of address) [] [] narrow.now) }
{
    match class_of(address) {
        Class::Ram | Class::Rom => None,
        Class::Io | Class::Any | Class::Slow | Class::Medium | Class::Fast | Class::Synchronous =>
            class_gain(class, present, narrow),
    }
}

// The same of an address that is known: its narrowest class.
fn gain_at(profile: &Profile, class: Class, address: u32, work: Work) -> Option<Gain>
    requires { IsWork work }
    ensures { result ≡ transfer_gain profile.now class (Some address) work }
{
    let present = work_ticks(profile, class, work);
    let narrow = narrowest_class(address);
    let priced = [PricedClass {
        class: narrow,
        ticks: work_ticks(profile, narrow, work),
    }];
    match class {
        Class::Any => class_gain(class, present, &priced),
        Class::Io => gain_in_io(class, present, address, &priced),
        Class::Ram | Class::Rom | Class::Slow | Class::Medium | Class::Fast | Class::Synchronous =>
            None,
    }
}

// What the next better class takes off the price of a transfer, by its address where that is known.
fn transfer_gain(profile: &Profile, class: Class, address: Option<u32>, work: Work) -> Option<Gain>
    requires { IsWork work }
    ensures { result ≡ transfer_gain profile.now class address work }
{
    match address {
        Some(address) => gain_at(profile, class, address, work),
        None => gain_anywhere(profile, class, work),
    }
}

// The address of what an operation at an address transfers, where that is a number of bytes from PC.
fn known_address(at: u32, operation: &Operation) -> Option<u32>
    ensures { result ≡ known_address at operation.now }
{
    let Operation::SingleImmediate(x) = operation else {
        return None;
    };
    if !x.rn.is_pc() {
        return None;
    }
    Some(address_by(x.before, x.up, ahead_of(at, 8), x.offset))
}

fn is_same(register: Register, other: Register) -> bool
    ensures { result ≡ is_same register other }
{
    register.number() == other.number()
}

// Whether an operation is a multiply of two registers of which the multiplier is not the destination: Rm may
// not be Rd.
fn may_exchange(operation: &Operation) -> bool
    ensures { result ≡ may_exchange operation.now }
{
    let Operation::Multiply(x) = operation else {
        return false;
    };
    !is_same(x.rs, x.rd) && !is_same(x.rs, x.rm)
}

fn operands_of(operation: &Operation) -> Operands
    ensures { result ≡ operands_of operation.now }
{
    if may_exchange(operation) {
        Operands::Exchangeable
    } else {
        Operands::Fixed
    }
}

fn has_cycles(statement: &Statement, at: u32) -> bool
    ensures { result ≡ is_some (lookup (nat_eq at) statement.now.multiplies) }
{
    statement.multiplies().contains_key(&at)
}

// What one cycle less takes off the price of a multiply, if its cycles are not stated.
fn unstated_gain(
    statement: &Statement,
    profile: &Profile,
    at: u32,
    operation: &Operation,
) -> Option<Gain>
    ensures { result ≡ unstated_gain statement.now profile.now at operation.now }
{
    if has_cycles(statement, at) {
        return None;
    }
    Some(Gain {
        refinement: Refinement::Multiplier(operands_of(operation)),
        ticks: profile.internal,
    })
}

/// What the next better class of what it transfers takes off the price of an operation at an address, if its
/// class is any or io, or one cycle less off that of a multiply whose cycles are not stated. None where
/// nothing does.
pub(crate) fn operation_gain(
    statement: &Statement,
    profile: &Profile,
    at: u32,
    operation: &Operation,
) -> Option<Gain>
    requires { IsWork (work_of operation.now) }
    ensures { result ≡ operation_gain statement.now profile.now at operation.now }
{
    if is_multiply(operation) {
        return unstated_gain(statement, profile, at, operation);
    }
    match operation.moved() {
        Some(moved) => transfer_gain(
            profile,
            statement.class_at(at, base_of(operation)),
            known_address(at, operation),
            transfer_work(moved.load, moved.words),
        ),
        None => None,
    }
}

/// What the next better class of the addresses to which the handler leaves takes off the price of the way
/// out, if their class is any. None where nothing does.
pub(crate) fn leave_gain(profile: &Profile, class: Class) -> Option<Gain>
    ensures { result ≡ leave_gain profile.now class }
{
    let present = worst_leave(profile, class);
    let priced = |class| PricedClass {
        class,
        ticks: worst_leave(profile, class),
    };
    match class {
        Class::Any => class_gain(class, present, &WAYS_OUT.map(priced)),
        Class::Ram
        | Class::Rom
        | Class::Io
        | Class::Slow
        | Class::Medium
        | Class::Fast
        | Class::Synchronous => None,
    }
}
