ghost use Rattle.std.specs.Prelude.{◌≡◌};
ghost use Rattle.objasm.specs.Operators.{binary_value, divides, level, logical_value, number_value};
ghost use Rattle.objasm.specs.Operators.{numbered, quotient, remainder, shl, shr, unary_value};

/// The value of an expression.
#[derive(Clone, Copy)]
pub enum Value {
    /// A number.
    Number(u32),
    /// What a comparison gives.
    Logical(bool),
}

/// An operator between two values.
#[derive(Clone, Copy)]
pub enum Binary {
    /// `*`
    Times,
    /// `/`
    Over,
    /// `:MOD:`
    Mod,
    /// `:SHL:` or `<<`
    Shl,
    /// `:SHR:` or `>>`
    Shr,
    /// `:ROL:`
    Rol,
    /// `:ROR:`
    Ror,
    /// `+`
    Plus,
    /// `-`
    Minus,
    /// `:AND:`
    And,
    /// `:OR:`
    Or,
    /// `:EOR:`
    Eor,
    /// `=`
    Equal,
    /// `<>` or `/=`
    Unequal,
    /// `<`
    Less,
    /// `<=`
    AtMost,
    /// `>`
    Greater,
    /// `>=`
    AtLeast,
    /// `:LAND:`
    Both,
    /// `:LOR:`
    Either,
    /// `:LEOR:`
    OneAlone,
}

/// An operator in front of a value.
#[derive(Clone, Copy)]
pub enum Unary {
    /// `+`
    Keep,
    /// `-`
    Negate,
    /// `:NOT:`
    Invert,
    /// `:LNOT:`
    Deny,
}

/// The level of an operator: those of a lower one are applied first.
pub(crate) fn level(operator: Binary) -> u32
    ensures { result ≡ level operator }
{
    match operator {
        Binary::Times | Binary::Over | Binary::Mod => 1,
        Binary::Shl | Binary::Shr | Binary::Rol | Binary::Ror => 2,
        Binary::Plus | Binary::Minus | Binary::And | Binary::Or | Binary::Eor => 3,
        Binary::Equal | Binary::Unequal | Binary::Less => 4,
        Binary::AtMost | Binary::Greater | Binary::AtLeast => 4,
        Binary::Both | Binary::Either | Binary::OneAlone => 5,
    }
}

/// The value of an operator on a value, or none where it is for values of the other kind.
pub(crate) fn unary_value(operator: Unary, a: Value) -> Option<Value>
    ensures { result ≡ unary_value operator a }
{
    match a {
        Value::Number(n) => match operator {
            Unary::Keep => Some(Value::Number(n)),
            Unary::Negate => Some(Value::Number(0u32.wrapping_sub(n))),
            Unary::Invert => Some(Value::Number(u32::MAX - n)),
            Unary::Deny => None,
        },
        Value::Logical(holds) => match operator {
            Unary::Deny => Some(Value::Logical(!holds)),
            _ => None,
        },
    }
}

fn shl(a: u32, b: u32) -> Option<u32>
    ensures { result ≡ shl a b }
{
    if b < 32 { Some(a << b) } else { None }
}

fn shr(a: u32, b: u32) -> Option<u32>
    ensures { result ≡ shr a b }
{
    if b < 32 { Some(a >> b) } else { None }
}

// Whether numbers with and without a sign are divided alike.
fn divides(a: u32, b: u32) -> bool
    ensures { result ≡ divides a b }
{
    a < 0x8000_0000 && b < 0x8000_0000 && b != 0
}

fn quotient(a: u32, b: u32) -> Option<u32>
    ensures { result ≡ quotient a b }
{
    if divides(a, b) { Some(a / b) } else { None }
}

fn remainder(a: u32, b: u32) -> Option<u32>
    ensures { result ≡ remainder a b }
{
    if divides(a, b) { Some(a % b) } else { None }
}

fn numbered(found: Option<u32>) -> Option<Value>
    ensures { result ≡ numbered found }
{
    match found {
        Some(n) => Some(Value::Number(n)),
        None => None,
    }
}

// The value of an operator between two numbers.
fn number_value(operator: Binary, a: u32, b: u32) -> Option<Value>
    ensures { result ≡ number_value operator a b }
{
    match operator {
        Binary::Times => Some(Value::Number(a.wrapping_mul(b))),
        Binary::Over => numbered(quotient(a, b)),
        Binary::Mod => numbered(remainder(a, b)),
        Binary::Shl => numbered(shl(a, b)),
        Binary::Shr => numbered(shr(a, b)),
        Binary::Rol => Some(Value::Number(a.rotate_left(b))),
        Binary::Ror => Some(Value::Number(a.rotate_right(b))),
        Binary::Plus => Some(Value::Number(a.wrapping_add(b))),
        Binary::Minus => Some(Value::Number(a.wrapping_sub(b))),
        Binary::And => Some(Value::Number(a & b)),
        Binary::Or => Some(Value::Number(a | b)),
        Binary::Eor => Some(Value::Number(a ^ b)),
        Binary::Equal => Some(Value::Logical(a == b)),
        Binary::Unequal => Some(Value::Logical(a != b)),
        Binary::Less => Some(Value::Logical(a < b)),
        Binary::AtMost => Some(Value::Logical(a <= b)),
        Binary::Greater => Some(Value::Logical(b < a)),
        Binary::AtLeast => Some(Value::Logical(b <= a)),
        Binary::Both | Binary::Either | Binary::OneAlone => None,
    }
}

// The value of an operator between two logical values.
fn logical_value(operator: Binary, a: bool, b: bool) -> Option<Value>
    ensures { result ≡ logical_value operator a b }
{
    match operator {
        Binary::Both => Some(Value::Logical(a & b)),
        Binary::Either => Some(Value::Logical(a | b)),
        Binary::OneAlone => Some(Value::Logical(a ^ b)),
        _ => None,
    }
}

/// The value of an operator between two values, or none for a division by 0 or of a number that may have a
/// sign, for a shift by 32 places or more, and where the operator is for values of other kinds.
pub(crate) fn binary_value(operator: Binary, a: Value, b: Value) -> Option<Value>
    ensures { result ≡ binary_value operator a b }
{
    match a {
        Value::Number(a) => match b {
            Value::Number(b) => number_value(operator, a, b),
            Value::Logical(_) => None,
        },
        Value::Logical(a) => match b {
            Value::Number(_) => None,
            Value::Logical(b) => logical_value(operator, a, b),
        },
    }
}
