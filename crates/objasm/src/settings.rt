//! What the lines of a source set.

ghost use Rattle.std.specs.Prelude.{◌≡◌, ◌≤◌, IfOk, IfErr, OnOk, Ok, length, map, option_map};
ghost use Rattle.objasm.specs.Names.{Told, meanings_of};
ghost use Rattle.objasm.specs.Parts.{after_blanks, blank_len, is_blank_part, part_of};
ghost use Rattle.objasm.specs.Settings.{is_no_name, kind_named, outcome, set_as, setting_of, setting_value};
ghost use Rattle.objasm.specs.Settings.{allowed, set_again, set_by, setting_view, truth, truth_of};
ghost use Rattle.objasm.specs.Settings.{value_of};

use crate::evaluation::evaluated;
use crate::faults::LineFault;
use crate::names::{Kind, Names};
use crate::operators::Value;
use crate::symbols::{begins_number, symbols_in};
use crate::token::{Token, after_blanks};
use asm_text::register_of;
use std::alloc::Global;

// The number of the last register.
const LAST_REGISTER: u32 = 15;

/// What a line sets: a name, for what, and the parts of its value.
#[derive(Clone, Copy)]
pub(crate) struct Setting<'a, 'b> {
    pub name: &'a [u8],
    pub kind: Kind,
    pub value: &'b [Token<'a>],
}

fn outcome(found: Option<Option<Value>>) -> Result<u32, LineFault>
    ensures { result ≡ outcome found }
{
    match found {
        Some(Some(Value::Number(n))) => Ok(n),
        Some(Some(Value::Logical(_))) => Err(LineFault::NotANumber),
        Some(None) => Err(LineFault::NoValue),
        None => Err(LineFault::BadExpression),
    }
}

/// The value of an expression.
pub(crate) fn value_of(alloc: Global, names: &Names, tokens: &[Token<'_>]) -> Result<u32, LineFault>
    ensures ok { IfOk result (λ n. value_of (meanings_of names.now) (map part_of tokens.now) ≡ Ok n) }
    ensures fault { IfErr result
        (λ fault. Told fault (value_of (meanings_of names.now) (map part_of tokens.now))) }
{
    let symbols = symbols_in(alloc, names, tokens)?;
    let found = evaluated(alloc, &symbols)?;
    outcome(found)
}

fn truth(found: Option<Option<Value>>) -> Result<bool, LineFault>
    ensures { result ≡ truth found }
{
    match found {
        Some(Some(Value::Logical(holds))) => Ok(holds),
        Some(Some(Value::Number(_))) => Err(LineFault::NotLogical),
        Some(None) => Err(LineFault::NoValue),
        None => Err(LineFault::BadExpression),
    }
}

/// Whether an expression holds.
pub(crate) fn truth_of(
    alloc: Global,
    names: &Names,
    tokens: &[Token<'_>],
) -> Result<bool, LineFault>
    ensures ok { IfOk result
        (λ holds. truth_of (meanings_of names.now) (map part_of tokens.now) ≡ Ok holds) }
    ensures fault { IfErr result
        (λ fault. Told fault (truth_of (meanings_of names.now) (map part_of tokens.now))) }
{
    let symbols = symbols_in(alloc, names, tokens)?;
    let found = evaluated(alloc, &symbols)?;
    truth(found)
}

// What the word after a name sets it for.
fn kind_named(word: &[u8]) -> Option<Kind>
    ensures { result ≡ kind_named word.now }
{
    if word == b"EQU".as_slice() || word == b"equ".as_slice() {
        Some(Kind::Constant)
    } else if word == b"RN".as_slice() || word == b"rn".as_slice() {
        Some(Kind::Register)
    } else {
        None
    }
}

fn set_as<'a, 'b>(name: &'a [u8], tokens: &'b [Token<'a>]) -> Option<Setting<'a, 'b>>
    ensures { option_map setting_view result ≡ set_as name.now (map part_of tokens.now) }
{
    match tokens {
        [Token::Run(word), value @ ..] => {
            let kind = kind_named(word)?;
            Some(Setting { name, kind, value })
        }
        [Token::Byte(b), value @ ..] => {
            if *b == b'*' {
                let kind = Kind::Constant;
                Some(Setting { name, kind, value })
            } else {
                None
            }
        }
        _ => None,
    }
}

/// What a line sets, if it sets a name.
pub(crate) fn setting_of<'a, 'b>(tokens: &'b [Token<'a>]) -> Option<Setting<'a, 'b>>
    ensures { option_map setting_view result ≡ setting_of (map part_of tokens.now) }
{
    match tokens {
        [Token::Run(name), rest @ ..] => set_as(name, after_blanks(rest)),
        _ => None,
    }
}

/// Whether a name cannot be set.
pub(crate) fn is_no_name(name: &[u8]) -> bool
    ensures { result ≡ is_no_name name.now }
{
    begins_number(name) || register_of(name).is_some()
}

// The value, if a name of this kind may have it.
fn allowed(kind: Kind, value: u32) -> Result<u32, LineFault>
    ensures { result ≡ allowed kind value }
{
    match kind {
        Kind::Register => {
            if value > LAST_REGISTER {
                Err(LineFault::BadRegister)
            } else {
                Ok(value)
            }
        }
        Kind::Constant => Ok(value),
    }
}

// The value that a name is set to.
fn setting_value(alloc: Global, names: &Names, setting: Setting<'_, '_>) -> Result<u32, LineFault>
    ensures ok { IfOk result
        (λ n. setting_value (meanings_of names.now) (setting_view setting.entry) ≡ Ok n) }
    ensures fault { IfErr result
        (λ fault. Told fault (setting_value (meanings_of names.now) (setting_view setting.entry))) }
{
    if is_no_name(setting.name) {
        return Err(LineFault::BadName);
    }
    if names.is_set(setting.name) {
        return Err(LineFault::NameTwice);
    }
    let value = value_of(alloc, names, setting.value)?;
    allowed(setting.kind, value)
}

/// Sets what a line sets, where the names in it are known, and else notes its name.
pub(crate) fn set_name(
    alloc: Global,
    names: &mut Names,
    tokens: &[Token<'_>],
) -> Result<(), LineFault>
    ensures ok { OnOk result
        (set_by (meanings_of names.old) (setting_of (map part_of tokens.now)) ≡ Ok (meanings_of names.new)) }
    ensures fault { IfErr result
        (λ fault. Told fault (set_by (meanings_of names.old) (setting_of (map part_of tokens.now)))) }
{
    let Some(setting) = setting_of(tokens) else {
        return Ok(());
    };
    match setting_value(alloc, names, setting) {
        Ok(value) => names.put(alloc, setting.name, setting.kind, value),
        Err(LineFault::NameMissing) => names.defer(alloc, setting.name),
        Err(fault) => Err(fault),
    }
}

/// Sets what a line sets whose name was noted.
pub(crate) fn set_name_again(
    alloc: Global,
    names: &mut Names,
    tokens: &[Token<'_>],
) -> Result<(), LineFault>
    ensures ok { OnOk result
        (set_again (meanings_of names.old) (setting_of (map part_of tokens.now))
        ≡ Ok (meanings_of names.new)) }
    ensures fault { IfErr result
        (λ fault. Told fault (set_again (meanings_of names.old) (setting_of (map part_of tokens.now)))) }
{
    let Some(setting) = setting_of(tokens) else {
        return Ok(());
    };
    if names.is_known(setting.name) {
        return Ok(());
    }
    let value = value_of(alloc, names, setting.value)?;
    let value = allowed(setting.kind, value)?;
    names.put(alloc, setting.name, setting.kind, value)
}
