ghost use Rattle.std.specs.Prelude.{◌≡◌, ◌++◌, ◌⊎◌, IfOk, IfErr, OnOk, Ok, Err, [], map, option_map};
ghost use Rattle.std.specs.List.{cons_option, list_all};
ghost use Rattle.asm_text.specs.Pieces.{is_name, piece_of};
ghost use Rattle.asm_text.specs.Operands.{alone, is_byte, is_user};
ghost use Rattle.asm_text.specs.Said.{said, target_of};
ghost use Rattle.asm_text.specs.Statements.{action_of, adr_said, code_said, dcd_said, org_said, refers};
ghost use Rattle.asm_text.specs.Statements.{after_word, operands_of};
ghost use Rattle.asm_text.specs.Statements.{only_number, only_target};
ghost use Rattle.asm_text.specs.Statements.{is_label, plain_said, run_target};
ghost use Rattle.asm_text.specs.Statements.{first_target, single_said, single_with, statement_of};
ghost use Rattle.asm_text.specs.Statements.{value_step, values_in};
ghost use Rattle.asm_text.specs.declared.statement.Expects.TheVariants.{Start};
ghost use Rattle.asm_text.specs.declared.statement.TextFault.TheVariants.{Memory};

use crate::address::address_of;
use crate::list::block_of;
use crate::names::{Head, Suffix};
use crate::number::{first_hex, first_number, read_hex, read_number};
use crate::operand::{all_read, data_of, product_of};
use crate::register::first_register_comma;
use crate::syntax::{Code, Reference, SingleTransfer, SourceStatement, Use, Value, WordAction};
use crate::token::{Mark, Token, is_name};
use crate::word::{Word, spelled_word};
use arm2_decode::{Cond, Register};
use std::alloc::{AllocError, Global};

/// Why a line says nothing.
#[derive(Clone, Copy, Debug, PartialEq, Eq)]
pub enum TextFault {
    /// An allocation failed.
    Memory,
    /// A byte that no source has.
    NotText,
    /// The line begins with no label or blank, or the text after is no word.
    UnknownWord,
    /// What follows the word is no operand of it.
    BadOperand,
}

impl From<AllocError> for TextFault {
    ghost from_gives = { λ _ fault. fault ≡ Memory };

    fn from(_refused: AllocError) -> TextFault {
        TextFault::Memory
    }
}

/// What may come next in a list of values.
#[derive(Clone, Copy)]
pub enum Expects {
    /// A value.
    Start,
    /// The digits after `&`.
    Hex,
    /// A comma, or the end.
    After,
}

fn letters(text: &[u8]) -> bool
    ensures { result ≡ list_all is_name text.now }
{
    text.iter().all(|b| is_name(*b))
}

/// Whether a text is a label: a letter or `_`, then letters, digits and `_`, at most 32 in all.
pub(crate) fn is_label(text: &[u8]) -> bool
    ensures { result ≡ is_label text.now }
{
    match text {
        [first, rest @ ..] => {
            (first.is_ascii_alphabetic() || *first == b'_') && letters(rest) && rest.len() < 32
        }
        _ => false,
    }
}

fn run_target<'a>(text: &'a [u8]) -> Option<Value<'a>>
    ensures { option_map target_of result ≡ run_target text.now }
{
    if let Some(n) = read_number(text) {
        Some(Value::Number(n))
    } else if is_label(text) {
        Some(Value::Label(text))
    } else {
        None
    }
}

// The number that is all of some tokens.
fn only_number(tokens: &[Token<'_>]) -> Option<u32>
    ensures { result ≡ only_number (map piece_of tokens.now) }
{
    all_read(first_number(tokens))
}

// The number or label that some tokens begin with, and those after it.
fn first_target<'a, 'b>(tokens: &'a [Token<'b>]) -> Option<(Value<'b>, &'a [Token<'b>])>
    ensures { option_map (λ f. (target_of f.0, map piece_of f.1.now)) result
        ≡ first_target (map piece_of tokens.now) }
{
    match tokens {
        [Token::Run(text), rest @ ..] => {
            let value = run_target(text)?;
            Some((value, rest))
        }
        [Token::Sign(Mark::Ampersand), rest @ ..] => {
            let (n, rest) = first_hex(rest)?;
            Some((Value::Number(n), rest))
        }
        _ => None,
    }
}

// A value with nothing after it.
fn alone_target<'a>(value: Value<'a>, rest: &[Token<'_>]) -> Option<Value<'a>>
    ensures { option_map target_of result ≡ alone (target_of value.entry) (map piece_of rest.now) }
{
    match rest {
        [] => Some(value),
        _ => None,
    }
}

// The number or label that is all of some tokens.
fn only_target<'a>(tokens: &[Token<'a>]) -> Option<Value<'a>>
    ensures { option_map target_of result ≡ only_target (map piece_of tokens.now) }
{
    let (value, rest) = first_target(tokens)?;
    alone_target(value, rest)
}

fn is_byte(suffix: Suffix) -> bool
    ensures { result ≡ is_byte suffix }
{
    matches!(suffix, Suffix::B | Suffix::Bt)
}

fn is_user(suffix: Suffix) -> bool
    ensures { result ≡ is_user suffix }
{
    matches!(suffix, Suffix::T | Suffix::Bt)
}

/// A target, to which a word with this condition refers in this way.
pub(crate) fn refers<'a>(cond: Cond, how: Use, tokens: &[Token<'a>]) -> Option<SourceStatement<'a>>
    ensures { option_map said result ≡ refers cond how (map piece_of tokens.now) }
{
    let value = only_target(tokens)?;
    Some(SourceStatement::Refer(Reference { cond, how }, value))
}

fn single_with<'a>(
    cond: Cond,
    load: bool,
    suffix: Suffix,
    rd: Register,
    tokens: &[Token<'a>],
) -> Option<SourceStatement<'a>>
    ensures { option_map said result ≡ single_with cond load suffix rd (map piece_of tokens.now) }
{
    let byte = is_byte(suffix);
    let user = is_user(suffix);
    match tokens {
        [Token::Sign(Mark::OpenBracket), rest @ ..] => {
            let address = address_of(user, rest)?;
            let transfer = SingleTransfer {
                load,
                byte,
                rd,
                address,
            };
            let action = WordAction::Single(transfer);
            Some(SourceStatement::Code(Code { cond, action }))
        }
        _ => {
            if user {
                None
            } else {
                refers(cond, Use::Transfer { load, byte, rd }, tokens)
            }
        }
    }
}

fn single_said<'a>(
    cond: Cond,
    load: bool,
    suffix: Suffix,
    tokens: &[Token<'a>],
) -> Option<SourceStatement<'a>>
    ensures { option_map said result ≡ single_said cond load suffix (map piece_of tokens.now) }
{
    let (rd, rest) = first_register_comma(tokens)?;
    single_with(cond, load, suffix, rd, rest)
}

fn adr_said<'a>(cond: Cond, tokens: &[Token<'a>]) -> Option<SourceStatement<'a>>
    ensures { option_map said result ≡ adr_said cond (map piece_of tokens.now) }
{
    let (rd, rest) = first_register_comma(tokens)?;
    refers(cond, Use::Adr(rd), rest)
}

// The action of a word without a target.
fn action_of(head: Head, suffix: Suffix, tokens: &[Token<'_>]) -> Option<WordAction>
    ensures { result ≡ action_of head suffix (map piece_of tokens.now) }
{
    match head {
        Head::Data(opcode) => data_of(opcode, suffix, tokens).map(WordAction::Data),
        Head::Multiply { accumulate } => {
            product_of(accumulate, suffix, tokens).map(WordAction::Multiply)
        }
        Head::Block { load } => block_of(load, suffix, tokens).map(WordAction::Block),
        Head::Swi => only_number(tokens).map(WordAction::Swi),
        Head::Single { .. } | Head::Adr => None,
    }
}

fn code_said<'a>(
    head: Head,
    cond: Cond,
    suffix: Suffix,
    tokens: &[Token<'a>],
) -> Option<SourceStatement<'a>>
    ensures { option_map said result ≡ code_said head cond suffix (map piece_of tokens.now) }
{
    let action = action_of(head, suffix, tokens)?;
    Some(SourceStatement::Code(Code { cond, action }))
}

/// What the operands of a word of this head, condition and suffix say.
pub(crate) fn plain_said<'a>(
    head: Head,
    cond: Cond,
    suffix: Suffix,
    tokens: &[Token<'a>],
) -> Option<SourceStatement<'a>>
    ensures { option_map said result ≡ plain_said head cond suffix (map piece_of tokens.now) }
{
    match head {
        Head::Single { load } => single_said(cond, load, suffix, tokens),
        Head::Adr => adr_said(cond, tokens),
        _ => code_said(head, cond, suffix, tokens),
    }
}

fn org_said<'a>(tokens: &[Token<'a>]) -> Option<SourceStatement<'a>>
    ensures { option_map said result ≡ org_said (map piece_of tokens.now) }
{
    let n = only_number(tokens)?;
    Some(SourceStatement::Org(n))
}

// What a piece adds to a list of values, and what comes next.
fn value_step<'a>(expects: Expects, token: Token<'a>) -> Option<(Option<Value<'a>>, Expects)>
    ensures { option_map (λ f. (option_map target_of f.0, f.1)) result
        ≡ value_step expects (piece_of token.entry) }
{
    match expects {
        Expects::Start => match token {
            Token::Run(text) => {
                let value = run_target(text)?;
                Some((Some(value), Expects::After))
            }
            Token::Sign(Mark::Ampersand) => Some((None, Expects::Hex)),
            _ => None,
        },
        Expects::Hex => match token {
            Token::Run(text) => {
                let n = read_hex(text)?;
                Some((Some(Value::Number(n)), Expects::After))
            }
            _ => None,
        },
        Expects::After => match token {
            Token::Comma => Some((None, Expects::Start)),
            _ => None,
        },
    }
}

fn push_some<'a>(values: &mut Vec<Value<'a>>, value: Option<Value<'a>>) -> Result<(), AllocError>
    ensures { OnOk result
        (map target_of values.new.items
        ≡ map target_of values.old.items ++ cons_option (option_map target_of value.entry) []) }
{
    if let Some(value) = value {
        values.push(value)?;
    }
    Ok(())
}

fn values_in<'a>(alloc: Global, tokens: &[Token<'a>]) -> Result<Option<Vec<Value<'a>>>, AllocError>
    ensures { IfOk result
        (λ found. option_map (λ v. map target_of v.items) found ≡ values_in Start (map piece_of tokens.now)) }
{
    let mut values = Vec::new(alloc);
    let mut expects = Expects::Start;
    for token in tokens {
        let Some((value, next)) = value_step(expects, *token) else {
            return Ok(None);
        };
        push_some(&mut values, value)?;
        expects = next;
    }
    match expects {
        Expects::After => Ok(Some(values)),
        _ => Ok(None),
    }
}

fn dcd_said<'a>(
    alloc: Global,
    tokens: &[Token<'a>],
) -> Result<Option<SourceStatement<'a>>, AllocError>
    ensures { IfOk result (λ found. option_map said found ≡ dcd_said (map piece_of tokens.now)) }
{
    match values_in(alloc, tokens)? {
        Some(values) => Ok(Some(SourceStatement::Dcd(values))),
        None => Ok(None),
    }
}

fn operands_of<'a>(
    alloc: Global,
    word: Word,
    tokens: &[Token<'a>],
) -> Result<Option<SourceStatement<'a>>, AllocError>
    ensures { IfOk result (λ found. option_map said found ≡ operands_of word (map piece_of tokens.now)) }
{
    match word {
        Word::Plain(head, cond, suffix) => Ok(plain_said(head, cond, suffix, tokens)),
        Word::Branch { link, cond } => Ok(refers(cond, Use::Branch { link }, tokens)),
        Word::Org => Ok(org_said(tokens)),
        Word::Dcd => dcd_said(alloc, tokens),
    }
}

fn after_word<'a>(
    alloc: Global,
    word: Word,
    tokens: &[Token<'a>],
) -> Result<SourceStatement<'a>, TextFault>
    ensures ok { IfOk result (λ s. after_word word (map piece_of tokens.now) ≡ Ok (said s)) }
    ensures fault { IfErr result
        (λ fault. (fault ≡ TextFault.Memory) ⊎ (after_word word (map piece_of tokens.now) ≡ Err fault)) }
{
    match tokens {
        [Token::Gap, rest @ ..] => match operands_of(alloc, word, rest)? {
            Some(statement) => Ok(statement),
            None => Err(TextFault::BadOperand),
        },
        _ => Err(TextFault::BadOperand),
    }
}

/// What the tokens of a line say after its label and a blank.
pub(crate) fn read_statement<'a>(
    alloc: Global,
    tokens: &[Token<'a>],
) -> Result<SourceStatement<'a>, TextFault>
    ensures ok { IfOk result (λ s. statement_of (map piece_of tokens.now) ≡ Ok (said s)) }
    ensures fault { IfErr result
        (λ fault. (fault ≡ TextFault.Memory) ⊎ (statement_of (map piece_of tokens.now) ≡ Err fault)) }
{
    match tokens {
        [Token::Run(text), rest @ ..] => match spelled_word(alloc, text)? {
            Some(word) => after_word(alloc, word, rest),
            None => Err(TextFault::UnknownWord),
        },
        _ => Err(TextFault::UnknownWord),
    }
}
