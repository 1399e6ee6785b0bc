ghost use Rattle.std.specs.Prelude.{◌≡◌, ◌∷◌, ◌≤◌, None, Some, Ok, IfSome};
ghost use Rattle.std.specs.Prelude.{length, map, true};
ghost use Rattle.std.specs.List.{list_all};
ghost use Rattle.asm_text.specs.Pieces.{piece_of, pieces, without_gap};
ghost use Rattle.asm_text.specs.Shown.{is_shown, is_shown_text, is_upper, parsed_shown, shown_in};
ghost use Rattle.asm_text.specs.Shown.{shown_result, upper_pieces};
ghost use Rattle.asm_text.specs.Statements.{after_word, line_of, operands_of, or_bad};
ghost use Rattle.asm_text.specs.Statements.{statement_of, with_word};
ghost use Rattle.asm_text.specs.Words.{spelled_word_of};
ghost use Rattle.asm_text.specs.Said.{said};
ghost use Rattle.asm_text.specs.declared.printed_lines.Shown.{Shown};

use crate::statement::{plain_said, refers};
use crate::syntax::{Code, Reference, SourceStatement, Use, Value};
use crate::token::{Token, next};
use crate::word::{Word, word_of};
use arrayvec::ArrayVec;

/// The most bytes of the line of a word that is shown.
pub const WORD_LINE_ROOM: usize = 64;

/// A word that a line says: one of numbers and registers, or one with a number as its target.
#[derive(Clone, Copy)]
pub enum Shown {
    Code(Code),
    Refer(Reference, u32),
}

// The tokens of a short text, without memory.
fn few_tokens(text: &[u8]) -> ArrayVec<Token<'_>, WORD_LINE_ROOM>
    requires { length text.now ≤ WORD_LINE_ROOM }
    ensures { map piece_of result.items ≡ pieces text.now }
{
    let mut few = ArrayVec::new();
    let mut rest = text;
    while let Some((token, after)) = next(rest) {
        few.push(token);
        rest = after;
    }
    few
}

fn are_shown_bytes(text: &[u8]) -> bool
    ensures { result ≡ list_all is_shown text.now }
{
    text.iter().all(|b| *b >= b' ' && *b <= b'~' && *b != b';')
}

fn is_upper(text: &[u8]) -> bool
    ensures { result ≡ is_upper text.now }
{
    text.iter().all(|b| !b.is_ascii_lowercase())
}

fn is_shown_text(text: &[u8]) -> bool
    ensures { result ≡ is_shown_text text.now }
{
    are_shown_bytes(text) && is_upper(text) && text.len() <= WORD_LINE_ROOM
}

fn shown_in(statement: &SourceStatement<'_>) -> Option<Shown>
    ensures { result ≡ shown_in (said statement.now) }
{
    match statement {
        SourceStatement::Code(code) => Some(Shown::Code(*code)),
        SourceStatement::Refer(reference, Value::Number(n)) => Some(Shown::Refer(*reference, *n)),
        _ => None,
    }
}

#[tactic(auto, using(crate::proofs::ShownLaws::lists_hidden, crate::proofs::ShownLaws::orgs_hidden))]
fn operands_of(word: Word, tokens: &[Token<'_>]) -> Option<Shown>
    ensures { result ≡ shown_result (or_bad (operands_of word (map piece_of tokens.now))) }
{
    match word {
        Word::Plain(head, cond, suffix) => {
            let statement = plain_said(head, cond, suffix, tokens)?;
            shown_in(&statement)
        }
        Word::Branch { link, cond } => {
            let statement = refers(cond, Use::Branch { link }, tokens)?;
            shown_in(&statement)
        }
        Word::Org | Word::Dcd => None,
    }
}

fn after_word(word: Word, tokens: &[Token<'_>]) -> Option<Shown>
    ensures { result ≡ shown_result (after_word word (map piece_of tokens.now)) }
{
    match tokens {
        [Token::Gap, rest @ ..] => operands_of(word, rest),
        _ => None,
    }
}

// What a word in upper case says with what follows it.
#[tactic(auto, using(crate::proofs::ShownLaws::upper_spelled))]
fn word_statement(text: &[u8], rest: &[Token<'_>]) -> Option<Shown>
    requires { is_upper text.now ≡ true }
    ensures { result ≡ shown_result (with_word (spelled_word_of text.now) (map piece_of rest.now)) }
{
    match word_of(text) {
        Some(word) => after_word(word, rest),
        None => None,
    }
}

// What tokens say, where no letter is in lower case.
#[tactic(auto, using(crate::proofs::ShownLaws::upper_run))]
fn statement(tokens: &[Token<'_>]) -> Option<Shown>
    requires { upper_pieces (map piece_of tokens.now) ≡ true }
    ensures { result ≡ shown_result (statement_of (map piece_of tokens.now)) }
{
    match tokens {
        [Token::Run(text), rest @ ..] => word_statement(text, rest),
        _ => None,
    }
}

// Blanks are allowed in front.
fn blank_statement(tokens: &[Token<'_>]) -> Option<Shown>
    requires { upper_pieces (map piece_of tokens.now) ≡ true }
    ensures { result ≡ shown_result (statement_of (without_gap (map piece_of tokens.now))) }
{
    match tokens {
        [Token::Gap, rest @ ..] => statement(rest),
        _ => statement(tokens),
    }
}

/// Reads a line after its blank, without memory, where it may be shown (in upper case, without a comment, of
/// at most [`WORD_LINE_ROOM`] bytes) and says an instruction without a label. Every such line is read.
#[tactic(auto, using(crate::proofs::ShownLaws::upper_shown, crate::proofs::ShownLaws::short_shown))]
pub fn read_shown(text: &[u8]) -> Option<Shown>
    ensures found { IfSome result (λ s. line_of (32 ∷ text.now) ≡ Ok (parsed_shown s)) }
    ensures shown { IfSome result (λ s. is_shown_text text.now ≡ true) }
    ensures only { (s : Shown) → is_shown_text text.now ≡ true → line_of (32 ∷ text.now) ≡ Ok (parsed_shown s)
        → result ≡ Some s }
{
    if !is_shown_text(text) {
        return None;
    }
    let few = few_tokens(text);
    blank_statement(few.as_slice())
}
