ghost use Rattle.std.specs.Prelude.{◌≡◌, ◌==◌, ◌&&◌, ◌∷◌, [], ◌<◌, ◌≤◌, ◌⊎◌, MatchOption, IfOk, IfErr};
ghost use Rattle.std.specs.Prelude.{Ok, Err, true, false, not, drop, length, map};
ghost use Rattle.std.specs.List.{list_all, prefix_len};
ghost use Rattle.asm_text.specs.Pieces.{piece_of};
ghost use Rattle.asm_text.specs.Statements.{after_label, body};
ghost use Rattle.asm_text.specs.Statements.{is_comment_text, is_text, is_text_line, line_of};
ghost use Rattle.asm_text.specs.Statements.{parsed};
ghost use Rattle.asm_text.specs.Source.{feed_len, line_view, lines_of, without_return};

use crate::statement::{TextFault, is_label, read_statement};
use crate::syntax::SourceStatement;
use crate::token::{Token, tokens, word_ends};
use memchr::memchr;
use std::alloc::Global;

/// What a line says.
#[derive(Drop)]
pub struct Line<'a> {
    /// The label in its first column.
    pub label: Option<&'a [u8]>,
    pub statement: Option<SourceStatement<'a>>,
}

fn is_text(b: u8) -> bool
    ensures { result ≡ is_text b }
{
    (b >= b' ' && b <= b'~') || b == b'\t'
}

fn is_comment_text(b: u8) -> bool
    ensures { result ≡ is_comment_text b }
{
    is_text(b) || b >= 0x80
}

// The bytes in front of the first that begins a comment or is no text.
fn plain_len(text: &[u8]) -> usize
    ensures len { result ≡ prefix_len (λ b. is_text b && not (b == 59)) text.now }
    ensures within { result ≤ length text.now }
{
    text.iter()
        .take_while(|b| is_text(**b) && **b != b';')
        .count()
}

fn are_comment_bytes(text: &[u8]) -> bool
    ensures { result ≡ list_all is_comment_text text.now }
{
    text.iter().all(|b| is_comment_text(*b))
}

// The line without its comment, where both are text.
fn text_body(line: &[u8]) -> Option<&[u8]>
    ensures { MatchOption result (is_text_line line.now ≡ false)
        (λ plain. (is_text_line line.now ≡ true) × (plain.now ≡ body line.now)) }
{
    let (plain, comment) = line.split_at(plain_len(line));
    if comment.is_empty() {
        return Some(plain);
    }
    if comment[0] != b';' {
        return None;
    }
    if are_comment_bytes(comment) {
        Some(plain)
    } else {
        None
    }
}

fn after_label<'a>(
    alloc: Global,
    label: &'a [u8],
    tokens: &[Token<'a>],
) -> Result<Line<'a>, TextFault>
    ensures ok { IfOk result
        (λ line. after_label label.now (map piece_of tokens.now) ≡ Ok (line_view line)) }
    ensures fault { IfErr result
        (λ fault. (fault ≡ TextFault.Memory)
        ⊎ (after_label label.now (map piece_of tokens.now) ≡ Err fault)) }
{
    match tokens {
        [] => Ok(Line {
            label: Some(label),
            statement: None,
        }),
        [Token::Gap, rest @ ..] => {
            let statement = read_statement(alloc, rest)?;
            Ok(Line {
                label: Some(label),
                statement: Some(statement),
            })
        }
        _ => Err(TextFault::UnknownWord),
    }
}

fn parse<'a>(alloc: Global, tokens: &[Token<'a>]) -> Result<Line<'a>, TextFault>
    ensures ok { IfOk result (λ line. parsed (map piece_of tokens.now) ≡ Ok (line_view line)) }
    ensures fault { IfErr result
        (λ fault. (fault ≡ TextFault.Memory) ⊎ (parsed (map piece_of tokens.now) ≡ Err fault)) }
{
    match tokens {
        [] => Ok(Line {
            label: None,
            statement: None,
        }),
        [Token::Gap, rest @ ..] => {
            let statement = read_statement(alloc, rest)?;
            Ok(Line {
                label: None,
                statement: Some(statement),
            })
        }
        [Token::Run(label), rest @ ..] => {
            if is_label(label) {
                after_label(alloc, label, rest)
            } else {
                Err(TextFault::UnknownWord)
            }
        }
        _ => Err(TextFault::UnknownWord),
    }
}

/// Reads a line without its end.
///
/// # Errors
///
/// `NotText`: a byte other than 20 to 7E and a tab, or after a `;` 80 to FF. `UnknownWord`: the first column
/// holds neither a blank nor a label, or the text after it is no word that ends at a blank or with the line.
/// `BadOperand`: what follows the word does not belong to it. `Memory`: an allocation failed.
pub fn read_line<'a>(alloc: Global, text: &'a [u8]) -> Result<Line<'a>, TextFault>
    ensures ok { IfOk result (λ line. line_of text.now ≡ Ok (line_view line)) }
    ensures fault { IfErr result (λ fault. (fault ≡ TextFault.Memory) ⊎ (line_of text.now ≡ Err fault)) }
{
    let Some(body) = text_body(text) else {
        return Err(TextFault::NotText);
    };
    let tokens = tokens(alloc, body)?;
    match parse(alloc, &tokens) {
        Ok(line) => Ok(line),
        // Pieces do not say whether there is a blank in front of a comma.
        Err(fault) => {
            if word_ends(body) {
                Err(fault)
            } else {
                Err(TextFault::UnknownWord)
            }
        }
    }
}

// The bytes before the first line feed.
fn feed_len(text: &[u8]) -> usize
    ensures len { result ≡ feed_len text.now }
    ensures within { result ≤ length text.now }
{
    match memchr(b'\n', text) {
        Some(len) => len,
        None => text.len(),
    }
}

fn after(text: &[u8], start: usize) -> &[u8]
    requires { start ≤ length text.now }
    ensures { result.now ≡ drop start text.now }
{
    &text[start..]
}

// A line without the CR at its end.
#[tactic(auto, using(crate::proofs::SourceLaws::return_at, crate::proofs::SourceLaws::return_empty))]
fn without_return(line: &[u8]) -> &[u8]
    ensures { result.now ≡ without_return line.now }
{
    let len = line.len();
    if len == 0 {
        return line;
    }
    if line[len - 1] == b'\r' {
        &line[..len - 1]
    } else {
        line
    }
}

/// The first line of a source, without its end, and what follows it. None where the source is empty.
pub fn first_line(source: &[u8]) -> Option<(&[u8], &[u8])>
    ensures { MatchOption result (lines_of source.now ≡ [])
        (λ f. (lines_of source.now ≡ f.0.now ∷ lines_of f.1.now) × (length f.1.now < length source.now)) }
{
    if source.is_empty() {
        return None;
    }
    let len = feed_len(source);
    if len == source.len() {
        return Some((source, after(source, len)));
    }
    Some((without_return(&source[..len]), after(source, len + 1)))
}
