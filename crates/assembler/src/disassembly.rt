ghost use Rattle.std.specs.Prelude.{◌≡◌, IfSome, Some, ℕ, true};
ghost use Rattle.std.specs.Result.{result_ok};
ghost use Rattle.asm_text.specs.Shown.{is_shown_text};
ghost use Rattle.assembler.specs.Codes.{encoded};
ghost use Rattle.assembler.specs.Shown.{hex_line};
ghost use Rattle.assembler.specs.ShownLines.{AssemblesBack, IsShown, shown_word};

use crate::encoded::encoded;
use crate::spelling::shown_line;
use crate::text::Line;
use arm2_decode::decode;
use asm_text::{Code, Shown, Use, WordAction, hex8, read_shown};

fn word_or_none(code: Code, at: u32) -> Option<u32>
    ensures { result ≡ result_ok (encoded code at) }
{
    match encoded(code, at) {
        Ok(word) => Some(word),
        Err(_) => None,
    }
}

// The word that what is read has at an address; of words with a target only branches are shown.
fn shown_word(shown: Shown, at: u32) -> Option<u32>
    ensures { result ≡ shown_word shown at }
{
    match shown {
        Shown::Code(code) => word_or_none(code, at),
        Shown::Refer(reference, target) => match reference.how {
            Use::Branch { link } => {
                let action = WordAction::Branch { link, target };
                let cond = reference.cond;
                word_or_none(Code { cond, action }, at)
            }
            _ => None,
        },
    }
}

// The word that a text that may be shown assembles to at an address.
fn given_word(text: &[u8], at: u32) -> Option<u32>
    ensures found { IfSome result (λ word. AssemblesBack text.now at word) }
    ensures only { (word : ℕ) → is_shown_text text.now ≡ true → AssemblesBack text.now at word
        → result ≡ Some word }
{
    match read_shown(text) {
        Some(shown) => shown_word(shown, at),
        None => None,
    }
}

// Whether a text that may be shown assembles to a word at an address.
fn assembles_back(text: &[u8], at: u32, word: u32) -> bool
    ensures yes { result ≡ true → AssemblesBack text.now at word }
    ensures no { is_shown_text text.now ≡ true → AssemblesBack text.now at word → result ≡ true }
{
    match given_word(text, at) {
        Some(given) => given == word,
        None => false,
    }
}

fn hex_line(word: u32) -> Line
    ensures { result ≡ hex_line word }
{
    let mut line = Line::new();
    line.put_all(b"DCD &");
    line.put_all(&hex8(word));
    line
}

/// The line of a word at an address, in upper case, after a blank: the instruction's stated spelling where
/// that assembles at that address back to the word, else `DCD &` and eight hexadecimal digits.
pub fn disassemble(word: u32, at: u32) -> Line
    ensures { IsShown word at result }
{
    if let Ok(instr) = decode(word) {
        let line = shown_line(&instr, at);
        if assembles_back(line.items(), at, word) {
            return line;
        }
    }
    hex_line(word)
}
