ghost use Rattle.std.specs.Prelude.{◌≡◌, ◌≤◌, length};
ghost use Rattle.std.specs.List.{prefix_len};
ghost use Rattle.text_rows.specs.Addresses.{IsNamed};
ghost use Rattle.text_rows.specs.LineLabels.{first_word, is_in_word, label_of, name_of};

use asm_text::is_blank;
use image::Labels;

/// The line of a word.
#[derive(Clone, Copy)]
pub struct SourceLine<'a> {
    /// Its number, from 1.
    pub number: usize,
    /// The label of the word, empty where there is none.
    pub label: &'a [u8],
    /// Its text, with its comment.
    pub text: &'a [u8],
}

fn is_in_word(byte: u8) -> bool
    ensures { result ≡ is_in_word byte }
{
    byte != b';' && !is_blank(byte)
}

// The bytes before a blank or a comment.
fn word_len(text: &[u8]) -> usize
    ensures len { result ≡ prefix_len is_in_word text.now }
    ensures within { result ≤ length text.now }
{
    text.iter().take_while(|b| is_in_word(**b)).count()
}

/// What is in the first column of a line, up to a blank or a comment.
pub fn first_word(text: &[u8]) -> &[u8]
    ensures { result.now ≡ first_word text.now }
{
    &text[..word_len(text)]
}

// A name, if it is that of the address, else none.
fn name_of<'a>(labels: &Labels, name: &'a [u8], at: u32) -> &'a [u8]
    ensures named { IsNamed labels.now at result.now }
    ensures value { result.now ≡ name_of labels.now name.now at }
{
    if labels.get(name) == Some(at) {
        name
    } else {
        b""
    }
}

/// The label of an address: in the first column of a line, or else `before`, the one of a line before. Empty
/// where neither stands for the address.
pub fn label_of<'a>(labels: &Labels, text: &'a [u8], before: &'a [u8], at: u32) -> &'a [u8]
    ensures named { IsNamed labels.now at result.now }
    ensures value { result.now ≡ label_of labels.now text.now before.now at }
{
    let own = name_of(labels, first_word(text), at);
    if own.is_empty() {
        return name_of(labels, before, at);
    }
    own
}
