//! The rows of a text that is refused, one after another.

ghost use Rattle.std.specs.Prelude.{◌≡◌, ◌++◌, ◌∷◌, [], IfOk, OnOk};
ghost use Rattle.text_refusals.specs.Outline.{key_value_of, table_of, value_of};
ghost use Rattle.text_refusals.specs.Refused.{Adds, name_text, row_if, row_text, table_row, value_row};
ghost use Rattle.text_refusals.specs.Refused.{said_row, value_text};

use crate::outline::{KeyValue, OutlineTable};
use crate::outline_tokens::OutlineValue;
use crate::word_rows::MOST_LINES;
use std::alloc::{AllocError, Global};
use text_rows::{put, put_decimal};

/// What is printed of the lines of a text, and how many more may be named.
#[derive(Drop)]
pub(crate) struct Report {
    pub text: Vec<u8>,
    left: usize,
    pub alloc: Global,
}

// Adds a value as it is in the text.
fn put_word(out: &mut Vec<u8>, value: OutlineValue<'_>) -> Result<(), AllocError>
    ensures { OnOk result (out.new.items ≡ out.old.items ++ value_text (value_of value.entry)) }
{
    match value {
        OutlineValue::Bare(text) => put(out, text),
        OutlineValue::Quoted(quotes, text) => {
            put(out, quotes)?;
            put(out, text)?;
            put(out, quotes)
        }
        OutlineValue::Cut(quotes, text) => {
            put(out, quotes)?;
            put(out, text)
        }
        OutlineValue::Array(is_empty) => put(out, if is_empty { b"[]" } else { b"[..]" }),
        OutlineValue::InlineTable(is_empty) => put(out, if is_empty { b"{}" } else { b"{..}" }),
    }
}

/// Adds the name of a table, with the brackets that it has in the text.
pub(crate) fn put_name(out: &mut Vec<u8>, table: &OutlineTable<'_>) -> Result<(), AllocError>
    ensures { OnOk result (out.new.items ≡ out.old.items ++ name_text (table_of table.now)) }
{
    if !table.is_listed {
        put(out, b"[")?;
        put(out, table.name)?;
        return put(out, b"]");
    }
    put(out, b"[[")?;
    put(out, table.name)?;
    put(out, b"]]")
}

/// Adds words and a key.
pub(crate) fn put_with_key(out: &mut Vec<u8>, words: &[u8], key: &[u8]) -> Result<(), AllocError>
    ensures { OnOk result (out.new.items ≡ out.old.items ++ (words.now ++ key.now)) }
{
    put(out, words)?;
    put(out, key)
}

/// What is said of a value.
pub(crate) fn value_text(alloc: Global, pair: &KeyValue<'_>) -> Result<Vec<u8>, AllocError>
    ensures { IfOk result (λ text. text.items ≡ (value_row (key_value_of pair.now)).text) }
{
    let mut out = Vec::from_slice(alloc, pair.key)?;
    put(&mut out, b" = ")?;
    put_word(&mut out, pair.value)?;
    Ok(out)
}

// What is said of a table.
fn table_text(
    alloc: Global,
    table: &OutlineTable<'_>,
    words: &[u8],
    key: &[u8],
) -> Result<Vec<u8>, AllocError>
    ensures { IfOk result
        (λ text. text.items ≡ (table_row (table_of table.now) words.now key.now).text) }
{
    let mut out = Vec::new(alloc);
    put_name(&mut out, table)?;
    put(&mut out, words)?;
    put(&mut out, key)?;
    Ok(out)
}

// Adds a row.
fn put_line(out: &mut Vec<u8>, line: usize, text: &[u8]) -> Result<(), AllocError>
    ensures { OnOk result
        (out.new.items ≡ out.old.items ++ row_text (record { line = line; text = text.now })) }
{
    put(out, b"line ")?;
    put_decimal(out, line as u64)?;
    put(out, b": ")?;
    put(out, text)?;
    put(out, b"\n")
}

impl Report {
    pub(crate) fn new(alloc: Global) -> Report
        ensures text { result.text.items ≡ [] }
        ensures left { result.left ≡ MOST_LINES }
    {
        Report {
            text: Vec::new(alloc),
            left: MOST_LINES,
            alloc,
        }
    }

    /// Adds a row, if there is room for one more.
    pub(crate) fn put_row(&mut self, line: usize, text: &[u8]) -> Result<(), AllocError>
        ensures { OnOk result
            (Adds (record { line = line; text = text.now } ∷ []) self.old self.new) }
    {
        if self.left == 0 {
            return Ok(());
        }
        put_line(&mut self.text, line, text)?;
        self.left -= 1;
        Ok(())
    }

    pub(crate) fn put_row_if(
        &mut self,
        holds: bool,
        line: usize,
        text: &[u8],
    ) -> Result<(), AllocError>
        ensures { OnOk result
            (Adds (row_if holds (record { line = line; text = text.now })) self.old self.new) }
    {
        if holds {
            return self.put_row(line, text);
        }
        Ok(())
    }

    /// Adds a value, and what is said of it.
    pub(crate) fn put_value_with(
        &mut self,
        pair: &KeyValue<'_>,
        words: &[u8],
    ) -> Result<(), AllocError>
        ensures { OnOk result
            (Adds (said_row (key_value_of pair.now) words.now ∷ []) self.old self.new) }
    {
        let mut text = value_text(self.alloc, pair)?;
        put(&mut text, words)?;
        self.put_row(pair.line, &text)
    }

    /// Adds what is said of a table.
    pub(crate) fn put_table(
        &mut self,
        table: &OutlineTable<'_>,
        words: &[u8],
        key: &[u8],
    ) -> Result<(), AllocError>
        ensures { OnOk result
            (Adds (table_row (table_of table.now) words.now key.now ∷ []) self.old self.new) }
    {
        let text = table_text(self.alloc, table, words, key)?;
        self.put_row(table.line, &text)
    }
}
