ghost use Rattle.std.specs.Prelude.{◌≡◌, IfOk, OnOk, length, map, option_map};
ghost use Rattle.text_refusals.specs.Outline.{all_taken, array_begun, begun, closed, header_of, in_array};
ghost use Rattle.text_refusals.specs.Outline.{item_of, items_of, line_read, nowhere, opened, tokens};
ghost use Rattle.text_refusals.specs.Outline.{bare_word, in_list, is_table_at, keys_at, reading_of};
ghost use Rattle.text_refusals.specs.Outline.{rest_read, spot_of, table_keys_of};
ghost use Rattle.text_refusals.specs.Outline.{past_end, table_begun, table_ended, table_of, taken, token_of};
ghost use Rattle.text_refusals.specs.Outline.{value_of, wanted, with_value};

use crate::outline_tokens::{OutlineToken, OutlineValue, bare_front, first_token, past_end};
use asm_text::{after_blanks, first_line};
use std::alloc::{AllocError, Global};
use toml_reading::is_one_of;

/// Where a table of a text begins.
#[derive(Clone, Copy)]
pub(crate) struct OutlineTable<'a> {
    /// The number of its line, from 1.
    pub line: usize,
    /// Its name: the key of which it is the value, or one of the values.
    pub name: &'a [u8],
    /// Whether it is one of a list, as after `[[`, or in braces in an array.
    pub is_listed: bool,
}

/// A key of a text, and its value.
#[derive(Clone, Copy)]
pub(crate) struct KeyValue<'a> {
    /// The number of its line, from 1.
    pub line: usize,
    /// The name of its table, empty for the file itself.
    pub list: &'a [u8],
    pub key: &'a [u8],
    /// How many arrays the value is in, 0 to 3, which stands for more.
    pub depth: u8,
    pub value: OutlineValue<'a>,
}

/// What a part of a text says.
#[derive(Clone, Copy)]
pub(crate) enum OutlineItem<'a> {
    /// A table begins.
    Begins(OutlineTable<'a>),
    /// A key has a value.
    States(KeyValue<'a>),
    /// A table in braces ends.
    Ends,
}

/// The keys of a file whose values are tables.
#[derive(Clone, Copy)]
pub(crate) struct TableKeys {
    /// Those whose values are lists of tables.
    pub lists: &'static [&'static str],
    /// Those whose value is one table.
    pub tables: &'static [&'static str],
}

impl TableKeys {
    // Those whose values, in so many arrays, are tables of the file.
    fn at(self, depth: u8) -> &'static [&'static str]
        ensures { map (λ k. k.now) result.now ≡ keys_at (table_keys_of self) depth }
    {
        match depth {
            0 => self.tables,
            1 => self.lists,
            _ => &[],
        }
    }
}

/// The table at hand, by its name and its last key.
#[derive(Clone, Copy)]
pub(crate) struct OutlineCursor<'a> {
    // its name
    list: &'a [u8],
    // the last key
    key: &'a [u8],
    // how many arrays are open after the key, 0 to 3, which stands for more
    depth: u8,
    // whether it is a table that the file may have
    is_part: bool,
}

impl<'a> OutlineCursor<'a> {
    fn in_list(name: &'a [u8]) -> OutlineCursor<'a>
        ensures { spot_of result ≡ in_list name.now }
    {
        OutlineCursor {
            list: name,
            key: b"",
            depth: 0,
            is_part: true,
        }
    }

    fn nowhere() -> OutlineCursor<'a>
        ensures { spot_of result ≡ nowhere }
    {
        OutlineCursor {
            list: b"",
            key: b"",
            depth: 0,
            is_part: false,
        }
    }

    // In one array more.
    fn in_array(self) -> OutlineCursor<'a>
        ensures { spot_of result ≡ in_array (spot_of self.entry) }
    {
        let depth = match self.depth {
            0 => 1,
            1 => 2,
            _ => 3,
        };
        OutlineCursor {
            list: self.list,
            key: self.key,
            depth,
            is_part: self.is_part,
        }
    }

    // Whether a table in braces there is one of the file's.
    fn is_table_at(&self, keys: TableKeys) -> bool
        ensures { result ≡ is_table_at (table_keys_of keys) (spot_of self.now) }
    {
        self.is_part && self.list.is_empty() && is_one_of(keys.at(self.depth), self.key)
    }
}

/// What was read of a text.
#[derive(Drop)]
pub(crate) struct OutlineReading<'a> {
    keys: TableKeys,
    at: OutlineCursor<'a>,
    // the spots outside the brackets that are open, the last of them the nearest
    around: Vec<OutlineCursor<'a>>,
    // the quotes of a text that goes on
    quotes: &'static [u8],
    items: Vec<OutlineItem<'a>>,
}

// The quotes that a text still wants.
fn wanted(value: OutlineValue<'_>) -> &'static [u8]
    ensures { result.now ≡ wanted (value_of value.entry) }
{
    match value {
        OutlineValue::Cut(quotes, _) => quotes,
        OutlineValue::Bare(_)
        | OutlineValue::Quoted(_, _)
        | OutlineValue::Array(_)
        | OutlineValue::InlineTable(_) => b"",
    }
}

impl<'a> OutlineReading<'a> {
    fn begin(&mut self, table: OutlineTable<'a>) -> Result<(), AllocError>
        ensures { OnOk result (reading_of self.new ≡ begun (reading_of self.old) (table_of table.entry)) }
    {
        self.items.push(OutlineItem::Begins(table))?;
        self.at = OutlineCursor::in_list(table.name);
        Ok(())
    }

    // Adds a value, if it is in a table that the file may have.
    fn value(&mut self, line: usize, value: OutlineValue<'a>) -> Result<(), AllocError>
        ensures { OnOk result
            (reading_of self.new ≡ with_value line (reading_of self.old) (value_of value.entry)) }
    {
        if self.at.is_part {
            self.items.push(OutlineItem::States(KeyValue {
                line,
                list: self.at.list,
                key: self.at.key,
                depth: self.at.depth,
                value,
            }))?;
        }
        Ok(())
    }

    // A bracket opens.
    fn open(&mut self, spot: OutlineCursor<'a>) -> Result<(), AllocError>
        ensures { OnOk result (reading_of self.new ≡ opened (reading_of self.old) (spot_of spot.entry)) }
    {
        self.around.push(self.at)?;
        self.at = spot;
        Ok(())
    }

    // A bracket ends.
    fn close(&mut self)
        ensures { reading_of self.new ≡ closed (reading_of self.old) }
    {
        if let Some(spot) = self.around.pop() {
            self.at = spot;
        }
    }

    fn begin_array(&mut self, line: usize, is_empty: bool) -> Result<(), AllocError>
        ensures { OnOk result (reading_of self.new ≡ array_begun line (reading_of self.old) is_empty) }
    {
        self.value(line, OutlineValue::Array(is_empty))?;
        self.open(self.at.in_array())
    }

    fn begin_table(&mut self, line: usize, is_empty: bool) -> Result<(), AllocError>
        ensures { OnOk result (reading_of self.new ≡ table_begun line (reading_of self.old) is_empty) }
    {
        if self.at.is_table_at(self.keys) {
            let name = self.at.key;
            self.items.push(OutlineItem::Begins(OutlineTable {
                line,
                name,
                is_listed: self.at.depth == 1,
            }))?;
            return self.open(OutlineCursor::in_list(name));
        }
        self.value(line, OutlineValue::InlineTable(is_empty))?;
        self.open(OutlineCursor::nowhere())
    }

    fn end_table(&mut self) -> Result<(), AllocError>
        ensures { OnOk result (reading_of self.new ≡ table_ended (reading_of self.old)) }
    {
        if self.at.is_part {
            self.items.push(OutlineItem::Ends)?;
        }
        self.close();
        Ok(())
    }

    fn take(&mut self, line: usize, token: OutlineToken<'a>) -> Result<(), AllocError>
        ensures { OnOk result
            (reading_of self.new ≡ taken line (reading_of self.old) (token_of token.entry)) }
    {
        match token {
            OutlineToken::Gap => Ok(()),
            OutlineToken::OpensArray(is_empty) => self.begin_array(line, is_empty),
            OutlineToken::ClosesArray => {
                self.close();
                Ok(())
            }
            OutlineToken::OpensTable(is_empty) => self.begin_table(line, is_empty),
            OutlineToken::ClosesTable => self.end_table(),
            OutlineToken::Key(key) => {
                self.at.key = key;
                Ok(())
            }
            OutlineToken::OfValue(value) => {
                self.quotes = wanted(value);
                self.value(line, value)
            }
        }
    }

    // Reads a line, or the rest of one, that begins no table.
    #[tactic(auto, unfolding(crate::specs::Outline::all_taken, crate::specs::Outline::tokens))]
    fn take_all(&mut self, line: usize, text: &'a [u8]) -> Result<(), AllocError>
        ensures { OnOk result
            (reading_of self.new
            ≡ all_taken line (reading_of self.old) (tokens (length text.now) text.now)) }
    {
        let mut rest = text;
        for _ in 0..text.len() {
            let Some((token, after)) = first_token(rest) else {
                return Ok(());
            };
            self.take(line, token)?;
            rest = after;
        }
        Ok(())
    }

    // Reads what follows the end of a text that goes on.
    fn read_rest(&mut self, line: usize, text: &'a [u8]) -> Result<(), AllocError>
        ensures { OnOk result
            (reading_of self.new
            ≡ rest_read line (reading_of self.old) (past_end (reading_of self.old).quotes text.now)) }
    {
        let Some(rest) = past_end(self.quotes, text) else {
            return Ok(());
        };
        self.quotes = b"";
        self.take_all(line, rest)
    }

    fn read_line(&mut self, line: usize, text: &'a [u8]) -> Result<(), AllocError>
        ensures { OnOk result (reading_of self.new ≡ line_read line (reading_of self.old) text.now) }
    {
        if !self.quotes.is_empty() {
            return self.read_rest(line, text);
        }
        if !self.around.is_empty() {
            return self.take_all(line, text);
        }
        match header_of(line, text) {
            Some(table) => self.begin(table),
            None => self.take_all(line, text),
        }
    }
}

// The bare word at the front.
fn bare_word(text: &[u8]) -> &[u8]
    ensures { result.now ≡ bare_word text.now }
{
    bare_front(after_blanks(text))
}

// The table that a line begins, if it begins one.
fn header_of(line: usize, text: &[u8]) -> Option<OutlineTable<'_>>
    ensures { option_map table_of result ≡ header_of line text.now }
{
    match after_blanks(text) {
        [b'[', b'[', rest @ ..] => Some(OutlineTable {
            line,
            name: bare_word(rest),
            is_listed: true,
        }),
        [b'[', rest @ ..] => Some(OutlineTable {
            line,
            name: bare_word(rest),
            is_listed: false,
        }),
        _ => None,
    }
}

/// The tables and values of a text, as its words say.
///
/// # Errors
///
/// An allocation failed.
#[tactic(auto, unfolding(crate::specs::Outline::lines_read))]
pub(crate) fn items_of(
    alloc: Global,
    keys: TableKeys,
    text: &[u8],
) -> Result<Vec<OutlineItem<'_>>, AllocError>
    ensures { IfOk result
        (λ items. map item_of items.items ≡ items_of (table_keys_of keys) text.now) }
{
    let mut read = OutlineReading {
        keys,
        at: OutlineCursor::in_list(b""),
        around: Vec::new(alloc),
        quotes: b"",
        items: Vec::new(alloc),
    };
    let mut rest = text;
    let mut line = 1;
    while let Some((first, after)) = first_line(rest) {
        read.read_line(line, first)?;
        rest = after;
        line += 1;
    }
    Ok(read.items)
}
