//! How a begun statement has its lists, and where rows go into them.

ghost use Rattle.std.specs.Prelude.{◌≡◌, ◌==◌, ◌&&◌, ◌++◌, ◌∷◌, IfOk, OnOk};
ghost use Rattle.text_draft.specs.Forms.{any_line, begins_so, ends_bare, filled, form_of, forms_of};
ghost use Rattle.text_draft.specs.Forms.{hashed, is_bare, key_name, opening, opens_rows, rows_for};
ghost use Rattle.text_draft.specs.Forms.{table_head, with_rows};

use crate::closing::is_blank;
use statement::Statement;
use std::alloc::AllocError;
use text_rows::put;

/// How a statement has a list.
#[derive(Clone, Copy)]
pub enum ListForm {
    /// A line begins it, and each row stands in lines of its own.
    Rows,
    /// Tables.
    Tables,
    /// Not at all.
    Absent,
    /// In another form.
    Other,
}

/// A list of a statement: three that go before its tables, and two that mostly are tables.
#[derive(Clone, Copy)]
pub enum ListKey {
    Apart,
    Base,
    Access,
    Loop,
    Target,
}

// How a line begins.
#[derive(Clone, Copy)]
enum LineStart {
    // With the key of a list, and nothing behind its bracket.
    RowList,
    TableHead,
    KeyName,
}

/// How it has each of its lists.
#[derive(Clone, Copy)]
pub struct Forms {
    pub apart: ListForm,
    pub base: ListForm,
    pub access: ListForm,
    pub loops: ListForm,
    pub targets: ListForm,
}

/// Rows for these lists.
#[derive(Drop)]
pub struct RowTexts {
    pub apart: Vec<u8>,
    pub rules: Vec<u8>,
    pub entries: Vec<u8>,
}

// Whether the byte ends a line, or begins a comment.
fn ends_bare(byte: u8) -> bool
    ensures { result ≡ ends_bare byte }
{
    byte == b'\n' || byte == b'\r' || byte == b'#'
}

// Whether nothing but blanks stands in the rest of the line, or a comment.
fn is_bare(text: &[u8]) -> bool
    ensures { result ≡ is_bare text.now }
{
    for byte in text {
        if !is_blank(*byte) {
            return ends_bare(*byte);
        }
    }
    true
}

impl ListKey {
    // What a line begins with that begins a list of rows.
    fn opening(self) -> &'static [u8]
        ensures { result.now ≡ opening self }
    {
        match self {
            ListKey::Apart => b"apart = [",
            ListKey::Base => b"base = [",
            ListKey::Access => b"access = [",
            ListKey::Loop => b"loop = [",
            ListKey::Target => b"target = [",
        }
    }

    // The head of a table.
    fn table_head(self) -> &'static [u8]
        ensures { result.now ≡ table_head self }
    {
        match self {
            ListKey::Apart => b"[[apart]]",
            ListKey::Base => b"[[base]]",
            ListKey::Access => b"[[access]]",
            ListKey::Loop => b"[[loop]]",
            ListKey::Target => b"[[target]]",
        }
    }

    // Whether the text begins with a line that begins the list, and has none of its rows.
    fn opens_rows(self, text: &[u8]) -> bool
        ensures { result ≡ opens_rows self text.now }
    {
        let opening = self.opening();
        text.starts_with(opening) && is_bare(&text[opening.len()..])
    }

    // Whether the text begins so.
    fn begins(self, start: LineStart, text: &[u8]) -> bool
        ensures { result ≡ begins_so self start text.now }
    {
        match start {
            LineStart::RowList => self.opens_rows(text),
            LineStart::TableHead => text.starts_with(self.table_head()),
            LineStart::KeyName => text.starts_with(self.name()),
        }
    }

    // Whether the byte ends a line, and the next one begins so.
    fn begins_behind(self, start: LineStart, byte: u8, rest: &[u8]) -> bool
        ensures { result ≡ ((byte == 10) && begins_so self start rest.now) }
    {
        byte == b'\n' && self.begins(start, rest)
    }

    // Whether a line of the text begins so.
    fn has_line(self, start: LineStart, text: &[u8]) -> bool
        ensures { result ≡ any_line (begins_so self start) text.now }
    {
        if self.begins(start, text) {
            return true;
        }
        for (i, byte) in text.iter().enumerate() {
            if self.begins_behind(start, *byte, &text[i + 1..]) {
                return true;
            }
        }
        false
    }

    /// The key.
    pub(crate) fn name(self) -> &'static [u8]
        ensures { result.now ≡ key_name self }
    {
        match self {
            ListKey::Apart => b"apart",
            ListKey::Base => b"base",
            ListKey::Access => b"access",
            ListKey::Loop => b"loop",
            ListKey::Target => b"target",
        }
    }

    // How the text has the list.
    fn form_in(self, text: &[u8], is_stated: bool) -> ListForm
        ensures { result ≡ form_of text.now self is_stated }
    {
        if self.has_line(LineStart::RowList, text) {
            return ListForm::Rows;
        }
        if self.has_line(LineStart::TableHead, text) {
            return ListForm::Tables;
        }
        if is_stated {
            return ListForm::Other;
        }
        if self.has_line(LineStart::KeyName, text) {
            return ListForm::Other;
        }
        ListForm::Absent
    }
}

impl Forms {
    /// How the text of a statement has each of the lists.
    pub(crate) fn of(text: &[u8], statement: &Statement) -> Forms
        ensures { result ≡ forms_of text.now statement.now }
    {
        let stretches = statement.loops().apart().stretches();
        Forms {
            apart: ListKey::Apart.form_in(text, !stretches.is_empty()),
            base: ListKey::Base.form_in(text, !statement.rules().is_empty()),
            access: ListKey::Access.form_in(text, !statement.accesses().is_empty()),
            loops: ListKey::Loop.form_in(text, !statement.loops().list().is_empty()),
            targets: ListKey::Target.form_in(text, !statement.targets().is_empty()),
        }
    }
}

impl RowTexts {
    // The rows for the list that begins in the first line of the text.
    fn rows_for(&self, text: &[u8]) -> &[u8]
        ensures { result.now
            ≡ rows_for self.now.apart.items self.now.rules.items self.now.entries.items text.now }
    {
        if ListKey::Apart.opens_rows(text) {
            return &self.apart;
        }
        if ListKey::Base.opens_rows(text) {
            return &self.rules;
        }
        if ListKey::Access.opens_rows(text) {
            return &self.entries;
        }
        b""
    }

    // Adds a byte, and the rows of its line where it ends one. Answers the rows of the line behind it.
    fn put_byte<'r>(
        &'r self,
        out: &mut Vec<u8>,
        first: &'r [u8],
        byte: u8,
        rest: &[u8],
    ) -> Result<&'r [u8], AllocError>
        ensures { IfOk result
            (λ next. out.new.items
            ++ with_rows self.now.apart.items self.now.rules.items self.now.entries.items next.now rest.now
            ≡ out.old.items
            ++ with_rows self.now.apart.items self.now.rules.items self.now.entries.items first.now
            (byte ∷ rest.now)) }
    {
        out.push(byte)?;
        if byte != b'\n' {
            return Ok(first);
        }
        put(out, first)?;
        Ok(self.rows_for(rest))
    }

    /// Adds a text, with the rows behind each line that begins a list.
    pub(crate) fn put_filled(&self, out: &mut Vec<u8>, text: &[u8]) -> Result<(), AllocError>
        ensures { OnOk result
            (out.new.items
            ≡ out.old.items
            ++ filled self.now.apart.items self.now.rules.items self.now.entries.items text.now) }
    {
        let mut first = self.rows_for(text);
        for (i, byte) in text.iter().enumerate() {
            first = self.put_byte(out, first, *byte, &text[i + 1..])?;
        }
        Ok(())
    }
}

// Adds a byte in front of the rest, and the sign of a comment where a line ends and another follows.
fn put_hashed_byte(out: &mut Vec<u8>, byte: u8, rest: &[u8]) -> Result<(), AllocError>
    ensures { OnOk result
        (out.new.items ++ hashed rest.now ≡ out.old.items ++ hashed (byte ∷ rest.now)) }
{
    out.push(byte)?;
    if byte == b'\n' && !rest.is_empty() {
        out.push(b'#')?;
    }
    Ok(())
}

/// Adds lines of which each but the first becomes a comment.
pub(crate) fn put_hashed(out: &mut Vec<u8>, text: &[u8]) -> Result<(), AllocError>
    ensures { OnOk result (out.new.items ≡ out.old.items ++ hashed text.now) }
{
    for (i, byte) in text.iter().enumerate() {
        put_hashed_byte(out, *byte, &text[i + 1..])?;
    }
    Ok(())
}
