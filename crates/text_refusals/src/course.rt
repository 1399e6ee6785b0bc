ghost use Rattle.std.specs.Prelude.{◌≡◌, ◌≤◌, length};
ghost use Rattle.std.specs.List.{prefix_len};
ghost use Rattle.text_refusals.specs.Courses.{HasRoom, after, at_front, begun, counted, entered, entry_list};
ghost use Rattle.text_refusals.specs.Courses.{inner_key, is_inner};
ghost use Rattle.text_refusals.specs.Courses.{is_at_key, is_destination, is_end, is_stretch};
ghost use Rattle.text_refusals.specs.Courses.{is_stretch_table, key_head, named_list, passed};
ghost use Rattle.text_refusals.specs.Courses.{begun_table, passed_own, stretched, value_list};
ghost use Rattle.text_refusals.specs.Outline.{item_of, key_value_of, table_of};

use crate::outline::{KeyValue, OutlineItem, OutlineTable};
use crate::outline_tokens::after;
use statement::{TableList, list_key};

/// Where in its document an item of a statement's text is, by the items before it.
#[derive(Clone, Copy)]
pub(crate) struct Course {
    // how many entries of each list have begun
    loops: usize,
    targets: usize,
    accesses: usize,
    rules: usize,
    multiplies: usize,
    branches: usize,
    /// The list and the number of the entry that began last, if the last table is an entry.
    pub entry: Option<(TableList, usize)>,
    /// How many of its destinations came before.
    pub destinations: usize,
    /// How many stretches apart have begun.
    pub stretches: usize,
    /// How many values of the last of them came before.
    pub ends: usize,
}

/// The list that a word names.
pub(crate) fn named_list(word: &[u8]) -> Option<TableList>
    ensures { result ≡ named_list word.now }
{
    if word == list_key(TableList::Loops).as_bytes() {
        return Some(TableList::Loops);
    }
    if word == list_key(TableList::Targets).as_bytes() {
        return Some(TableList::Targets);
    }
    if word == list_key(TableList::Accesses).as_bytes() {
        return Some(TableList::Accesses);
    }
    if word == list_key(TableList::Rules).as_bytes() {
        return Some(TableList::Rules);
    }
    if word == list_key(TableList::Multiplies).as_bytes() {
        return Some(TableList::Multiplies);
    }
    if word == list_key(TableList::Branches).as_bytes() {
        return Some(TableList::Branches);
    }
    None
}

fn is_inner(byte: u8) -> bool
    ensures { result ≡ is_inner byte }
{
    byte != b'.'
}

fn head_len(key: &[u8]) -> usize
    ensures len { result ≡ prefix_len is_inner key.now }
    ensures within { result ≤ length key.now }
{
    key.iter().take_while(|byte| is_inner(**byte)).count()
}

/// The first part of a key with dots.
pub(crate) fn key_head(key: &[u8]) -> &[u8]
    ensures { result.now ≡ key_head key.now }
{
    &key[..head_len(key)]
}

/// The second part of a key with dots, empty where there is none.
pub(crate) fn inner_key(key: &[u8]) -> &[u8]
    ensures { result.now ≡ inner_key key.now }
{
    key_head(after(key, head_len(key) + 1))
}

/// The list of which the table is an entry.
pub(crate) fn entry_list(table: &OutlineTable<'_>) -> Option<TableList>
    ensures { result ≡ entry_list (table_of table.now) }
{
    if table.is_listed {
        return named_list(table.name);
    }
    None
}

/// Whether the value is at the key, in so many arrays.
pub(crate) fn is_at_key(depth: u8, key: &[u8], pair: &KeyValue<'_>) -> bool
    ensures { result ≡ is_at_key depth key.now (key_value_of pair.now) }
{
    pair.depth == depth && pair.key == key
}

/// The list of which the value, in an array of the statement itself, is an entry.
pub(crate) fn value_list(pair: &KeyValue<'_>) -> Option<TableList>
    ensures { result ≡ value_list (key_value_of pair.now) }
{
    if pair.list.is_empty() && pair.depth == 1 {
        return named_list(pair.key);
    }
    None
}

/// Whether the value is a destination of the table at hand.
pub(crate) fn is_destination(pair: &KeyValue<'_>) -> bool
    ensures { result ≡ is_destination (key_value_of pair.now) }
{
    !pair.list.is_empty() && is_at_key(1, b"to", pair)
}

/// Whether the value is a stretch apart.
pub(crate) fn is_stretch(pair: &KeyValue<'_>) -> bool
    ensures { result ≡ is_stretch (key_value_of pair.now) }
{
    pair.list.is_empty() && is_at_key(1, b"apart", pair)
}

/// Whether the value is one of a stretch apart.
pub(crate) fn is_end(pair: &KeyValue<'_>) -> bool
    ensures { result ≡ is_end (key_value_of pair.now) }
{
    pair.list.is_empty() && is_at_key(2, b"apart", pair)
}

/// Whether the table is a stretch apart, where none may be.
pub(crate) fn is_stretch_table(table: &OutlineTable<'_>) -> bool
    ensures { result ≡ is_stretch_table (table_of table.now) }
{
    table.is_listed && table.name == b"apart".as_slice()
}

impl Course {
    /// At the front of a text.
    pub(crate) fn new() -> Course
        ensures { result ≡ at_front }
    {
        Course {
            loops: 0,
            targets: 0,
            accesses: 0,
            rules: 0,
            multiplies: 0,
            branches: 0,
            entry: None,
            destinations: 0,
            stretches: 0,
            ends: 0,
        }
    }

    /// How many entries of the list have begun.
    pub(crate) fn begun(&self, list: TableList) -> usize
        ensures { result ≡ begun list self.now }
    {
        match list {
            TableList::Loops => self.loops,
            TableList::Targets => self.targets,
            TableList::Accesses => self.accesses,
            TableList::Rules => self.rules,
            TableList::Multiplies => self.multiplies,
            TableList::Branches => self.branches,
        }
    }

    // With one entry of the list more.
    fn counted(mut self, list: TableList) -> Course
        requires { HasRoom self }
        ensures { result ≡ counted list self }
    {
        match list {
            TableList::Loops => self.loops += 1,
            TableList::Targets => self.targets += 1,
            TableList::Accesses => self.accesses += 1,
            TableList::Rules => self.rules += 1,
            TableList::Multiplies => self.multiplies += 1,
            TableList::Branches => self.branches += 1,
        }
        self
    }

    // After a table of the list, if it is one of a list, has begun.
    fn entered(self, list: Option<TableList>) -> Course
        requires { HasRoom self }
        ensures { result ≡ entered list self }
    {
        let Some(list) = list else {
            return Course {
                entry: None,
                destinations: 0,
                ..self
            };
        };
        Course {
            entry: Some((list, self.begun(list))),
            destinations: 0,
            ..self.counted(list)
        }
    }

    // With one stretch apart more.
    fn stretched(self) -> Course
        requires { HasRoom self }
        ensures { result ≡ stretched self }
    {
        Course {
            stretches: self.stretches + 1,
            ends: 0,
            ..self
        }
    }

    // After a value outside tables.
    fn passed_own(self, pair: &KeyValue<'_>) -> Course
        requires { HasRoom self }
        ensures { result ≡ passed_own (key_value_of pair.now) self }
    {
        if is_stretch(pair) {
            return self.stretched();
        }
        if is_end(pair) {
            return Course {
                ends: self.ends + 1,
                ..self
            };
        }
        match value_list(pair) {
            Some(list) => self.counted(list),
            None => self,
        }
    }

    // After a value.
    fn passed(self, pair: &KeyValue<'_>) -> Course
        requires { HasRoom self }
        ensures { result ≡ passed (key_value_of pair.now) self }
    {
        if is_destination(pair) {
            return Course {
                destinations: self.destinations + 1,
                ..self
            };
        }
        self.passed_own(pair)
    }

    // After a table has begun.
    fn begun_table(self, table: &OutlineTable<'_>) -> Course
        requires { HasRoom self }
        ensures { result ≡ begun_table (table_of table.now) self }
    {
        if is_stretch_table(table) {
            return Course {
                entry: None,
                destinations: 0,
                stretches: self.stretches + 1,
                ends: 0,
                ..self
            };
        }
        self.entered(entry_list(table))
    }

    /// After the item.
    pub(crate) fn after(self, item: &OutlineItem<'_>) -> Course
        requires { HasRoom self }
        ensures { result ≡ after self (item_of item.now) }
    {
        match item {
            OutlineItem::Begins(table) => self.begun_table(table),
            OutlineItem::States(pair) => self.passed(pair),
            OutlineItem::Ends => self,
        }
    }
}
