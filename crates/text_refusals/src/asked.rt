ghost use Rattle.std.specs.Prelude.{◌≡◌, IfOk, map};
ghost use Rattle.statement.specs.Places.{keys_of};
ghost use Rattle.text_refusals.specs.FaultyItems.{is_cut, is_hidden, may_be_text, second_key, target_number};
ghost use Rattle.text_refusals.specs.Refused.{unknown_text, unknown_words, value_words, wanted_of};
ghost use Rattle.text_refusals.specs.Refused.{wanted_words};
ghost use Rattle.text_refusals.specs.Outline.{key_value_of, value_of};

use crate::course::{
    Course, is_at_key, is_destination, is_end, is_stretch, key_head, named_list, value_list,
};
use crate::nearest::meant_text;
use crate::outline::KeyValue;
use crate::outline_tokens::OutlineValue;
use statement::{
    ACCESS_KEYS, BRANCH_KEYS, Document, Key, LOOP_KEYS, MULTIPLY_KEYS, Part, RULE_KEYS,
    STATEMENT_KEYS, Spot, StatementFault, TARGET_KEYS, TableList, named_key,
};
use std::alloc::{AllocError, Global};
use text_rows::put;

const CLASSES: &[u8] =
    b" has to be \"any\", \"ram\", \"rom\", \"io\", \"slow\", \"medium\", \"fast\" or \"synchronous\"";

// Whether the value is a text that goes on after its line.
fn is_cut(value: OutlineValue<'_>) -> bool
    ensures { result ≡ is_cut (value_of value.entry) }
{
    matches!(value, OutlineValue::Cut(_, _))
}

fn may_be_text(depth: u8, key: Option<Key>) -> bool
    ensures { result ≡ may_be_text depth key }
{
    match key {
        None | Some(Key::Bound | Key::Cycles) => false,
        Some(Key::To) => depth != 0,
        Some(_) => true,
    }
}

// Whether the value is a text that goes on after its line where a label or a word may be: it has no row.
fn is_hidden(pair: &KeyValue<'_>) -> bool
    ensures { result ≡ is_hidden (key_value_of pair.now) }
{
    is_cut(pair.value) && may_be_text(pair.depth, named_key(pair.key))
}

fn target_number(entry: Option<(TableList, usize)>) -> Option<usize>
    ensures { result ≡ target_number entry }
{
    match entry {
        Some((TableList::Targets, index)) => Some(index),
        Some(
            (
                TableList::Loops
                | TableList::Accesses
                | TableList::Rules
                | TableList::Multiplies
                | TableList::Branches,
                _,
            ),
        )
        | None => None,
    }
}

// The key whose value shows that an entry says what an earlier one of its list does.
fn second_key(list: TableList) -> &'static [u8]
    ensures { result.now ≡ second_key list }
{
    match list {
        TableList::Rules => b"register",
        TableList::Loops
        | TableList::Targets
        | TableList::Accesses
        | TableList::Multiplies
        | TableList::Branches => b"at",
    }
}

// The keys that a table may have, and what is said of another.
#[derive(Clone, Copy)]
struct KnownKeys {
    keys: &'static [&'static str],
    unknown: &'static [u8],
}

impl KnownKeys {
    fn new(keys: &'static [&'static str], unknown: &'static [u8]) -> KnownKeys
        ensures keys { map (λ k. k.now) result.keys.now ≡ map (λ k. k.now) keys.now }
        ensures unknown { result.unknown.now ≡ unknown.now }
    {
        KnownKeys { keys, unknown }
    }
}

// Those of a list's tables, or of the statement itself.
fn known_keys(list: Option<TableList>) -> KnownKeys
    ensures keys { map (λ k. k.now) result.keys.now ≡ keys_of list }
    ensures unknown { result.unknown.now ≡ unknown_words list }
{
    match list {
        None => KnownKeys::new(STATEMENT_KEYS, b" is no key of statements"),
        Some(TableList::Loops) => KnownKeys::new(LOOP_KEYS, b" is no key of [[loop]]"),
        Some(TableList::Targets) => KnownKeys::new(TARGET_KEYS, b" is no key of [[target]]"),
        Some(TableList::Accesses) => KnownKeys::new(ACCESS_KEYS, b" is no key of [[access]]"),
        Some(TableList::Rules) => KnownKeys::new(RULE_KEYS, b" is no key of [[base]]"),
        Some(TableList::Multiplies) => {
            KnownKeys::new(MULTIPLY_KEYS, b" is no key of [[multiply]]")
        }
        Some(TableList::Branches) => KnownKeys::new(BRANCH_KEYS, b" is no key of [[branch]]"),
    }
}

// Of which table a key is none, and which of its keys that may be.
fn unknown_text(alloc: Global, list: Option<TableList>, word: &[u8]) -> Result<Vec<u8>, AllocError>
    ensures { IfOk result (λ text. text.items ≡ unknown_text list word.now) }
{
    let known = known_keys(list);
    let mut out = Vec::from_slice(alloc, known.unknown)?;
    let meant = meant_text(alloc, known.keys, word)?;
    put(&mut out, &meant)?;
    Ok(out)
}

// The words or numbers that may be the value of a key; nothing where that may be an address.
fn wanted_words(key: Key) -> &'static [u8]
    ensures { result.now ≡ wanted_words key }
{
    match key {
        Key::Leave => b" has to be \"any\", \"ram\", \"rom\" or \"io\"",
        Key::Returns => b" has to be \"assumed\" or \"stated\"",
        Key::Bound => b" has to be a whole number from 0 to 1048576",
        Key::Kind => b" has to be \"jump\", \"call\", \"return\" or \"leave\"",
        Key::Class => CLASSES,
        Key::Register => b" has to be \"R0\" to \"R15\", \"SP\", \"LR\" or \"PC\"",
        Key::Cycles => b" has to be a whole number from 1 to 16",
        Key::Taken => b" has to be \"always\" or \"never\"",
        Key::Entry | Key::Header | Key::First | Key::Last | Key::At | Key::To => b"",
    }
}

/// The document of a statement's text, and the fault that is looked for in it.
#[derive(Clone, Copy)]
pub(crate) struct Asked<'a> {
    pub document: &'a Document<'a>,
    pub fault: StatementFault,
}

impl Asked<'_> {
    ghost use Rattle.text_refusals.specs.FaultyItems.{has_destination, has_in, has_no_list, has_no_table};
    ghost use Rattle.text_refusals.specs.FaultyItems.{has_end, has_no_stretch, has_no_stretches, has_part};
    ghost use Rattle.text_refusals.specs.FaultyItems.{has_reversed_stretch, has_second, has_unknown, has_value};
    ghost use Rattle.text_refusals.specs.FaultyItems.{is_faulty, is_listed, is_shown};

    /// Whether the spot of the document has the fault.
    pub(crate) fn has(&self, spot: Spot<'_>) -> bool
        ensures { result ≡ has_in self.now spot.entry }
    {
        self.document.has_fault_at(spot, self.fault)
    }

    // Whether a part of the table that the value is in has the fault.
    fn has_part(&self, course: &Course, pair: &KeyValue<'_>, part: Part<'_>) -> bool
        ensures { result ≡ has_part (has_in self.now) course.now (key_value_of pair.now) part.entry }
    {
        if pair.list.is_empty() {
            return self.has(Spot::Own(part));
        }
        match course.entry {
            Some((list, index)) => self.has(Spot::Listed(list, index, part)),
            None => false,
        }
    }

    // Whether the table may not have the key.
    fn has_unknown(&self, course: &Course, pair: &KeyValue<'_>) -> bool
        ensures { result ≡ has_unknown (has_in self.now) course.now (key_value_of pair.now) }
    {
        pair.depth == 0 && self.has_part(course, pair, Part::Unknown(key_head(pair.key)))
    }

    // Whether the value at the key has the fault.
    fn has_value(&self, course: &Course, pair: &KeyValue<'_>) -> bool
        ensures { result ≡ has_value (has_in self.now) course.now (key_value_of pair.now) }
    {
        if pair.depth != 0 {
            return false;
        }
        match named_key(key_head(pair.key)) {
            Some(key) => self.has_part(course, pair, Part::Value(key)),
            None => false,
        }
    }

    // What may stand at the key of a value, where that is what has the fault.
    fn wanted_at(&self, course: &Course, pair: &KeyValue<'_>) -> &'static [u8]
        ensures { result.now ≡ wanted_of (has_in self.now) course.now (key_value_of pair.now) }
    {
        if !self.has_value(course, pair) {
            return b"";
        }
        match named_key(key_head(pair.key)) {
            Some(key) => wanted_words(key),
            None => b"",
        }
    }

    /// What is said of a faulty value: that its key is none of its table's, or what may stand there.
    /// `AllocError`: an allocation failed.
    pub(crate) fn value_words(
        &self,
        alloc: Global,
        course: &Course,
        pair: &KeyValue<'_>,
    ) -> Result<Vec<u8>, AllocError>
        ensures { IfOk result
            (λ words. words.items ≡ value_words (has_in self.now) course.now (key_value_of pair.now)) }
    {
        if self.has_unknown(course, pair) {
            return unknown_text(alloc, named_list(pair.list), key_head(pair.key));
        }
        Vec::from_slice(alloc, self.wanted_at(course, pair))
    }

    // Whether the value is of a list's key, and no list.
    fn has_no_list(&self, pair: &KeyValue<'_>) -> bool
        ensures { result ≡ has_no_list (has_in self.now) (key_value_of pair.now) }
    {
        if !pair.list.is_empty() || pair.depth != 0 {
            return false;
        }
        match named_list(key_head(pair.key)) {
            Some(list) => self.has(Spot::NoList(list)),
            None => false,
        }
    }

    // Whether the value is an entry of a list, and no table.
    fn has_no_table(&self, course: &Course, pair: &KeyValue<'_>) -> bool
        ensures { result ≡ has_no_table (has_in self.now) course.now (key_value_of pair.now) }
    {
        match value_list(pair) {
            Some(list) => self.has(Spot::NoTable(list, course.begun(list))),
            None => false,
        }
    }

    // Whether the value is a destination, and has the fault.
    fn has_destination(&self, course: &Course, pair: &KeyValue<'_>) -> bool
        ensures { result ≡ has_destination (has_in self.now) course.now (key_value_of pair.now) }
    {
        if !is_destination(pair) {
            return false;
        }
        match target_number(course.entry) {
            Some(index) => self.has(Spot::Destination(index, course.destinations)),
            None => false,
        }
    }

    /// Whether the value is at the key of the stretches apart, and no list.
    pub(crate) fn has_no_stretches(&self, pair: &KeyValue<'_>) -> bool
        ensures { result ≡ has_no_stretches (has_in self.now) (key_value_of pair.now) }
    {
        if !pair.list.is_empty() || pair.depth != 0 {
            return false;
        }
        key_head(pair.key) == b"apart".as_slice() && self.has(Spot::NoStretches)
    }

    /// Whether the value is a stretch apart, and no list of two values.
    pub(crate) fn has_no_stretch(&self, course: &Course, pair: &KeyValue<'_>) -> bool
        ensures { result ≡ has_no_stretch (has_in self.now) course.now (key_value_of pair.now) }
    {
        is_stretch(pair) && self.has(Spot::NoStretch(course.stretches))
    }

    /// Whether the value is a stretch apart that ends before it begins.
    pub(crate) fn has_reversed_stretch(&self, course: &Course, pair: &KeyValue<'_>) -> bool
        ensures { result ≡ has_reversed_stretch (has_in self.now) course.now (key_value_of pair.now) }
    {
        is_stretch(pair) && self.has(Spot::ReversedStretch(course.stretches))
    }

    // Whether the value is an address of a stretch apart, and has the fault.
    fn has_end(&self, course: &Course, pair: &KeyValue<'_>) -> bool
        ensures { result ≡ has_end (has_in self.now) course.now (key_value_of pair.now) }
    {
        let stretch = course.stretches.saturating_sub(1);
        is_end(pair) && self.has(Spot::StretchEnd(stretch, course.ends))
    }

    // Whether an earlier entry of the list is of the address, or for a rule of the register, that the value
    // is.
    fn has_second(&self, course: &Course, pair: &KeyValue<'_>) -> bool
        ensures { result ≡ has_second (has_in self.now) course.now (key_value_of pair.now) }
    {
        if pair.list.is_empty() {
            return false;
        }
        match course.entry {
            Some((list, index)) => {
                is_at_key(0, second_key(list), pair) && self.has(Spot::Second(list, index))
            }
            None => false,
        }
    }

    // Whether the value is one of a list's, and has the fault.
    fn is_listed(&self, course: &Course, pair: &KeyValue<'_>) -> bool
        ensures { result ≡ is_listed (has_in self.now) course.now (key_value_of pair.now) }
    {
        if self.has_no_table(course, pair) {
            return true;
        }
        if self.has_destination(course, pair) {
            return true;
        }
        if self.has_end(course, pair) {
            return true;
        }
        self.has_second(course, pair)
    }

    // Whether the value has the fault, which is not hidden.
    fn is_shown(&self, course: &Course, pair: &KeyValue<'_>) -> bool
        ensures { result ≡ is_shown (has_in self.now) course.now (key_value_of pair.now) }
    {
        if self.has_value(course, pair) {
            return true;
        }
        if self.has_no_list(pair) {
            return true;
        }
        self.is_listed(course, pair)
    }

    /// Whether the value, or its key, has the fault.
    pub(crate) fn is_faulty(&self, course: &Course, pair: &KeyValue<'_>) -> bool
        ensures { result ≡ is_faulty (has_in self.now) course.now (key_value_of pair.now) }
    {
        if self.has_unknown(course, pair) {
            return true;
        }
        !is_hidden(pair) && self.is_shown(course, pair)
    }
}
