ghost use Rattle.std.specs.Prelude.{◌≡◌, map};
ghost use Rattle.statement.specs.Places.{key_among, key_name, keys_of, list_key, most_of, named_key};

use crate::entries::{ACCESS_KEYS, LOOP_KEYS, TARGET_KEYS};
use crate::facts::{BRANCH_KEYS, MULTIPLY_KEYS, RULE_KEYS};
use crate::reading::{
    MOST_ACCESSES, MOST_BRANCHES, MOST_LOOPS, MOST_MULTIPLIES, MOST_RULES, MOST_TARGETS,
    STATEMENT_KEYS,
};

/// A list of tables in a statement.
#[derive(Clone, Copy)]
pub enum TableList {
    Loops,
    Targets,
    Accesses,
    Rules,
    Multiplies,
    Branches,
}

/// A key of a statement, but for those of its lists, or of a table of these.
#[derive(Clone, Copy)]
pub enum Key {
    Entry,
    Leave,
    Returns,
    Header,
    First,
    Last,
    Bound,
    At,
    Kind,
    To,
    Class,
    Register,
    Cycles,
    Taken,
}

/// Each key, in the order of the tables that have it: of the statement, a loop, a target, an access, a rule,
/// a multiply and a branch.
pub const KEYS: &[Key] = &[
    Key::Entry,
    Key::Leave,
    Key::Returns,
    Key::Header,
    Key::First,
    Key::Last,
    Key::Bound,
    Key::At,
    Key::Kind,
    Key::To,
    Key::Class,
    Key::Register,
    Key::Cycles,
    Key::Taken,
];

/// What of a table may have a fault.
#[derive(Clone, Copy)]
pub enum Part<'a> {
    /// A key that the table may not have, by the bytes of its name.
    Unknown(&'a [u8]),
    /// A key that is there: its value, or that it is there.
    Value(Key),
    /// A key that has to be there and is not.
    Missing(Key),
}

/// What of a statement may have a fault. Entries of lists, and destinations, are counted from 0.
#[derive(Clone, Copy)]
pub enum Spot<'a> {
    /// A key of the statement itself.
    Own(Part<'a>),
    /// The value at a list's key, which is no list.
    NoList(TableList),
    /// A list with more entries than a statement may have.
    TooMany(TableList),
    /// An entry of a list, which is no table.
    NoTable(TableList, usize),
    /// A key of an entry of a list.
    Listed(TableList, usize, Part<'a>),
    /// A loop whose header lies outside first to last, where words lie as what is apart moves them, or of
    /// which one end is apart and the other is not.
    Misplaced(usize),
    /// A return or a leave that has destinations.
    Unwanted(usize),
    /// A target with more destinations than it may have.
    TooManyDestinations(usize),
    /// A destination of a target: its value, or that an earlier one is of its address.
    Destination(usize, usize),
    /// A rule for a base register whose last address lies before its first.
    Reversed(usize),
    /// The value at `apart`, which is no list.
    NoStretches,
    /// More stretches apart than a statement may have.
    TooManyStretches,
    /// An entry of `apart`, which is no list of two values.
    NoStretch(usize),
    /// An address of a stretch apart: 0 is its first, 1 its last.
    StretchEnd(usize, usize),
    /// A stretch apart whose last address lies before its first.
    ReversedStretch(usize),
    /// An entry whose address an earlier one of its list has, or a rule for a register in a part that it
    /// shares with an earlier one.
    Second(TableList, usize),
}

/// The key of a list in a statement.
pub fn list_key(list: TableList) -> &'static str
    ensures { result.now ≡ list_key list }
{
    match list {
        TableList::Loops => "loop",
        TableList::Targets => "target",
        TableList::Accesses => "access",
        TableList::Rules => "base",
        TableList::Multiplies => "multiply",
        TableList::Branches => "branch",
    }
}

/// The name of a key in a statement.
pub fn key_name(key: Key) -> &'static str
    ensures { result.now ≡ key_name key }
{
    match key {
        Key::Entry => "entry",
        Key::Leave => "leave",
        Key::Returns => "returns",
        Key::Header => "header",
        Key::First => "first",
        Key::Last => "last",
        Key::Bound => "bound",
        Key::At => "at",
        Key::Kind => "kind",
        Key::To => "to",
        Key::Class => "class",
        Key::Register => "register",
        Key::Cycles => "cycles",
        Key::Taken => "taken",
    }
}

// The first of the keys that a word names.
fn key_among(keys: &[Key], word: &[u8]) -> Option<Key>
    ensures { result ≡ key_among keys.now word.now }
{
    for key in keys {
        if key_name(*key).as_bytes() == word {
            return Some(*key);
        }
    }
    None
}

/// The key that a word names.
pub fn named_key(word: &[u8]) -> Option<Key>
    ensures { result ≡ named_key word.now }
{
    key_among(KEYS, word)
}

/// The keys that a table of the list may have, or the statement itself.
pub(crate) fn keys_of(list: Option<TableList>) -> &'static [&'static str]
    ensures { map (λ k. k.now) result.now ≡ keys_of list }
{
    match list {
        None => STATEMENT_KEYS,
        Some(TableList::Loops) => LOOP_KEYS,
        Some(TableList::Targets) => TARGET_KEYS,
        Some(TableList::Accesses) => ACCESS_KEYS,
        Some(TableList::Rules) => RULE_KEYS,
        Some(TableList::Multiplies) => MULTIPLY_KEYS,
        Some(TableList::Branches) => BRANCH_KEYS,
    }
}

/// The most entries that a list of a statement may have.
pub fn most_of(list: TableList) -> usize
    ensures { result ≡ most_of list }
{
    match list {
        TableList::Loops => MOST_LOOPS,
        TableList::Targets => MOST_TARGETS,
        TableList::Accesses => MOST_ACCESSES,
        TableList::Rules => MOST_RULES,
        TableList::Multiplies => MOST_MULTIPLIES,
        TableList::Branches => MOST_BRANCHES,
    }
}
