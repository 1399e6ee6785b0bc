//! What an author states of a handler, read from TOML: the entry, the class of the addresses to which it
//! leaves, whether returns are stated, the loops, the words that are apart from them, the targets of words
//! that write R15, the classes of transfers, by their words or by base registers, the most cycles of
//! multiplies, and the ways of words that have a condition.
#![tactic(auto)]

mod apart;
mod entries;
mod facts;
mod faults;
mod law;
mod offsets;
mod parts;
mod places;
mod reading;
mod repeats;
mod spots;
mod stated;
mod stretches;

pub use apart::{ApartStretch, ApartWords};
pub use entries::{
    ACCESS_KEYS, LOOP_KEYS, MOST_DESTINATIONS, TARGET_KEYS, class_name, named_class, named_kind,
    named_leave, named_returns,
};
pub use facts::{BRANCH_KEYS, MULTIPLY_KEYS, RULE_KEYS, named_register, named_taken};
pub use faults::StatementFault;
pub use law::{
    faults_have_spots, statements_are_read, statements_are_stated, words_lie_by_address,
};
pub use places::Document;
pub use reading::{
    MOST_ACCESSES, MOST_BRANCHES, MOST_LOOPS, MOST_MULTIPLIES, MOST_RULES, MOST_STRETCHES,
    MOST_TARGETS, STATEMENT_KEYS, read_statement,
};
pub use spots::{KEYS, Key, Part, Spot, TableList, key_name, list_key, most_of, named_key};
pub use stated::{BaseRule, Loop, Returns, StatedLoops, Statement, Taken, Target, TargetKind};
pub use walks::MOST_ROUNDS;
