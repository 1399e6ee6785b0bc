//! What a word is to do, against what is stated of it.

ghost use Rattle.std.specs.Prelude.{◌≡◌, ◌≤◌, IfSome, MatchOption};
ghost use Rattle.kept_runs.specs.Reading.{IsByCondition};
ghost use Rattle.kept_runs.specs.StatedWord.{Departs, GoesAsStated, IsAsStated, TakesAsStated};
ghost use Rattle.kept_runs.specs.StatedWord.{TransfersAsStated};

use crate::judging::Stray;
use crate::reading::Reading;
use crate::transfers::other_of;
use statement::{Statement, Taken};

// A word that goes another way than the one stated.
fn other_way(statement: &Statement, address: u32, reading: &Reading) -> Option<Stray>
    requires { IsByCondition reading.now }
    ensures { MatchOption result (GoesAsStated statement.now address reading.now)
        (Departs statement.now address reading.now) }
{
    // Of a word under AL or NV what is stated says nothing.
    if reading.cond.is_always() {
        return None;
    }
    if reading.cond.is_never() {
        return None;
    }
    match statement.taken_at(address) {
        Some(Taken::Always) if !reading.holds => Some(Stray::OtherWay(Taken::Always)),
        Some(Taken::Never) if reading.holds => Some(Stray::OtherWay(Taken::Never)),
        Some(Taken::Always) | Some(Taken::Never) | None => None,
    }
}

// One that goes the stated way, and transfers a word of another class than the one stated.
fn other_class(statement: &Statement, address: u32, reading: &Reading) -> Option<Stray>
    requires goes { GoesAsStated statement.now address reading.now }
    requires few { IfSome reading.now.transfer (λ t. t.words ≤ 16) }
    ensures { MatchOption result (TransfersAsStated statement.now address reading.now)
        (Departs statement.now address reading.now) }
{
    let Some(transfer) = reading.transfer else {
        return None;
    };
    let stated = statement.class_at(address, reading.base);
    let Some(access) = other_of(stated, &transfer) else {
        return None;
    };
    Some(Stray::OtherClass { access, stated })
}

// One that does these as stated, and multiplies for more cycles than are stated.
fn more_cycles(statement: &Statement, address: u32, reading: &Reading) -> Option<Stray>
    requires goes { GoesAsStated statement.now address reading.now }
    requires transfers { TransfersAsStated statement.now address reading.now }
    ensures { MatchOption result (TakesAsStated statement.now address reading.now)
        (Departs statement.now address reading.now) }
{
    let Some(cycles) = reading.cycles else {
        return None;
    };
    if cycles > statement.cycles_at(address) {
        return Some(Stray::MoreCycles(cycles));
    }
    None
}

/// How the word at an address is to do other than is stated of it, if it is: first by its way, then by the
/// class of what it transfers, then by its cycles.
pub(crate) fn departs(statement: &Statement, address: u32, reading: &Reading) -> Option<Stray>
    requires by_condition { IsByCondition reading.now }
    requires few { IfSome reading.now.transfer (λ t. t.words ≤ 16) }
    ensures { MatchOption result (IsAsStated statement.now address reading.now)
        (Departs statement.now address reading.now) }
{
    if let Some(stray) = other_way(statement, address, reading) {
        return Some(stray);
    }
    if let Some(stray) = other_class(statement, address, reading) {
        return Some(stray);
    }
    if let Some(stray) = more_cycles(statement, address, reading) {
        return Some(stray);
    }
    None
}
