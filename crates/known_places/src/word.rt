ghost use Rattle.std.specs.Prelude.{◌≡◌, ◌<◌, ℕ, IfSome, IsTrue};
ghost use Rattle.arm2_decode.specs.Table.{Means};
ghost use Rattle.known_places.specs.Endless.{WordNeverGoes};
ghost use Rattle.known_places.specs.Outside.{WordGoesOutside};
ghost use Rattle.known_places.specs.Words.{Carries, StaysIn};

use crate::never::never_holds;
use crate::transfers::{moves_in, moves_outside};
use arm2_decode::{Instr, decode};
use bus_ticks::Class;
use control_flow::Label;
use known_words::{Knowledge, Range, after, narrowed};

// What is known after an instruction.
fn known_after_instr(
    instr: &Instr,
    address: u32,
    label: Label,
    before: &Knowledge,
) -> Option<Knowledge>
    ensures { (word : ℕ) → Means word instr.now
        → IfSome result (λ known. Carries word address label before.now known) }
{
    match label {
        Label::Do => after(
            &instr.operation,
            address,
            &narrowed(before, instr.cond, true),
        ),
        Label::Skip => Some(narrowed(before, instr.cond, false)),
    }
}

/// What is known after the word at the address, where it is done or passed over as the label says; none where
/// nothing is known then.
pub(crate) fn known_after(
    word: u32,
    address: u32,
    label: Label,
    before: &Knowledge,
) -> Option<Knowledge>
    ensures { IfSome result (λ known. Carries word address label before.now known) }
{
    match decode(word) {
        Ok(instr) => known_after_instr(&instr, address, label, before),
        // It stops the machine where its condition holds.
        Err(_) => Some(*before),
    }
}

// Whether the words that an instruction transfers are seen to be of the class.
fn instr_stays_in(class: Class, instr: &Instr, address: u32, before: &Knowledge) -> bool
    ensures { IsTrue result → (word : ℕ) → Means word instr.now → StaysIn class word address before.now }
{
    moves_in(
        class,
        &instr.operation,
        address,
        &narrowed(before, instr.cond, true),
    )
}

/// Whether the words that the word at the address transfers are seen to be of the class.
pub(crate) fn stays_in(class: Class, word: u32, address: u32, before: &Knowledge) -> bool
    ensures { IsTrue result → StaysIn class word address before.now }
{
    match decode(word) {
        Ok(instr) => instr_stays_in(class, &instr, address, before),
        Err(_) => true,
    }
}

// Where the first word is that an instruction transfers, if it is seen to be outside of the class.
fn instr_goes_outside(
    class: Class,
    instr: &Instr,
    address: u32,
    before: &Knowledge,
) -> Option<Range>
    ensures { (word : ℕ) → Means word instr.now
        → IfSome result (WordGoesOutside class word address before.now) }
{
    moves_outside(
        class,
        &instr.operation,
        address,
        &narrowed(before, instr.cond, true),
    )
}

/// Where the first word is that the word at the address transfers, if it is seen to be outside of the class.
pub(crate) fn goes_outside(
    class: Class,
    word: u32,
    address: u32,
    before: &Knowledge,
) -> Option<Range>
    ensures { IfSome result (WordGoesOutside class word address before.now) }
{
    match decode(word) {
        Ok(instr) => instr_goes_outside(class, &instr, address, before),
        Err(_) => None,
    }
}

// Whether an instruction is seen not to be done, or not to be passed over, as the label says.
fn instr_never_goes(instr: &Instr, label: Label, before: &Knowledge) -> bool
    ensures { IsTrue result → (word : ℕ) → Means word instr.now → WordNeverGoes word label before.now }
{
    match label {
        Label::Do => never_holds(&narrowed(before, instr.cond, true)),
        Label::Skip => never_holds(&narrowed(before, instr.cond, false)),
    }
}

/// Whether the word is seen not to be done, or not to be passed over, as the label says.
pub(crate) fn never_goes(word: u32, label: Label, before: &Knowledge) -> bool
    ensures { IsTrue result → WordNeverGoes word label before.now }
{
    match decode(word) {
        Ok(instr) => instr_never_goes(&instr, label, before),
        Err(_) => false,
    }
}
