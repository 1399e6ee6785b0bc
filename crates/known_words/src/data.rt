ghost use Rattle.std.specs.Prelude.{◌≡◌, ◌&&◌, ℕ, List, true, false};
ghost use Rattle.arm2_decode.specs.Names.{is_compare, is_pc};
ghost use Rattle.arm2_decode.specs.declared.flags.Flags.{Flags};
ghost use Rattle.known_words.specs.Entering.{AfterData, Compares, Enters, SetsSigns};
ghost use Rattle.known_words.specs.Known.{IsKnown};
ghost use Rattle.known_words.specs.Knowledge.{Holds};

use crate::knowledge::{Compared, Knowledge};
use crate::values::computed;
use crate::words::Known;
use arm2_decode::{Opcode, Register};

/// The fields of data processing without its second operand.
#[derive(Clone, Copy)]
pub(crate) struct Data {
    pub opcode: Opcode,
    pub sets_flags: bool,
    pub rn: Register,
    pub rd: Register,
    /// How far ahead R15 is as the first operand.
    pub bytes: u32,
}

/// Once a word has entered a register other than R15, which may have set the flags.
pub(crate) fn after_result(
    before: &Knowledge,
    sets_flags: bool,
    rd: Register,
    known: Known,
) -> Knowledge
    requires { is_pc rd ≡ false }
    ensures { (entry turns regs after : List ℕ) → (word : ℕ) → IsKnown entry turns known word
        → Enters rd word regs after → SetsSigns sets_flags word regs after
        → Holds entry turns before.now regs → Holds entry turns result after }
{
    let entered = before.entered(rd, known);
    if sets_flags {
        return entered.with_flags(Compared::Of(rd));
    }
    entered
}

fn compared(opcode: Opcode, rn: Register, operand: Known) -> Compared
    ensures { Compares opcode rn operand result }
{
    if rn.is_pc() {
        return Compared::Nothing;
    }
    let Some(number) = operand.exact() else {
        return Compared::Nothing;
    };
    match opcode {
        Opcode::Cmp => Compared::Less(rn, number),
        Opcode::Teq if number == 0 => Compared::Of(rn),
        _ => Compared::Nothing,
    }
}

fn after_compare(before: &Knowledge, fields: Data, operand: Known, address: u32) -> Knowledge
    requires compares { is_compare fields.opcode ≡ true }
    requires stays { (fields.sets_flags && is_pc fields.rd) ≡ false }
    ensures { AfterData fields operand address before.now result }
{
    let _ = address;
    if fields.sets_flags {
        return before.with_flags(compared(fields.opcode, fields.rn, operand));
    }
    *before
}

fn after_jump(before: &Knowledge, fields: Data, operand: Known, address: u32) -> Knowledge
    requires jumps { is_pc fields.rd ≡ true }
    requires stays { fields.sets_flags ≡ false }
    ensures { AfterData fields operand address before.now result }
{
    let _ = (fields, operand, address);
    *before
}

/// After data processing at the address that restores no other mode.
pub(crate) fn after_data(
    before: &Knowledge,
    fields: Data,
    operand: Known,
    address: u32,
) -> Knowledge
    requires { (fields.sets_flags && is_pc fields.rd) ≡ false }
    ensures { AfterData fields operand address before.now result }
{
    if fields.opcode.is_compare() {
        return after_compare(before, fields, operand, address);
    }
    if fields.rd.is_pc() {
        return after_jump(before, fields, operand, address);
    }
    let first = before.first_of(fields.bytes, fields.rn, address);
    let known = computed(fields.opcode, first, operand);
    after_result(before, fields.sets_flags, fields.rd, known)
}
