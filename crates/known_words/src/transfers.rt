ghost use Rattle.std.specs.Prelude.{◌≡◌, ◌&&◌, not, ℕ, List, true, false};
ghost use Rattle.arm2_decode.specs.Names.{is_pc};
ghost use Rattle.arm2_effect.specs.Operands.{current_in};
ghost use Rattle.operation_laws.specs.Leaves.{loads_pc};
ghost use Rattle.known_words.specs.After.{After};
ghost use Rattle.known_words.specs.Known.{IsKnown};
ghost use Rattle.known_words.specs.Knowledge.{Holds};
ghost use Rattle.known_words.specs.Transfers.{AfterSingle, Moves};

use crate::forgetting::{forgotten, learned};
use crate::knowledge::{Knowledge, is_same};
use crate::sums::{added, subtracted};
use crate::words::Known;
use arm2_decode::{Block, Operation, Register, SingleImmediate, SingleRegister, writes_base};

/// What is known of a base that is moved by an offset, up or down.
pub fn moved(up: bool, base: Known, offset: Known) -> Known
    ensures { Moves up base offset result }
{
    if up {
        return added(base, offset);
    }
    match offset {
        Known::Word(_) => subtracted(base, offset),
        _ => Known::Any,
    }
}

/// With what is known of a register, where it is, and other than R15.
pub(crate) fn with_word(
    known: &Knowledge,
    is_known: bool,
    register: Register,
    word: Known,
) -> Knowledge
    ensures { (entry turns now : List ℕ) → Holds entry turns known.now now
        → (is_known ≡ true → is_pc register ≡ false → IsKnown entry turns word (current_in register now))
        → Holds entry turns result now }
{
    if !is_known {
        return *known;
    }
    if register.is_pc() {
        return *known;
    }
    learned(known, register, word)
}

// Whether a transfer leaves the moved base in its register.
fn leaves_base(writes: bool, load: bool, loads_base: bool) -> bool
    ensures { result ≡ (writes && not (load && loads_base)) }
{
    writes && !(load && loads_base)
}

/// The fields of a single transfer but for its offset.
#[derive(Clone, Copy)]
struct Single {
    up: bool,
    byte: bool,
    load: bool,
    writes_base: bool,
    rn: Register,
    rd: Register,
}

fn after_single(
    before: &Knowledge,
    operation: &Operation,
    fields: Single,
    offset: Known,
    address: u32,
) -> Knowledge
    ensures { AfterSingle operation.now fields offset address before.now result }
{
    let kept = forgotten(before, operation);
    let base = before.first_of(8, fields.rn, address);
    let is_moved = leaves_base(
        fields.writes_base,
        fields.load,
        is_same(fields.rd, fields.rn),
    );
    let based = with_word(&kept, is_moved, fields.rn, moved(fields.up, base, offset));
    with_word(
        &based,
        fields.load & fields.byte,
        fields.rd,
        Known::between(0, 0xFF),
    )
}

/// After a load or a store of one word or byte at the address, with the offset in the instruction.
pub(crate) fn after_single_immediate(
    before: &Knowledge,
    x: SingleImmediate,
    address: u32,
) -> Knowledge
    ensures { After (Operation.SingleImmediate x) address before.now result }
{
    let fields = Single {
        up: x.up,
        byte: x.byte,
        load: x.load,
        writes_base: writes_base(x.before, x.write_back),
        rn: x.rn,
        rd: x.rd,
    };
    let offset = Known::exactly(x.offset);
    after_single(
        before,
        &Operation::SingleImmediate(x),
        fields,
        offset,
        address,
    )
}

/// The same with the offset in a register.
pub(crate) fn after_single_register(
    before: &Knowledge,
    x: SingleRegister,
    address: u32,
) -> Knowledge
    ensures { After (Operation.SingleRegister x) address before.now result }
{
    let fields = Single {
        up: x.up,
        byte: x.byte,
        load: x.load,
        writes_base: writes_base(x.before, x.write_back),
        rn: x.rn,
        rd: x.rd,
    };
    let offset = before.shifted_of(x.shift, x.amount, x.rm, address);
    after_single(
        before,
        &Operation::SingleRegister(x),
        fields,
        offset,
        address,
    )
}

/// After a load or a store of a list at the address that restores no other mode.
pub(crate) fn after_block(before: &Knowledge, x: Block, address: u32) -> Knowledge
    requires { (loads_pc x && x.user) ≡ false }
    ensures { After (Operation.Block x) address before.now result }
{
    let kept = forgotten(before, &Operation::Block(x));
    let base = before.first_of(8, x.rn, address);
    let is_moved = leaves_base(x.write_back, x.load, x.is_listed(x.rn));
    let offset = Known::exactly(4 * x.word_count());
    with_word(&kept, is_moved, x.rn, moved(x.up, base, offset))
}
