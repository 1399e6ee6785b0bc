ghost use Rattle.std.specs.Prelude.{◌≡◌};
ghost use Rattle.text_draft.specs.Candidates.{immediate};

use crate::found_loop::FoundLoop;
use crate::reach::Reached;
use crate::ways::before;
use crate::word_actions::{action_at, may_change};
use arm2_decode::{Cond, DataImmediate, Opcode, Operation, Register};
use control_flow::Kind;
use image::Image;
use statement::MOST_ROUNDS;
use word_shapes::instr_at;

// How many words before a loop are looked at for the one that sets its counter.
const WORDS_BEFORE: u32 = 16;

/// The number of an immediate operand.
pub(crate) fn immediate(x: &DataImmediate) -> u32
    ensures { result ≡ immediate x.now }
{
    x.value.rotate_right(2 * x.rotation)
}

// The always done instruction of an immediate operand at an address.
fn immediate_at(image: &Image, at: u32) -> Option<DataImmediate> {
    let instr = instr_at(image, at)?;
    let Operation::DataImmediate(x) = instr.operation else {
        return None;
    };
    instr.cond.is_always().then_some(x)
}

// The register that the word at an address counts down by 1, with the flags set.
fn counter_at(image: &Image, at: u32) -> Option<Register> {
    let x = immediate_at(image, at)?;
    let counts = x.opcode == Opcode::Sub && x.sets_flags && x.rd == x.rn && immediate(&x) == 1;
    counts.then_some(x.rd)
}

fn is_branch_if_not_zero(image: &Image, at: u32) -> bool {
    match action_at(image, at) {
        Some(action) => action.cond == Cond::Ne && matches!(action.kind, Kind::Branch(_)),
        None => false,
    }
}

fn may_write(image: &Image, at: u32, register: Register) -> bool {
    match instr_at(image, at) {
        Some(instr) => may_change(image, at, &instr, register),
        None => true,
    }
}

// The number that a register has where control reaches an address straight on.
fn set_before(image: &Image, reach: &Reached, at: u32, register: Register) -> Option<u32> {
    let mut at = at;
    for _ in 0..WORDS_BEFORE {
        if may_write(image, at, register) {
            let x = immediate_at(image, at)?;
            let sets = x.opcode == Opcode::Mov && x.rd == register;
            return sets.then_some(immediate(&x));
        }
        if !reach.follows_alone(at, before(at)) {
            return None;
        }
        at = before(at);
    }
    None
}

// Whether a header is reached from the word before it and by one step back alone.
fn is_entered_from_before(reach: &Reached, header: u32, back: u32) -> bool {
    match reach.into(header) {
        [(_, one), (_, other)] => {
            !reach.is_root(header) && *one == before(header) && *other == back
        }
        _ => false,
    }
}

// Whether the step back ends the loop and is taken while the word before it has not counted down to 0.
fn ends_at_zero(image: &Image, reach: &Reached, found: &FoundLoop, back: u32) -> bool {
    back == found.last
        && is_branch_if_not_zero(image, back)
        && reach.follows_alone(back, before(back))
        && found.first <= before(back)
}

// Whether a word of the loop other than the one that counts may write the register.
fn is_written_elsewhere(
    image: &Image,
    reach: &Reached,
    found: &FoundLoop,
    count: u32,
    register: Register,
) -> bool {
    for at in &reach.addresses {
        if found.holds(*at) && *at != count && may_write(image, *at, register) {
            return true;
        }
    }
    false
}

// How often a loop turns back whose counter begins with a number.
fn turns_of(n: u32) -> Option<u32> {
    if 1 <= n && n <= MOST_ROUNDS {
        Some(n - 1)
    } else {
        None
    }
}

/// How often a loop turns back, where the words show it: a register is set to n before, counted down by 1 in
/// front of the branch back that ends the loop, and written by nothing else in it, and the loop calls
/// nothing.
pub(crate) fn turns_back(
    image: &Image,
    reach: &Reached,
    found: &FoundLoop,
    backs: &[(u32, u32)],
) -> Option<u32> {
    let [(_, back)] = backs else {
        return None;
    };
    let count = before(*back);
    let register = counter_at(image, count)?;
    if !ends_at_zero(image, reach, found, *back) {
        return None;
    }
    if !is_entered_from_before(reach, found.header, *back) {
        return None;
    }
    if is_written_elsewhere(image, reach, found, count, register) {
        return None;
    }
    turns_of(set_before(image, reach, before(found.header), register)?)
}
