//! How a machine is set so that one word costs the most that it can, and leads where its edge does.

ghost use Rattle.std.specs.Prelude.{◌≡◌, ◌≤◌, ◌<◌, ◌%◌, Bool, IsTrue, true};
ghost use Rattle.arm2_decode.specs.declared.flags.Flags.{Flags};
ghost use Rattle.arm2_decode.specs.declared.instr.Operation.{Operation};
ghost use Rattle.arm2_effect.specs.Outcomes.{outcome_of};
ghost use Rattle.arm2_transfer.specs.Block.{lowest_of};
ghost use Rattle.arm2_transfer.specs.Single.{address_for, of_immediate};
ghost use Rattle.memc.specs.declared.pages.TheConstants.{PHYSICAL_PAGES};
ghost use Rattle.shifter.specs.declared.shifts.TheConstants.{MOST_MULTIPLY_CYCLES};
ghost use Rattle.control_flow.specs.Free.{adds_an_immediate, is_free_operation};
ghost use Rattle.flow_graph.specs.Setting.{MayStart, Sets, of_register, rotated, transfer_setting};

use arm2_decode::{Block, DataImmediate, Opcode, Operation, Register, SingleImmediate};
use arm2_transfer::address_by;
use bus_ticks::{
    Class, FAST_START, IO_START, MEDIUM_START, PHYSICAL_START, Profile, ROM_START,
    SYNCHRONOUS_START, dearest_device, dearest_ram_start, word_address,
};
use image::PAGE_BYTES;
use shifter::{multiplier_of, rotate_imm};

// Where the words of a load from ROM are, in bytes: at ROM's end, or before that where the load itself is
// there.
const ROM_DATA: u32 = 0x3FF_FF00;

const OTHER_ROM_DATA: u32 = 0x3FF_FE00;

/// What a word is asked: to cost the most, and to lead to an address.
#[derive(Clone, Copy)]
pub(crate) struct Aim {
    pub(crate) profile: Profile,
    /// The class that is stated for the words that it transfers.
    pub(crate) class: Class,
    /// The most cycles that are stated of it if it multiplies, 1 to 16.
    pub(crate) cycles: u32,
    /// Its address, in bytes.
    pub(crate) address: u32,
    /// Where it is to lead, in bytes.
    pub(crate) target: u32,
    /// A physical page of 32 KB that has no words, by number.
    pub(crate) spare: u32,
}

/// A register and the word in it.
#[derive(Clone, Copy)]
pub(crate) struct Held {
    pub(crate) register: Register,
    pub(crate) word: u32,
}

/// What a machine has besides the word that it executes.
#[derive(Clone, Copy)]
pub(crate) struct Setting {
    /// The one register other than R15 that matters, if one does.
    pub(crate) register: Option<Held>,
    /// The word that a load among the devices reads.
    pub(crate) port: u32,
    /// A word in memory, with its address in front, if one matters.
    pub(crate) word: Option<(u32, u32)>,
}

/// No register or word is set, and the port is 0.
pub(crate) const NOTHING: Setting = Setting {
    register: None,
    port: 0,
    word: None,
};

fn of_register(register: Register, word: u32) -> Setting
    ensures { result ≡ of_register (record { register = register; word = word }) }
{
    Setting {
        register: Some(Held { register, word }),
        ..NOTHING
    }
}

// The address of the dearest transfer's first word.
fn start(aim: &Aim, load: bool, words: u32) -> u32
    requires some { 1 ≤ words }
    requires few { words ≤ 16 }
    requires spare { aim.now.spare < PHYSICAL_PAGES }
    ensures { MayStart aim.now load words result }
{
    match aim.class {
        Class::Ram => PHYSICAL_START + aim.spare * PAGE_BYTES + dearest_ram_start(),
        Class::Io => dearest_device(&aim.profile),
        Class::Any => dearest_device(&aim.profile),
        Class::Slow => IO_START,
        Class::Medium => MEDIUM_START,
        Class::Fast => FAST_START,
        Class::Synchronous => SYNCHRONOUS_START,
        Class::Rom if !load => ROM_START,
        Class::Rom if aim.address < ROM_DATA => ROM_DATA,
        Class::Rom => OTHER_ROM_DATA,
    }
}

// The base by which the transfer's word is at the address.
fn base_of_single(x: &SingleImmediate, address: u32) -> u32
    ensures { address_for (of_immediate x.now) result ≡ address }
{
    address_by(x.before, !x.up, address, x.offset)
}

// The base by which the block's lowest word is at the address.
fn base_of_block(x: &Block, address: u32, words: u32) -> u32
    requires whole { address % 4 ≡ 0 }
    requires some { 1 ≤ words }
    requires few { words ≤ 16 }
    ensures { lowest_of x.now result words ≡ address }
{
    match (x.up, x.before) {
        (true, false) => address,
        (true, true) => address.wrapping_sub(4),
        (false, false) => address.wrapping_add(4 * words - 4),
        (false, true) => address.wrapping_add(4 * words),
    }
}

// A transfer from its base; where it loads R15, its last word is the target.
fn transfer_setting(aim: &Aim, base: Held, loads_pc: bool, last: u32) -> Setting
    ensures { result ≡ transfer_setting aim.now base loads_pc last }
{
    let found = of_register(base.register, base.word);
    if !loads_pc {
        return found;
    }
    match aim.class {
        Class::Io | Class::Any | Class::Slow | Class::Medium | Class::Fast | Class::Synchronous =>
            Setting {
                port: aim.target,
                ..found
            },
        Class::Ram | Class::Rom => Setting {
            word: Some((last, aim.target)),
            ..found
        },
    }
}

fn of_single(aim: &Aim, x: &SingleImmediate) -> Setting
    requires free { IsTrue (is_free_operation (Operation.SingleImmediate x.now)) }
    requires spare { aim.now.spare < PHYSICAL_PAGES }
    ensures { Sets aim.now (Operation.SingleImmediate x.now) result }
{
    let first = start(aim, x.load, 1);
    let base = Held {
        register: x.rn,
        word: base_of_single(x, first),
    };
    transfer_setting(aim, base, x.load & x.rd.is_pc(), first)
}

fn of_block(aim: &Aim, x: &Block) -> Setting
    requires spare { aim.now.spare < PHYSICAL_PAGES }
    ensures { Sets aim.now (Operation.Block x.now) result }
{
    let words = x.word_count();
    let first = start(aim, x.load, words);
    let base = Held {
        register: x.rn,
        word: base_of_block(x, first, words),
    };
    let last = word_address(first, words - 1);
    transfer_setting(aim, base, x.load & x.is_listed(Register::R15), last)
}

// The word in Rn by which the sum or the difference is the target.
fn addend(x: &DataImmediate, target: u32) -> u32
    requires { adds_an_immediate x.now ≡ true }
    ensures { (flags : Flags) → (carry : Bool)
        → (outcome_of x.now.opcode result (rotated x.now carry) flags).value ≡ target }
{
    let operand = rotate_imm(x.value, x.rotation, false).value;
    if x.opcode == Opcode::Add {
        target.wrapping_sub(operand)
    } else {
        target.wrapping_add(operand)
    }
}

/// What a machine has so that the operation costs the most that it can at its address by what is stated, and
/// leads to the target where it writes R15.
pub(crate) fn setting_for(aim: &Aim, operation: &Operation) -> Setting
    requires free { IsTrue (is_free_operation operation.now) }
    requires spare { aim.now.spare < PHYSICAL_PAGES }
    requires some { 1 ≤ aim.now.cycles }
    requires few { aim.now.cycles ≤ MOST_MULTIPLY_CYCLES }
    ensures { Sets aim.now operation.now result }
{
    match operation {
        Operation::Multiply(x) => of_register(x.rs, multiplier_of(aim.cycles)),
        Operation::DataRegister(x) if operation.writes_pc() => of_register(x.rm, aim.target),
        Operation::DataImmediate(x) if operation.writes_pc() => {
            of_register(x.rn, addend(x, aim.target))
        }
        Operation::SingleImmediate(x) => of_single(aim, x),
        Operation::Block(x) => of_block(aim, x),
        Operation::DataRegister(_)
        | Operation::DataRegisterShift(_)
        | Operation::DataImmediate(_)
        | Operation::SingleRegister(_)
        | Operation::Branch(_)
        | Operation::Swi(_)
        | Operation::UndefinedTransfer(_)
        | Operation::CoprocessorTransfer(_)
        | Operation::Coprocessor(_) => NOTHING,
    }
}
