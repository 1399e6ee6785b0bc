//! Operations that are drawn, each of a row of the word table: none is drawn that the table rules out.

ghost use Rattle.std.specs.Prelude.{◌≡◌, ◌≢◌, ◌<◌, ◌≤◌, ◌^◌, false, true};
ghost use Rattle.arm2_decode.specs.Allowed.{bit_of, data_clash, single_clash};
ghost use Rattle.arm2_decode.specs.Names.{is_pc, opcode_number, register_number};

use crate::draw::Draw;
use arm2_decode::{
    Block, Branch, Coprocessor, CoprocessorTransfer, DataImmediate, DataRegister,
    DataRegisterShift, Multiply, Opcode, Operation, Register, Shift, SingleImmediate,
    SingleRegister, Swi, UndefinedTransfer, writes_base,
};

/// How many rows the word table has.
pub(crate) const ROWS: u32 = 12;

// A register but R15.
fn general(draw: &mut Draw) -> Register
    ensures { is_pc result ≡ false }
{
    Register::of(draw.below(15))
}

// Any register: R15 once in eight.
fn any(draw: &mut Draw) -> Register {
    if draw.below(8) == 0 {
        return Register::R15;
    }
    general(draw)
}

// A register that is neither R15 nor another one.
fn general_but(draw: &mut Draw, other: Register) -> Register
    ensures general { is_pc result ≡ false }
    ensures apart { register_number result ≢ register_number other }
{
    let number = other.number() + 1 + draw.below(14);
    let wrapped = if number < 15 { number } else { number % 15 };
    if wrapped == other.number() {
        // Only where the other one is R15.
        return Register::R0;
    }
    Register::of(wrapped)
}

fn multiply(draw: &mut Draw) -> Multiply {
    let accumulate = draw.bit();
    let rm = general(draw);
    Multiply {
        accumulate,
        sets_flags: draw.bit(),
        rd: general_but(draw, rm),
        rn: if accumulate { general(draw) } else { any(draw) },
        rs: general(draw),
        rm,
    }
}

// An opcode, and whether it sets the flags.
#[derive(Clone, Copy)]
struct Computation {
    opcode: Opcode,
    sets_flags: bool,
    ghost allocated: { data_clash (opcode_number opcode) (bit_of sets_flags) ≡ 0 },
}

// Any opcode: a compare sets the flags.
fn any_computation(draw: &mut Draw) -> Computation {
    let opcode = Opcode::of(draw.below(16));
    Computation {
        opcode,
        sets_flags: opcode.is_compare() || draw.bit(),
    }
}

fn data_register(draw: &mut Draw) -> DataRegister {
    let Computation { opcode, sets_flags } = any_computation(draw);
    DataRegister {
        opcode,
        sets_flags,
        rn: any(draw),
        rd: any(draw),
        amount: draw.below(32),
        shift: Shift::of(draw.below(4)),
        rm: any(draw),
    }
}

fn data_register_shift(draw: &mut Draw) -> DataRegisterShift {
    let Computation { opcode, sets_flags } = any_computation(draw);
    DataRegisterShift {
        opcode,
        sets_flags,
        rn: any(draw),
        rd: any(draw),
        rs: general(draw),
        shift: Shift::of(draw.below(4)),
        rm: any(draw),
    }
}

fn data_immediate(draw: &mut Draw) -> DataImmediate {
    let Computation { opcode, sets_flags } = any_computation(draw);
    DataImmediate {
        opcode,
        sets_flags,
        rn: any(draw),
        rd: any(draw),
        rotation: draw.below(16),
        value: draw.below(256),
    }
}

// P, B, W and L of a single transfer, with its base and the register that is moved.
#[derive(Clone, Copy)]
struct Transfer {
    before: bool,
    byte: bool,
    write_back: bool,
    load: bool,
    rn: Register,
    rd: Register,
    ghost allocated: { single_clash (bit_of before) (bit_of byte) (bit_of write_back) (bit_of load)
        (register_number rn) (register_number rd) ≡ 0 },
}

// Where the base is written back, it is not R15, and no register that is loaded; and a byte is none of R15.
fn any_transfer(draw: &mut Draw) -> Transfer {
    let before = draw.bit();
    let byte = draw.bit();
    let write_back = draw.bit();
    let load = draw.bit();
    if writes_base(before, write_back) {
        let rn = general(draw);
        let rd = if load || byte {
            general_but(draw, rn)
        } else {
            any(draw)
        };
        return Transfer {
            before,
            byte,
            write_back,
            load,
            rn,
            rd,
        };
    }
    Transfer {
        before,
        byte,
        write_back,
        load,
        rn: any(draw),
        rd: if byte { general(draw) } else { any(draw) },
    }
}

// An offset: of a word mostly a multiple of 4.
fn offset(draw: &mut Draw, byte: bool) -> u32
    ensures { result < 2 ^ 12 }
{
    let number = draw.below(0x1000);
    if byte || draw.below(4) == 0 {
        return number;
    }
    number / 4 * 4
}

fn single_immediate(draw: &mut Draw) -> SingleImmediate {
    let x = any_transfer(draw);
    SingleImmediate {
        before: x.before,
        up: draw.bit(),
        byte: x.byte,
        write_back: x.write_back,
        load: x.load,
        rn: x.rn,
        rd: x.rd,
        offset: offset(draw, x.byte),
    }
}

fn single_register(draw: &mut Draw) -> SingleRegister {
    let x = any_transfer(draw);
    SingleRegister {
        before: x.before,
        up: draw.bit(),
        byte: x.byte,
        write_back: x.write_back,
        load: x.load,
        rn: x.rn,
        rd: x.rd,
        amount: draw.below(32),
        shift: Shift::of(draw.below(4)),
        rm: general(draw),
    }
}

// A list of registers: one of them, all, or some.
fn list(draw: &mut Draw) -> u32
    ensures some { 0 < result }
    ensures fits { result < 2 ^ 16 }
{
    match draw.below(8) {
        0 | 1 => 1 << draw.below(16),
        2 => 0xFFFF,
        _ => 1 + draw.below(0xFFFF),
    }
}

fn block(draw: &mut Draw) -> Block {
    Block {
        before: draw.bit(),
        up: draw.bit(),
        user: draw.bit(),
        write_back: draw.bit(),
        load: draw.bit(),
        rn: general(draw),
        list: list(draw),
    }
}

fn branch(draw: &mut Draw) -> Branch {
    Branch {
        link: draw.bit(),
        offset: draw.below(0x100_0000),
    }
}

fn undefined_transfer(draw: &mut Draw) -> UndefinedTransfer {
    UndefinedTransfer {
        high: draw.below(0x10_0000),
        low: draw.below(16),
    }
}

/// An operation of the row of a number, from 0, in the order of the table; from [`ROWS`] on the last one.
pub(crate) fn operation(draw: &mut Draw, row: u32) -> Operation {
    match row {
        0 => Operation::Multiply(multiply(draw)),
        1 => Operation::DataRegister(data_register(draw)),
        2 => Operation::DataRegisterShift(data_register_shift(draw)),
        3 => Operation::DataImmediate(data_immediate(draw)),
        4 => Operation::SingleImmediate(single_immediate(draw)),
        5 => Operation::SingleRegister(single_register(draw)),
        6 => Operation::Block(block(draw)),
        7 => Operation::Branch(branch(draw)),
        8 => Operation::Swi(Swi {
            comment: draw.below(0x100_0000),
        }),
        9 => Operation::UndefinedTransfer(undefined_transfer(draw)),
        10 => Operation::CoprocessorTransfer(CoprocessorTransfer {
            bits: draw.below(0x200_0000),
        }),
        _ => Operation::Coprocessor(Coprocessor {
            bits: draw.below(0x100_0000),
        }),
    }
}
