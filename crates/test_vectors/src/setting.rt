//! The state before a vector's step.

ghost use Rattle.std.specs.Prelude.{◌<◌};
ghost use Rattle.bus_ticks.specs.declared.space.TheConstants.{SPACE_END};

use crate::draw::Draw;
use crate::operations::{ROWS, operation};
use arm2_decode::{Cond, Flags, Instr, Operation, Register, encode, holds};
use arm2_effect::{Mode, Reg, r15_of, slot_of};
use arm2_exec::Machine;
use bus_ticks::{PHYSICAL_START, SPACE_END, ahead_of};
use json_trace::{Transfers, Words, planned};
use memc::Spot;

/// How much RAM there is from address 0 on, in bytes, with pages of 32 KB.
const RAM_BYTES: u32 = 0x40_0000;

/// The most words of an address's neighbours that a transfer may reach, in bytes.
const MARGIN: u32 = 0x2000;

const REGISTERS: [Reg; 27] = [
    Reg::R0,
    Reg::R1,
    Reg::R2,
    Reg::R3,
    Reg::R4,
    Reg::R5,
    Reg::R6,
    Reg::R7,
    Reg::R8,
    Reg::R9,
    Reg::R10,
    Reg::R11,
    Reg::R12,
    Reg::R13,
    Reg::R14,
    Reg::R8Fiq,
    Reg::R9Fiq,
    Reg::R10Fiq,
    Reg::R11Fiq,
    Reg::R12Fiq,
    Reg::R13Fiq,
    Reg::R14Fiq,
    Reg::R13Irq,
    Reg::R14Irq,
    Reg::R13Svc,
    Reg::R14Svc,
    Reg::R15,
];

// Puts a word into RAM; at an address that has none nothing happens.
fn put_word(machine: &mut Machine, address: u32, word: u32)
    requires { address < SPACE_END }
{
    if let Ok(spot @ Spot::Ram(_)) = machine.memc().locate(address, false, true) {
        machine.memc_mut().store(spot, word);
    }
}

// An address in RAM, with room around it.
fn near(draw: &mut Draw) -> u32
    ensures { result < 0x400000 }
{
    MARGIN + draw.below(RAM_BYTES - 2 * MARGIN)
}

// A word of a register: often one at a limit, a small one, or an address in RAM.
fn register_word(draw: &mut Draw) -> u32 {
    match draw.below(16) {
        0 => 0,
        1 => 1,
        2 => 0x7FFF_FFFF,
        3 => 0x8000_0000,
        4 => 0xFFFF_FFFF,
        5 | 6 | 7 => draw.below(0x100),
        8 | 9 => near(draw),
        _ => draw.word(),
    }
}

// A base: in RAM, or now and then where no page is, or past all memory; mostly a multiple of 4.
fn base_word(draw: &mut Draw) -> u32 {
    let start = match draw.below(16) {
        0 => 2 * RAM_BYTES,
        1 => SPACE_END,
        _ => 0,
    };
    let lane = if draw.below(4) == 0 { draw.below(4) } else { 0 };
    start + near(draw) / 4 * 4 + lane
}

// The mode of a number below 4.
fn mode_of_number(number: u32) -> Mode {
    match number {
        0 => Mode::User,
        1 => Mode::Fiq,
        2 => Mode::Irq,
        _ => Mode::Svc,
    }
}

fn flags_of_number(number: u32) -> Flags {
    Flags {
        negative: number / 8 % 2 == 1,
        zero: number / 4 % 2 == 1,
        carry: number / 2 % 2 == 1,
        overflow: number % 2 == 1,
    }
}

// The first flags from those of a number on by which the condition holds, or fails, as is wanted.
fn flags_for(cond: Cond, wanted: bool, first: u32) -> u32
    requires { first < 16 }
    ensures { result < 16 }
{
    for step in 0..16 {
        let number = (first + step) % 16;
        if holds(cond, flags_of_number(number)) == wanted {
            return number;
        }
    }
    first
}

// A condition that holds by some flags, or fails by some.
fn condition(draw: &mut Draw, wanted: bool) -> Cond {
    let number = draw.below(15);
    if !wanted && number == 14 {
        return Cond::Nv;
    }
    Cond::of(number)
}

// The base of a load or a store.
fn base_of(operation: &Operation) -> Option<Register> {
    match operation {
        Operation::SingleImmediate(x) => Some(x.rn),
        Operation::SingleRegister(x) => Some(x.rn),
        Operation::Block(x) => Some(x.rn),
        _ => None,
    }
}

fn put_registers(machine: &mut Machine, words: &Words) {
    for k in 0..27 {
        machine.set(REGISTERS[k], words[k]);
    }
}

// Whether words reach past logical RAM, to where the devices are.
fn is_outside(words: Option<Transfers>) -> bool {
    match words {
        Some(words) => words.address >= PHYSICAL_START - 64,
        None => false,
    }
}

// Where the instruction that is next would move words among the devices, its offset becomes 0: then they are
// where its base is.
fn keep_in_ram(machine: &mut Machine, words: &mut Words, operation: &Operation, mode: Mode) {
    if let Operation::SingleRegister(x) = operation {
        if is_outside(planned(machine)) {
            words[slot_of(mode, x.rm)] = 0;
            put_registers(machine, words);
        }
    }
}

// The address of a word of a transfer.
fn place(words: Transfers, k: u32) -> u32
    ensures { result < SPACE_END }
{
    ((u64::from(words.address) + 4 * u64::from(k)) % u64::from(SPACE_END)) as u32
}

// Draws the words that the next instruction may load, or store over.
fn fill(machine: &mut Machine, words: Option<Transfers>, draw: &mut Draw) {
    if let Some(words) = words {
        for k in 0..words.words {
            put_word(machine, place(words, k), draw.word());
        }
    }
}

/// The words of memory that a vector has drawn.
#[derive(Clone, Copy)]
pub(crate) struct Drawn {
    at: u32,
    moved: Option<Transfers>,
    ghost below: { at < SPACE_END },
}

/// Makes the words that were drawn 0 again, so that no vector depends on those before it.
pub(crate) fn clear(machine: &mut Machine, drawn: Drawn) {
    if let Some(words) = drawn.moved {
        for k in 0..words.words {
            put_word(machine, place(words, k), 0);
        }
    }
    put_word(machine, drawn.at, 0);
    put_word(machine, ahead_of(drawn.at, 8), 0);
}

// Draws the instruction of a vector. Its row is the vector's number modulo their count, and of those of one
// row each fourth fails its condition.
fn instruction(draw: &mut Draw, number: u32) -> Instr {
    let wanted = is_wanted(number);
    Instr {
        cond: condition(draw, wanted),
        operation: operation(draw, number % ROWS),
    }
}

// Whether the condition of a vector is to hold.
fn is_wanted(number: u32) -> bool {
    number / (4 * ROWS) % 4 != 3
}

// R15 of a vector: of those of one row the modes follow one another.
fn program_counter(draw: &mut Draw, number: u32, cond: Cond) -> (Mode, u32) {
    let mode = mode_of_number(number / ROWS % 4);
    let first = draw.below(16);
    let flags = flags_for(cond, is_wanted(number), first);
    let psr = 4 * flags + draw.below(4);
    (mode, r15_of(psr, near(draw) / 4 * 4, mode))
}

fn register_words(draw: &mut Draw) -> Words {
    let mut words = [0; 27];
    for k in 0..27 {
        words[k] = register_word(draw);
    }
    words
}

/// Brings a machine into the state before a vector's step: all registers, the instruction at the address in
/// R15, the word that is fetched ahead, and the words that the instruction moves. Every other word of memory
/// stays.
pub(crate) fn set_up(machine: &mut Machine, seed: u32, number: u32) -> Drawn {
    let mut draw = Draw::new(seed, number);
    let instr = instruction(&mut draw, number);
    let (mode, r15) = program_counter(&mut draw, number, instr.cond);
    let mut words = register_words(&mut draw);
    if let Some(rn) = base_of(&instr.operation) {
        words[slot_of(mode, rn)] = base_word(&mut draw);
    }
    words[26] = r15;
    put_registers(machine, &words);
    let at = machine.address();
    let word = encode(&instr);
    put_word(machine, at, word);
    keep_in_ram(machine, &mut words, &instr.operation, mode);
    let moved = planned(machine);
    fill(machine, moved, &mut draw);
    put_word(machine, ahead_of(at, 8), draw.word());
    put_word(machine, at, word);
    Drawn { at, moved }
}
