ghost use Rattle.std.specs.Prelude.{◌≡◌, ◌<◌, ◌^◌};
ghost use Rattle.arm2_decode.specs.Allowed.{bit_of, block_clash, data_clash, data_shift_clash};
ghost use Rattle.arm2_decode.specs.Allowed.{multiply_clash, single_clash, single_register_clash};
ghost use Rattle.arm2_decode.specs.Names.{opcode_number, register_number};

use crate::names::{Cond, Opcode, Register, Shift};

/// A multiply: rd = rm * rs, plus rn where it accumulates.
///
/// Rd is not Rm, and R15 is neither Rd, Rm nor Rs, nor the Rn of one that accumulates.
#[derive(Clone, Copy, Debug, PartialEq, Eq)]
pub struct Multiply {
    /// Whether rn is added (MLA); bit 21.
    pub accumulate: bool,
    /// Whether N and Z are set; bit 20.
    pub sets_flags: bool,
    /// Bits 19 to 16.
    pub rd: Register,
    /// Bits 15 to 12, without effect in MUL.
    pub rn: Register,
    /// The multiplier, bits 11 to 8.
    pub rs: Register,
    /// Bits 3 to 0.
    pub rm: Register,
    ghost allocated: { multiply_clash (bit_of accumulate) (register_number rd) (register_number rn)
        (register_number rs) (register_number rm) ≡ 0 },
}

/// Data processing with a register that is shifted by an amount in the word.
///
/// A compare sets the flags.
#[derive(Clone, Copy, Debug, PartialEq, Eq)]
pub struct DataRegister {
    /// Bits 24 to 21.
    pub opcode: Opcode,
    /// Bit 20.
    pub sets_flags: bool,
    /// Bits 19 to 16.
    pub rn: Register,
    /// Bits 15 to 12.
    pub rd: Register,
    /// The shift amount, from 0 to 31; bits 11 to 7.
    pub amount: u32,
    /// Bits 6 to 5.
    pub shift: Shift,
    /// Bits 3 to 0.
    pub rm: Register,
    ghost allocated: { data_clash (opcode_number opcode) (bit_of sets_flags) ≡ 0 },
    ghost amount_fits: { amount < 2 ^ 5 },
}

/// Data processing with a register that is shifted by an amount in a register.
///
/// A compare sets the flags, and R15 is not Rs.
#[derive(Clone, Copy, Debug, PartialEq, Eq)]
pub struct DataRegisterShift {
    /// Bits 24 to 21.
    pub opcode: Opcode,
    /// Bit 20.
    pub sets_flags: bool,
    /// Bits 19 to 16.
    pub rn: Register,
    /// Bits 15 to 12.
    pub rd: Register,
    /// The register whose low byte is the amount, bits 11 to 8.
    pub rs: Register,
    /// Bits 6 to 5.
    pub shift: Shift,
    /// Bits 3 to 0.
    pub rm: Register,
    ghost allocated: { data_shift_clash (opcode_number opcode) (bit_of sets_flags) (register_number rs) ≡ 0 },
}

/// Data processing with a byte that is rotated right.
///
/// A compare sets the flags.
#[derive(Clone, Copy, Debug, PartialEq, Eq)]
pub struct DataImmediate {
    /// Bits 24 to 21.
    pub opcode: Opcode,
    /// Bit 20.
    pub sets_flags: bool,
    /// Bits 19 to 16.
    pub rn: Register,
    /// Bits 15 to 12.
    pub rd: Register,
    /// Half the places of the rotation, from 0 to 15; bits 11 to 8.
    pub rotation: u32,
    /// The byte, from 0 to 255; bits 7 to 0.
    pub value: u32,
    ghost allocated: { data_clash (opcode_number opcode) (bit_of sets_flags) ≡ 0 },
    ghost rotation_fits: { rotation < 2 ^ 4 },
    ghost value_fits: { value < 2 ^ 8 },
}

/// A load or a store of one word or byte, at an offset in the word.
///
/// R15 is no base that is written back and no byte is loaded to or stored from it; no load writes
/// back the base that it loads.
#[derive(Clone, Copy, Debug, PartialEq, Eq)]
pub struct SingleImmediate {
    /// P: whether the offset is added before the access; bit 24.
    pub before: bool,
    /// U: whether the offset is added, not subtracted; bit 23.
    pub up: bool,
    /// B: a byte, not a word; bit 22.
    pub byte: bool,
    /// W: bit 21. After the access (P = 0) the base is written in any case, and W makes a User access.
    pub write_back: bool,
    /// L: a load, not a store; bit 20.
    pub load: bool,
    /// The base, bits 19 to 16.
    pub rn: Register,
    /// Bits 15 to 12.
    pub rd: Register,
    /// In bytes, from 0 to 4095; bits 11 to 0.
    pub offset: u32,
    ghost allocated: { single_clash (bit_of before) (bit_of byte) (bit_of write_back) (bit_of load)
        (register_number rn) (register_number rd) ≡ 0 },
    ghost offset_fits: { offset < 2 ^ 12 },
}

/// A load or a store of one word or byte, at an offset in a register that is shifted.
///
/// As [`SingleImmediate`], and R15 is not Rm.
#[derive(Clone, Copy, Debug, PartialEq, Eq)]
pub struct SingleRegister {
    /// P, bit 24.
    pub before: bool,
    /// U, bit 23.
    pub up: bool,
    /// B, bit 22.
    pub byte: bool,
    /// W, bit 21.
    pub write_back: bool,
    /// L, bit 20.
    pub load: bool,
    /// The base, bits 19 to 16.
    pub rn: Register,
    /// Bits 15 to 12.
    pub rd: Register,
    /// The shift amount, from 0 to 31; bits 11 to 7.
    pub amount: u32,
    /// Bits 6 to 5.
    pub shift: Shift,
    /// The offset in bytes before the shift, bits 3 to 0.
    pub rm: Register,
    ghost allocated: { single_register_clash (bit_of before) (bit_of byte) (bit_of write_back) (bit_of load)
        (register_number rn) (register_number rd) (register_number rm)
        ≡ 0 },
    ghost amount_fits: { amount < 2 ^ 5 },
}

/// A load or a store of the registers of a list.
///
/// R15 is not the base, and the list is not empty.
#[derive(Clone, Copy, Debug, PartialEq, Eq)]
pub struct Block {
    /// P: whether the address moves before each word; bit 24.
    pub before: bool,
    /// U: upwards from the base, not downwards; bit 23.
    pub up: bool,
    /// S: User registers, or the PSR with a load of R15; bit 22.
    pub user: bool,
    /// W, bit 21.
    pub write_back: bool,
    /// L: a load, not a store; bit 20.
    pub load: bool,
    /// The base, bits 19 to 16.
    pub rn: Register,
    /// Bit n stands for register n: from 1 to 65535; bits 15 to 0.
    pub list: u32,
    ghost allocated: { block_clash (register_number rn) list ≡ 0 },
    ghost list_fits: { list < 2 ^ 16 },
}

/// A branch by a signed number of words from the address two words on.
#[derive(Clone, Copy, Debug, PartialEq, Eq)]
pub struct Branch {
    /// Whether R14 keeps the return address (BL); bit 24.
    pub link: bool,
    /// In words, as 24 bits of two's complement: from 0 to 2^24 - 1; bits 23 to 0.
    pub offset: u32,
    ghost offset_fits: { offset < 2 ^ 24 },
}

/// A software interrupt.
#[derive(Clone, Copy, Debug, PartialEq, Eq)]
pub struct Swi {
    /// Of no effect on the processor, from 0 to 2^24 - 1; bits 23 to 0.
    pub comment: u32,
    ghost comment_fits: { comment < 2 ^ 24 },
}

/// An undefined word among the single transfers with a register: bit 4 is set.
#[derive(Clone, Copy, Debug, PartialEq, Eq)]
pub struct UndefinedTransfer {
    /// From 0 to 2^20 - 1; bits 24 to 5.
    pub high: u32,
    /// From 0 to 15; bits 3 to 0.
    pub low: u32,
    ghost high_fits: { high < 2 ^ 20 },
    ghost low_fits: { low < 2 ^ 4 },
}

/// A transfer of a coprocessor, which is not fitted: undefined.
#[derive(Clone, Copy, Debug, PartialEq, Eq)]
pub struct CoprocessorTransfer {
    /// From 0 to 2^25 - 1; bits 24 to 0.
    pub bits: u32,
    ghost bits_fits: { bits < 2 ^ 25 },
}

/// Any other word of a coprocessor, which is not fitted: undefined.
#[derive(Clone, Copy, Debug, PartialEq, Eq)]
pub struct Coprocessor {
    /// From 0 to 2^24 - 1; bits 23 to 0.
    pub bits: u32,
    ghost bits_fits: { bits < 2 ^ 24 },
}

/// What an instruction does: one variant for each row of the word table, with all fields of the
/// word, also those without effect.
#[derive(Clone, Copy, Debug, PartialEq, Eq)]
pub enum Operation {
    Multiply(Multiply),
    DataRegister(DataRegister),
    DataRegisterShift(DataRegisterShift),
    DataImmediate(DataImmediate),
    SingleImmediate(SingleImmediate),
    SingleRegister(SingleRegister),
    Block(Block),
    Branch(Branch),
    Swi(Swi),
    UndefinedTransfer(UndefinedTransfer),
    CoprocessorTransfer(CoprocessorTransfer),
    Coprocessor(Coprocessor),
}

/// A word, taken apart. There is none for an unallocated word: each row's struct keeps the facts
/// that rule one out.
#[derive(Clone, Copy, Debug, PartialEq, Eq)]
pub struct Instr {
    pub cond: Cond,
    pub operation: Operation,
}

/// Why a word is no instruction.
#[derive(Clone, Copy, Debug, PartialEq, Eq)]
pub struct Unallocated {
    /// The word's condition: where it fails, the word is passed over like any other.
    pub cond: Cond,
    /// The lowest number that holds of the word, from 1 to 10, by the names below.
    pub why: u32,
}

/// The numbers of the reasons.
impl Unallocated {
    /// A compare (TST, TEQ, CMP, CMN) that does not set the flags.
    pub const COMPARE_WITHOUT_FLAGS: u32 = 1;
    /// Bits 27 to 25 clear with bits 7 and 4 set, and not a multiply.
    pub const NO_MULTIPLY: u32 = 2;
    /// A multiply that names R15 in a field that it uses, or one register as Rd and Rm.
    pub const MULTIPLY_REGISTERS: u32 = 3;
    /// A shift amount in R15.
    pub const AMOUNT_IN_R15: u32 = 4;
    /// An offset in R15.
    pub const OFFSET_IN_R15: u32 = 5;
    /// A single transfer whose base R15 is written back.
    pub const R15_WRITTEN_BACK: u32 = 6;
    /// A block transfer with base R15.
    pub const BLOCK_BASE_R15: u32 = 7;
    /// A block transfer with an empty list.
    pub const EMPTY_LIST: u32 = 8;
    /// A single transfer that loads its base and writes it back.
    pub const BASE_LOADED: u32 = 9;
    /// A byte transfer of R15.
    pub const BYTE_OF_R15: u32 = 10;
}
