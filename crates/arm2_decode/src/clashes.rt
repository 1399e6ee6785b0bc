//! Which fields make no instruction: the number of the first bar that they meet, as `Unallocated::why` has
//! it, or 0.

ghost use Rattle.std.specs.Prelude.{◌≡◌};
ghost use Rattle.arm2_decode.specs.Allowed.{bit_of, block_clash, data_clash, data_shift_clash};
ghost use Rattle.arm2_decode.specs.Allowed.{is_bad_compare, multiply_clash, single_clash};
ghost use Rattle.arm2_decode.specs.Allowed.{single_register_clash};

use crate::instr::Unallocated;
use crate::names::{is_compare_number, is_pc_number};
use crate::transfers::writes_base;

fn is_bad_compare(opcode: u32, sets_flags: bool) -> bool
    ensures { result ≡ is_bad_compare opcode (bit_of sets_flags) }
{
    is_compare_number(opcode) && !sets_flags
}

/// Of data processing, by its opcode's number: 0 or 1.
pub fn data_clash(opcode: u32, sets_flags: bool) -> u32
    ensures { result ≡ data_clash opcode (bit_of sets_flags) }
{
    if is_bad_compare(opcode, sets_flags) {
        Unallocated::COMPARE_WITHOUT_FLAGS
    } else {
        0
    }
}

/// Of data processing whose shift amount is in the register `rs`: 0, 1 or 4.
pub fn data_shift_clash(opcode: u32, sets_flags: bool, rs: u32) -> u32
    ensures { result ≡ data_shift_clash opcode (bit_of sets_flags) rs }
{
    if is_bad_compare(opcode, sets_flags) {
        Unallocated::COMPARE_WITHOUT_FLAGS
    } else if is_pc_number(rs) {
        Unallocated::AMOUNT_IN_R15
    } else {
        0
    }
}

/// Of a multiply, by its registers' numbers: 0 or 3.
pub fn multiply_clash(accumulate: bool, rd: u32, rn: u32, rs: u32, rm: u32) -> u32
    ensures { result ≡ multiply_clash (bit_of accumulate) rd rn rs rm }
{
    if rd == rm
        || is_pc_number(rd)
        || is_pc_number(rm)
        || is_pc_number(rs)
        || (accumulate && is_pc_number(rn))
    {
        Unallocated::MULTIPLY_REGISTERS
    } else {
        0
    }
}

/// The fields of a single transfer that may bar it.
#[derive(Clone, Copy)]
pub struct SingleFields {
    /// P, bit 24.
    pub before: bool,
    /// B, bit 22.
    pub byte: bool,
    /// W, bit 21.
    pub write_back: bool,
    /// L, bit 20.
    pub load: bool,
    /// The base, bits 19 to 16.
    pub rn: u32,
    /// Bits 15 to 12.
    pub rd: u32,
}

/// Of a single transfer: 0, 6, 9 or 10.
pub fn single_clash(fields: SingleFields) -> u32
    ensures { result
        ≡ single_clash (bit_of fields.before) (bit_of fields.byte) (bit_of fields.write_back)
        (bit_of fields.load) fields.rn fields.rd }
{
    let writes_base = writes_base(fields.before, fields.write_back);
    if is_pc_number(fields.rn) && writes_base {
        Unallocated::R15_WRITTEN_BACK
    } else if fields.load && writes_base && fields.rd == fields.rn {
        Unallocated::BASE_LOADED
    } else if fields.byte && is_pc_number(fields.rd) {
        Unallocated::BYTE_OF_R15
    } else {
        0
    }
}

/// Of a single transfer whose offset is in the register `rm`: 0, 5, 6, 9 or 10.
pub fn single_register_clash(fields: SingleFields, rm: u32) -> u32
    ensures { result
        ≡ single_register_clash (bit_of fields.before) (bit_of fields.byte) (bit_of fields.write_back)
        (bit_of fields.load) fields.rn fields.rd rm }
{
    if is_pc_number(rm) {
        Unallocated::OFFSET_IN_R15
    } else {
        single_clash(fields)
    }
}

/// Of a block transfer, by its base and the 16 bits of its list: 0, 7 or 8.
pub fn block_clash(rn: u32, list: u32) -> u32
    ensures { result ≡ block_clash rn list }
{
    if is_pc_number(rn) {
        Unallocated::BLOCK_BASE_R15
    } else if list == 0 {
        Unallocated::EMPTY_LIST
    } else {
        0
    }
}
