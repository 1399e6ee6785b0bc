ghost use Rattle.std.specs.Prelude.{◌≡◌, ◌≢◌, IfOk, IfErr};
ghost use Rattle.arm2_decode.specs.Allowed.{bit_of};
ghost use Rattle.arm2_decode.specs.Bits.{bits};
ghost use Rattle.arm2_decode.specs.declared.instr.Instr.{Instr};
ghost use Rattle.arm2_decode.specs.Table.{Decodes, IsLowestBar, IsUnallocated, Means, Reads};

use crate::clashes::{
    SingleFields, block_clash, data_clash, data_shift_clash, multiply_clash, single_clash,
    single_register_clash,
};
use crate::field::Field;
use crate::instr::{
    Block, Branch, Coprocessor, CoprocessorTransfer, DataImmediate, DataRegister,
    DataRegisterShift, Instr, Multiply, Operation, SingleImmediate, SingleRegister, Swi,
    Unallocated, UndefinedTransfer,
};
use crate::names::{Cond, Opcode, Register, Shift};

// Data processing of a form: the fields that all forms have, and then its own.
macro_rules! data {
    ($form:ident, $word:ident, $opcode:ident, $sets_flags:ident; $($field:ident: $value:expr),+ $(,)?) => {
        $form {
            opcode: Opcode::of($opcode),
            sets_flags: $sets_flags,
            rn: Register::of(Field::<19, 16>::get($word)),
            rd: Register::of(Field::<15, 12>::get($word)),
            $($field: $value,)+
        }
    };
}

// A single transfer of a form: the fields that both forms have, and then its own.
macro_rules! single {
    ($form:ident, $word:ident, $single:ident; $($field:ident: $value:expr),+ $(,)?) => {
        $form {
            before: $single.before,
            up: Field::<23, 23>::is_set($word),
            byte: $single.byte,
            write_back: $single.write_back,
            load: $single.load,
            rn: Register::of($single.rn),
            rd: Register::of($single.rd),
            $($field: $value,)+
        }
    };
}

#[tactic(auto, using(crate::proofs::RowLemmas::multiply_words))]
fn multiply(word: u32) -> Result<Operation, u32>
    requires first { bits 27 22 word ≡ 0 }
    requires second { bits 7 4 word ≡ 9 }
    ensures { Reads word result }
{
    let accumulate = Field::<21, 21>::is_set(word);
    let rd = Field::<19, 16>::get(word);
    let rn = Field::<15, 12>::get(word);
    let rs = Field::<11, 8>::get(word);
    let rm = Field::<3, 0>::get(word);
    let why = multiply_clash(accumulate, rd, rn, rs, rm);
    if why != 0 {
        return Err(why);
    }
    let fields = Multiply {
        accumulate,
        sets_flags: Field::<20, 20>::is_set(word),
        rd: Register::of(rd),
        rn: Register::of(rn),
        rs: Register::of(rs),
        rm: Register::of(rm),
    };
    Ok(Operation::Multiply(fields))
}

#[tactic(auto, using(crate::proofs::RowLemmas::data_register_words))]
fn data_register(word: u32) -> Result<Operation, u32>
    requires first { bits 27 25 word ≡ 0 }
    requires second { bits 4 4 word ≡ 0 }
    ensures { Reads word result }
{
    let opcode = Field::<24, 21>::get(word);
    let sets_flags = Field::<20, 20>::is_set(word);
    let why = data_clash(opcode, sets_flags);
    if why != 0 {
        return Err(why);
    }
    let fields = data!(DataRegister, word, opcode, sets_flags;
        amount: Field::<11, 7>::get(word),
        shift: Shift::of(Field::<6, 5>::get(word)),
        rm: Register::of(Field::<3, 0>::get(word)),
    );
    Ok(Operation::DataRegister(fields))
}

#[tactic(auto, using(crate::proofs::RowLemmas::data_register_shift_words))]
fn data_register_shift(word: u32) -> Result<Operation, u32>
    requires first { bits 27 25 word ≡ 0 }
    requires second { bits 7 7 word ≡ 0 }
    requires third { bits 4 4 word ≡ 1 }
    ensures { Reads word result }
{
    let opcode = Field::<24, 21>::get(word);
    let sets_flags = Field::<20, 20>::is_set(word);
    let rs = Field::<11, 8>::get(word);
    let why = data_shift_clash(opcode, sets_flags, rs);
    if why != 0 {
        return Err(why);
    }
    let fields = data!(DataRegisterShift, word, opcode, sets_flags;
        rs: Register::of(rs),
        shift: Shift::of(Field::<6, 5>::get(word)),
        rm: Register::of(Field::<3, 0>::get(word)),
    );
    Ok(Operation::DataRegisterShift(fields))
}

#[tactic(auto, using(crate::proofs::RowLemmas::data_immediate_words))]
fn data_immediate(word: u32) -> Result<Operation, u32>
    requires { bits 27 25 word ≡ 1 }
    ensures { Reads word result }
{
    let opcode = Field::<24, 21>::get(word);
    let sets_flags = Field::<20, 20>::is_set(word);
    let why = data_clash(opcode, sets_flags);
    if why != 0 {
        return Err(why);
    }
    let fields = data!(DataImmediate, word, opcode, sets_flags;
        rotation: Field::<11, 8>::get(word),
        value: Field::<7, 0>::get(word),
    );
    Ok(Operation::DataImmediate(fields))
}

fn single_fields(word: u32) -> SingleFields
    ensures before { bit_of result.before ≡ bits 24 24 word }
    ensures byte { bit_of result.byte ≡ bits 22 22 word }
    ensures write_back { bit_of result.write_back ≡ bits 21 21 word }
    ensures load { bit_of result.load ≡ bits 20 20 word }
    ensures rn { result.rn ≡ bits 19 16 word }
    ensures rd { result.rd ≡ bits 15 12 word }
{
    SingleFields {
        before: Field::<24, 24>::is_set(word),
        byte: Field::<22, 22>::is_set(word),
        write_back: Field::<21, 21>::is_set(word),
        load: Field::<20, 20>::is_set(word),
        rn: Field::<19, 16>::get(word),
        rd: Field::<15, 12>::get(word),
    }
}

#[tactic(auto, using(crate::proofs::RowLemmas::single_immediate_words))]
fn single_immediate(word: u32) -> Result<Operation, u32>
    requires { bits 27 25 word ≡ 2 }
    ensures { Reads word result }
{
    let single = single_fields(word);
    let why = single_clash(single);
    if why != 0 {
        return Err(why);
    }
    let fields = single!(SingleImmediate, word, single;
        offset: Field::<11, 0>::get(word),
    );
    Ok(Operation::SingleImmediate(fields))
}

#[tactic(auto, using(crate::proofs::RowLemmas::single_register_words))]
fn single_register(word: u32) -> Result<Operation, u32>
    requires first { bits 27 25 word ≡ 3 }
    requires second { bits 4 4 word ≡ 0 }
    ensures { Reads word result }
{
    let single = single_fields(word);
    let rm = Field::<3, 0>::get(word);
    let why = single_register_clash(single, rm);
    if why != 0 {
        return Err(why);
    }
    let fields = single!(SingleRegister, word, single;
        amount: Field::<11, 7>::get(word),
        shift: Shift::of(Field::<6, 5>::get(word)),
        rm: Register::of(rm),
    );
    Ok(Operation::SingleRegister(fields))
}

#[tactic(auto, using(crate::proofs::RowLemmas::block_words))]
fn block(word: u32) -> Result<Operation, u32>
    requires { bits 27 25 word ≡ 4 }
    ensures { Reads word result }
{
    let rn = Field::<19, 16>::get(word);
    let list = Field::<15, 0>::get(word);
    let why = block_clash(rn, list);
    if why != 0 {
        return Err(why);
    }
    let fields = Block {
        before: Field::<24, 24>::is_set(word),
        up: Field::<23, 23>::is_set(word),
        user: Field::<22, 22>::is_set(word),
        write_back: Field::<21, 21>::is_set(word),
        load: Field::<20, 20>::is_set(word),
        rn: Register::of(rn),
        list,
    };
    Ok(Operation::Block(fields))
}

#[tactic(auto, using(crate::proofs::RowLemmas::branch_fits))]
fn branch(word: u32) -> Result<Operation, u32>
    requires { bits 27 25 word ≡ 5 }
    ensures { Reads word result }
{
    let fields = Branch {
        link: Field::<24, 24>::is_set(word),
        offset: Field::<23, 0>::get(word),
    };
    Ok(Operation::Branch(fields))
}

#[tactic(auto, using(crate::proofs::RowLemmas::swi_fits))]
fn swi(word: u32) -> Result<Operation, u32>
    requires { bits 27 24 word ≡ 15 }
    ensures { Reads word result }
{
    let fields = Swi {
        comment: Field::<23, 0>::get(word),
    };
    Ok(Operation::Swi(fields))
}

#[tactic(auto, using(crate::proofs::RowLemmas::undefined_transfer_fits))]
fn undefined_transfer(word: u32) -> Result<Operation, u32>
    requires first { bits 27 25 word ≡ 3 }
    requires second { bits 4 4 word ≡ 1 }
    ensures { Reads word result }
{
    let fields = UndefinedTransfer {
        high: Field::<24, 5>::get(word),
        low: Field::<3, 0>::get(word),
    };
    Ok(Operation::UndefinedTransfer(fields))
}

#[tactic(auto, using(crate::proofs::RowLemmas::coprocessor_transfer_fits))]
fn coprocessor_transfer(word: u32) -> Result<Operation, u32>
    requires { bits 27 25 word ≡ 6 }
    ensures { Reads word result }
{
    let fields = CoprocessorTransfer {
        bits: Field::<24, 0>::get(word),
    };
    Ok(Operation::CoprocessorTransfer(fields))
}

#[tactic(auto, using(crate::proofs::RowLemmas::coprocessor_fits))]
fn coprocessor(word: u32) -> Result<Operation, u32>
    requires { bits 27 24 word ≡ 14 }
    ensures { Reads word result }
{
    let fields = Coprocessor {
        bits: Field::<23, 0>::get(word),
    };
    Ok(Operation::Coprocessor(fields))
}

// A word with bits 7 and 4 set among the data words that is no multiply.
#[tactic(auto, using(crate::proofs::RowLemmas::stray_barred))]
fn stray(word: u32) -> Result<Operation, u32>
    requires kind { bits 27 25 word ≡ 0 }
    requires seven { bits 7 7 word ≡ 1 }
    requires four { bits 4 4 word ≡ 1 }
    requires other { bits 27 22 word ≡ 0 → bits 7 4 word ≢ 9 }
    ensures { Reads word result }
{
    Err(Unallocated::NO_MULTIPLY)
}

// A word of kind 0.
fn data_or_multiply(word: u32) -> Result<Operation, u32>
    requires { bits 27 25 word ≡ 0 }
    ensures { Reads word result }
{
    if Field::<4, 4>::get(word) == 0 {
        data_register(word)
    } else if Field::<7, 7>::get(word) == 0 {
        data_register_shift(word)
    } else if Field::<27, 22>::get(word) == 0 && Field::<7, 4>::get(word) == 9 {
        multiply(word)
    } else {
        stray(word)
    }
}

// The operation of a word, or why there is none.
fn operation_of(word: u32) -> Result<Operation, u32>
    ensures { Reads word result }
{
    match Field::<27, 25>::get(word) {
        0 => data_or_multiply(word),
        1 => data_immediate(word),
        2 => single_immediate(word),
        3 if Field::<4, 4>::get(word) == 0 => single_register(word),
        3 => undefined_transfer(word),
        4 => block(word),
        5 => branch(word),
        6 => coprocessor_transfer(word),
        _ if Field::<24, 24>::get(word) == 0 => coprocessor(word),
        _ => swi(word),
    }
}

// The instruction of a word, or why there is none.
fn instr_of(word: u32) -> Result<Instr, Unallocated>
    ensures { Decodes word result }
{
    let cond = Cond::of(Field::<31, 28>::get(word));
    match operation_of(word) {
        Ok(operation) => Ok(Instr { cond, operation }),
        Err(why) => Err(Unallocated { cond, why }),
    }
}

/// The one instruction of a word.
///
/// # Errors
///
/// The word has none: its condition, and the lowest number of why there is none.
pub fn decode(word: u32) -> Result<Instr, Unallocated>
    ensures found { IfOk result (λ instr. Means word instr) }
    ensures only { (instr : Instr) → Means word instr → result ≡ Ok instr }
    ensures unallocated { IfErr result (λ u. IsUnallocated word u) }
    ensures lowest { IfErr result (λ u. IsLowestBar word u.why) }
{
    instr_of(word)
}
