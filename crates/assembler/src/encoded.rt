ghost use Rattle.std.specs.Prelude.{◌≡◌, ◌<◌, ◌∷◌, ◌^◌, ◌*◌, Ok, Err, IfSome};
ghost use Rattle.std.specs.Int.{w32, rotate_left};
ghost use Rattle.arm2_decode.specs.Names.{cond_number, register_number};
ghost use Rattle.assembler.specs.Codes.{amount_field, amount_fits, amount_shift, block_word};
ghost use Rattle.assembler.specs.Codes.{branch_offset, branch_word, encoded, immediate_word, is_far};
ghost use Rattle.assembler.specs.Codes.{number_transfer, operand_word, product_word};
ghost use Rattle.assembler.specs.Codes.{register_shift_word, register_transfer, register_word};
ghost use Rattle.assembler.specs.Codes.{rotation_of, shifted_word, swi_word, transfer_word};
ghost use Rattle.arm2_decode.specs.Table.{operands, row_of, word_in};

use crate::fault::LineFault;
use arm2_decode::{
    Block, Branch, Cond, DataImmediate, DataRegister, DataRegisterShift, Instr, Multiply,
    Operation, Register, Shift, SingleFields, SingleImmediate, SingleRegister, Swi, block_clash,
    data_clash, data_shift_clash, encode, multiply_clash, single_clash, single_register_clash,
};
use asm_text::{
    Amount, BlockTransfer, Code, Data, Distance, Operand, Product, Shifting, SingleTransfer,
    WordAction,
};
use bus_ticks::is_word_address;

// The word of an operation: its row's fixed bits and its fields.
#[tactic(auto, using(crate::proofs::CodeLaws::means_word))]
fn word_of(cond: Cond, operation: Operation) -> u32
    ensures { result ≡ word_in (row_of operation) (cond_number cond ∷ operands operation) }
{
    encode(&Instr { cond, operation })
}

// The lowest rotation that yields a number: to the left by twice as many places it is a byte.
#[tactic(auto, using(crate::proofs::CodeLaws::rotation_on, crate::proofs::CodeLaws::rotation_here))]
fn rotation_of(n: u32) -> Option<u32>
    ensures value { result ≡ rotation_of n }
    ensures fits { IfSome result (λ k. k < 16) }
    ensures byte { IfSome result (λ k. rotate_left w32 n (2 * k) < 256) }
{
    for k in 0..16u32 {
        if n.rotate_left(2 * k) < 256 {
            return Some(k);
        }
    }
    None
}

fn immediate_word(cond: Cond, fields: Data, n: u32) -> Result<u32, LineFault>
    ensures { result ≡ immediate_word (cond_number cond) fields n }
{
    let Some(rotation) = rotation_of(n) else {
        return Err(LineFault::ImmediateNotRotated);
    };
    if data_clash(fields.opcode.number(), fields.sets_flags) != 0 {
        return Err(LineFault::Unallocated);
    }
    let operation = Operation::DataImmediate(DataImmediate {
        opcode: fields.opcode,
        sets_flags: fields.sets_flags,
        rn: fields.rn,
        rd: fields.rd,
        rotation,
        value: n.rotate_left(2 * rotation),
    });
    Ok(word_of(cond, operation))
}

fn amount_fits(amount: Amount) -> bool
    ensures { result ≡ amount_fits amount }
{
    match amount {
        Amount::By(shift, n) => match shift {
            Shift::Lsl => n < 32,
            Shift::Lsr | Shift::Asr => 1 <= n && n <= 32,
            Shift::Ror => 1 <= n && n < 32,
        },
        Amount::Rrx => true,
    }
}

// The amount as a word has it, in which 32 is 0.
fn amount_field(amount: Amount) -> u32
    ensures value { result ≡ amount_field amount }
    ensures fits { result < 32 }
{
    match amount {
        Amount::By(_, n) => n % 32,
        Amount::Rrx => 0,
    }
}

// The shift as a word has it, in which RRX is ROR.
fn amount_shift(amount: Amount) -> Shift
    ensures { result ≡ amount_shift amount }
{
    match amount {
        Amount::By(shift, _) => shift,
        Amount::Rrx => Shift::Ror,
    }
}

fn register_word(cond: Cond, fields: Data, rm: Register, amount: Amount) -> Result<u32, LineFault>
    ensures { result ≡ register_word (cond_number cond) fields rm amount }
{
    if !amount_fits(amount) {
        return Err(LineFault::OutOfRange);
    }
    if data_clash(fields.opcode.number(), fields.sets_flags) != 0 {
        return Err(LineFault::Unallocated);
    }
    let operation = Operation::DataRegister(DataRegister {
        opcode: fields.opcode,
        sets_flags: fields.sets_flags,
        rn: fields.rn,
        rd: fields.rd,
        amount: amount_field(amount),
        shift: amount_shift(amount),
        rm,
    });
    Ok(word_of(cond, operation))
}

fn register_shift_word(
    cond: Cond,
    fields: Data,
    rm: Register,
    shift: Shift,
    rs: Register,
) -> Result<u32, LineFault>
    ensures { result ≡ register_shift_word (cond_number cond) fields rm shift rs }
{
    if data_shift_clash(fields.opcode.number(), fields.sets_flags, rs.number()) != 0 {
        return Err(LineFault::Unallocated);
    }
    let operation = Operation::DataRegisterShift(DataRegisterShift {
        opcode: fields.opcode,
        sets_flags: fields.sets_flags,
        rn: fields.rn,
        rd: fields.rd,
        rs,
        shift,
        rm,
    });
    Ok(word_of(cond, operation))
}

fn shifted_word(
    cond: Cond,
    fields: Data,
    rm: Register,
    shifting: Shifting,
) -> Result<u32, LineFault>
    ensures { result ≡ shifted_word (cond_number cond) fields rm shifting }
{
    match shifting {
        Shifting::Amount(amount) => register_word(cond, fields, rm, amount),
        Shifting::Register(shift, rs) => register_shift_word(cond, fields, rm, shift, rs),
    }
}

fn operand_word(cond: Cond, fields: Data, operand: Operand) -> Result<u32, LineFault>
    ensures { result ≡ operand_word (cond_number cond) fields operand }
{
    match operand {
        Operand::Immediate(n) => immediate_word(cond, fields, n),
        Operand::Shifted(rm, shifting) => shifted_word(cond, fields, rm, shifting),
    }
}

fn product_word(cond: Cond, product: Product) -> Result<u32, LineFault>
    ensures { result ≡ product_word (cond_number cond) product }
{
    let (rd, rn) = (product.rd.number(), product.rn.number());
    let (rs, rm) = (product.rs.number(), product.rm.number());
    if multiply_clash(product.accumulate, rd, rn, rs, rm) != 0 {
        return Err(LineFault::Unallocated);
    }
    let operation = Operation::Multiply(Multiply {
        accumulate: product.accumulate,
        sets_flags: product.sets_flags,
        rd: product.rd,
        rn: product.rn,
        rs: product.rs,
        rm: product.rm,
    });
    Ok(word_of(cond, operation))
}

// The fields of a transfer's word that may bar it.
fn single_fields(transfer: SingleTransfer) -> SingleFields
    ensures before { result.before ≡ transfer.address.before }
    ensures byte { result.byte ≡ transfer.byte }
    ensures write_back { result.write_back ≡ transfer.address.write_back }
    ensures load { result.load ≡ transfer.load }
    ensures rn { result.rn ≡ register_number transfer.address.rn }
    ensures rd { result.rd ≡ register_number transfer.rd }
{
    SingleFields {
        before: transfer.address.before,
        byte: transfer.byte,
        write_back: transfer.address.write_back,
        load: transfer.load,
        rn: transfer.address.rn.number(),
        rd: transfer.rd.number(),
    }
}

fn number_transfer(cond: Cond, transfer: SingleTransfer, n: u32) -> Result<u32, LineFault>
    ensures { result ≡ number_transfer (cond_number cond) transfer n }
{
    if n >= 4096 {
        return Err(LineFault::OutOfRange);
    }
    if single_clash(single_fields(transfer)) != 0 {
        return Err(LineFault::Unallocated);
    }
    let operation = Operation::SingleImmediate(SingleImmediate {
        before: transfer.address.before,
        up: transfer.address.up,
        byte: transfer.byte,
        write_back: transfer.address.write_back,
        load: transfer.load,
        rn: transfer.address.rn,
        rd: transfer.rd,
        offset: n,
    });
    Ok(word_of(cond, operation))
}

fn register_transfer(
    cond: Cond,
    transfer: SingleTransfer,
    rm: Register,
    amount: Amount,
) -> Result<u32, LineFault>
    ensures { result ≡ register_transfer (cond_number cond) transfer rm amount }
{
    if !amount_fits(amount) {
        return Err(LineFault::OutOfRange);
    }
    if single_register_clash(single_fields(transfer), rm.number()) != 0 {
        return Err(LineFault::Unallocated);
    }
    let operation = Operation::SingleRegister(SingleRegister {
        before: transfer.address.before,
        up: transfer.address.up,
        byte: transfer.byte,
        write_back: transfer.address.write_back,
        load: transfer.load,
        rn: transfer.address.rn,
        rd: transfer.rd,
        amount: amount_field(amount),
        shift: amount_shift(amount),
        rm,
    });
    Ok(word_of(cond, operation))
}

fn transfer_word(cond: Cond, transfer: SingleTransfer) -> Result<u32, LineFault>
    ensures { result ≡ transfer_word (cond_number cond) transfer transfer.address.distance }
{
    match transfer.address.distance {
        Distance::Number(n) => number_transfer(cond, transfer, n),
        Distance::Register(rm, amount) => register_transfer(cond, transfer, rm, amount),
    }
}

fn block_word(cond: Cond, block: BlockTransfer) -> Result<u32, LineFault>
    ensures { result ≡ block_word (cond_number cond) block }
{
    if block.list >= 0x1_0000 {
        return Err(LineFault::OutOfRange);
    }
    if block_clash(block.rn.number(), block.list) != 0 {
        return Err(LineFault::Unallocated);
    }
    let operation = Operation::Block(Block {
        before: block.before,
        up: block.up,
        user: block.user,
        write_back: block.write_back,
        load: block.load,
        rn: block.rn,
        list: block.list,
    });
    Ok(word_of(cond, operation))
}

fn is_far(at: u32, target: u32) -> bool
    ensures { result ≡ is_far at target }
{
    let next = at as u64 + 8;
    let target = target as u64;
    target > next + 0x1FF_FFFC || target + 0x200_0000 < next
}

// The words from the address two words on to the target, as 24 bits of two's complement.
fn branch_offset(at: u32, target: u32) -> u32
    ensures value { result ≡ branch_offset at target }
    ensures fits { result < 2 ^ 24 }
{
    let next = at as u64 + 8;
    let bytes = target as u64 + 0x2_0000_0000 - next;
    (bytes / 4 % 0x100_0000) as u32
}

fn branch_word(cond: Cond, at: u32, link: bool, target: u32) -> Result<u32, LineFault>
    ensures { result ≡ branch_word (cond_number cond) at link target }
{
    if is_far(at, target) {
        return Err(LineFault::BranchTooFar);
    }
    if !is_word_address(target) {
        return Err(LineFault::OutOfRange);
    }
    let operation = Operation::Branch(Branch {
        link,
        offset: branch_offset(at, target),
    });
    Ok(word_of(cond, operation))
}

fn swi_word(cond: Cond, comment: u32) -> Result<u32, LineFault>
    ensures { result ≡ swi_word (cond_number cond) comment }
{
    if comment >= 0x100_0000 {
        return Err(LineFault::OutOfRange);
    }
    let operation = Operation::Swi(Swi { comment });
    Ok(word_of(cond, operation))
}

/// The word of a statement at an address, or the lowest of the faults for which it has none.
pub(crate) fn encoded(code: Code, at: u32) -> Result<u32, LineFault>
    ensures { result ≡ encoded code at }
{
    match code.action {
        WordAction::Data(fields) => operand_word(code.cond, fields, fields.operand),
        WordAction::Multiply(factors) => product_word(code.cond, factors),
        WordAction::Single(single) => transfer_word(code.cond, single),
        WordAction::Block(list) => block_word(code.cond, list),
        WordAction::Branch { link, target } => branch_word(code.cond, at, link, target),
        WordAction::Swi(comment) => swi_word(code.cond, comment),
    }
}
