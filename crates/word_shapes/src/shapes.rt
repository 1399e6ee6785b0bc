ghost use Rattle.std.specs.Prelude.{◌≡◌};
ghost use Rattle.arm2_decode.specs.Writers.{is_transfer};
ghost use Rattle.word_shapes.specs.Shapes.{copies_link, is_lsl_by, is_odd_writer, is_return};
ghost use Rattle.word_shapes.specs.Shapes.{is_table_jump, keeps_return_address, makes_address, may_do};
ghost use Rattle.word_shapes.specs.Shapes.{offsets_pc, restores_flags, sets_link_by_pc, subtracts_from_link};

use arm2_decode::{DataRegister, Instr, Opcode, Operation, Register};

// Whether the operand is shifted by LSL, and by this amount.
fn is_lsl_by(amount: u32, x: &DataRegister) -> bool
    ensures { result ≡ is_lsl_by amount x.now }
{
    x.shift.is_lsl() && x.amount == amount
}

// Whether the operand is R14, not shifted, and moved.
fn copies_link(x: &DataRegister) -> bool
    ensures { result ≡ copies_link x.now }
{
    x.opcode.is_mov() && x.rm.is_link() && is_lsl_by(0, x)
}

fn subtracts_from_link(opcode: Opcode, rn: Register) -> bool
    ensures { result ≡ subtracts_from_link opcode rn }
{
    opcode.is_sub() && rn.is_link()
}

/// Whether an operation that writes R15 does so as returns do: by MOV of R14, by SUB of a number from R14, or
/// by a load by R13, and at most a number.
pub fn is_return(operation: &Operation) -> bool
    ensures { result ≡ is_return operation.now }
{
    match operation {
        Operation::DataRegister(x) => copies_link(x),
        Operation::DataImmediate(x) => subtracts_from_link(x.opcode, x.rn),
        Operation::SingleImmediate(x) => x.rn.is_stack(),
        Operation::Block(x) => x.rn.is_stack(),
        Operation::Multiply(_)
        | Operation::DataRegisterShift(_)
        | Operation::SingleRegister(_)
        | Operation::Branch(_)
        | Operation::Swi(_)
        | Operation::UndefinedTransfer(_)
        | Operation::CoprocessorTransfer(_)
        | Operation::Coprocessor(_) => false,
    }
}

/// Whether an operation writes R15, other than a branch or a call, and does not look like a return.
pub fn is_odd_writer(operation: &Operation) -> bool
    ensures { result ≡ is_odd_writer operation.now }
{
    operation.writes_pc() && !is_return(operation)
}

/// Whether an operation jumps into a table of branches that follows it: ADD PC,PC,Rx,LSL #2.
pub(crate) fn is_table_jump(operation: &Operation) -> bool
    ensures { result ≡ is_table_jump operation.now }
{
    let Operation::DataRegister(x) = operation else {
        return false;
    };
    x.opcode.is_add() && x.rn.is_pc() && x.rd.is_pc() && is_lsl_by(2, x)
}

/// Whether an operation keeps the address of the second word after it as the return address: MOV R14,PC.
pub fn keeps_return_address(operation: &Operation) -> bool
    ensures { result ≡ keeps_return_address operation.now }
{
    let Operation::DataRegister(x) = operation else {
        return false;
    };
    x.opcode.is_mov() && x.rd.is_link() && x.rm.is_pc() && is_lsl_by(0, x)
}

/// Whether an operation that writes R15 restores the flags with it: data processing with S, or a block
/// with ^.
pub(crate) fn restores_flags(operation: &Operation) -> bool
    ensures { result ≡ restores_flags operation.now }
{
    match operation {
        Operation::DataRegister(x) => x.sets_flags,
        Operation::DataRegisterShift(x) => x.sets_flags,
        Operation::DataImmediate(x) => x.sets_flags,
        Operation::Block(x) => x.user,
        Operation::Multiply(_)
        | Operation::SingleImmediate(_)
        | Operation::SingleRegister(_)
        | Operation::Branch(_)
        | Operation::Swi(_)
        | Operation::UndefinedTransfer(_)
        | Operation::CoprocessorTransfer(_)
        | Operation::Coprocessor(_) => false,
    }
}

// Whether data processing leaves PC and what is added or taken away in R14.
fn offsets_pc(opcode: Opcode, rn: Register, rd: Register) -> bool
    ensures { result ≡ offsets_pc opcode rn rd }
{
    (opcode.is_add() || opcode.is_sub()) && rn.is_pc() && rd.is_link()
}

/// Whether an operation puts an address by PC into R14, by ADD or SUB of PC with a number or a register, or
/// loads R14 from an address so many bytes from PC.
pub(crate) fn sets_link_by_pc(operation: &Operation) -> bool
    ensures { result ≡ sets_link_by_pc operation.now }
{
    match operation {
        Operation::DataRegister(x) => offsets_pc(x.opcode, x.rn, x.rd),
        Operation::DataRegisterShift(x) => offsets_pc(x.opcode, x.rn, x.rd),
        Operation::DataImmediate(x) => offsets_pc(x.opcode, x.rn, x.rd),
        Operation::SingleImmediate(x) => x.load && x.rd.is_link() && x.rn.is_pc(),
        Operation::Multiply(_)
        | Operation::SingleRegister(_)
        | Operation::Block(_)
        | Operation::Branch(_)
        | Operation::Swi(_)
        | Operation::UndefinedTransfer(_)
        | Operation::CoprocessorTransfer(_)
        | Operation::Coprocessor(_) => false,
    }
}

/// Whether an operation leaves an address in R14 that it makes of its own: ADD or SUB of PC, as ADR makes
/// them, or MOV R14,PC.
pub fn makes_address(operation: &Operation) -> bool
    ensures { result ≡ makes_address operation.now }
{
    match operation {
        Operation::DataRegister(x) => {
            offsets_pc(x.opcode, x.rn, x.rd) || keeps_return_address(operation)
        }
        Operation::DataRegisterShift(x) => offsets_pc(x.opcode, x.rn, x.rd),
        Operation::DataImmediate(x) => offsets_pc(x.opcode, x.rn, x.rd),
        Operation::Multiply(_)
        | Operation::SingleImmediate(_)
        | Operation::SingleRegister(_)
        | Operation::Block(_)
        | Operation::Branch(_)
        | Operation::Swi(_)
        | Operation::UndefinedTransfer(_)
        | Operation::CoprocessorTransfer(_)
        | Operation::Coprocessor(_) => false,
    }
}

/// Whether an instruction may load or store: its condition is not NV.
pub(crate) fn may_transfer(instr: &Instr) -> bool
    ensures { result ≡ may_do is_transfer instr.now }
{
    !instr.cond.is_never() && instr.operation.is_transfer()
}

/// Whether an instruction may write R15, other than a branch or a call, without looking like a return: its
/// condition is not NV.
pub(crate) fn may_write_oddly(instr: &Instr) -> bool
    ensures { result ≡ may_do is_odd_writer instr.now }
{
    !instr.cond.is_never() && is_odd_writer(&instr.operation)
}

/// Whether an instruction may keep the return address: its condition is not NV.
pub(crate) fn may_keep_return_address(instr: &Instr) -> bool
    ensures { result ≡ may_do keeps_return_address instr.now }
{
    !instr.cond.is_never() && keeps_return_address(&instr.operation)
}

/// Whether an instruction may put an address by PC into R14, or load R14 from one: its condition is not NV.
pub(crate) fn may_set_link_by_pc(instr: &Instr) -> bool
    ensures { result ≡ may_do sets_link_by_pc instr.now }
{
    !instr.cond.is_never() && sets_link_by_pc(&instr.operation)
}
