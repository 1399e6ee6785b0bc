ghost use Rattle.std.specs.Prelude.{◌≡◌};
ghost use Rattle.control_flow.specs.Kinds.{IsAction, IsWork, base_of, internal_cycles, is_multiply};
ghost use Rattle.control_flow.specs.Kinds.{is_writer, kind_of, transfer_work, work_of, writer_if};

use arm2_decode::{Cond, Operation, Register, decode};
use shifter::MOST_MULTIPLY_CYCLES;

/// What a word does to the flow of control where its condition holds.
#[derive(Clone, Copy)]
pub enum Kind {
    /// It goes on at the next word.
    Plain,
    /// It jumps, by a number of words that is signed in 24 bits.
    Branch(u32),
    /// It calls, by a number of words that is signed in 24 bits.
    Call(u32),
    /// It writes R15 in another way, and so returns where nothing is stated.
    Writer,
    /// It is a software interrupt or undefined.
    Trap,
    /// It is no instruction.
    Unallocated,
}

/// What an instruction does besides its fetches.
#[derive(Clone, Copy)]
pub enum Work {
    /// It takes at most so many internal cycles: 0 to [`MOST_MULTIPLY_CYCLES`].
    Internal(u32),
    /// It loads so many words, or one byte: 1 to 16; and takes one internal cycle.
    Load(u32),
    /// It stores so many words, or one byte: 1 to 16.
    Store(u32),
}

/// When a word is carried out, and what it then does.
#[derive(Clone, Copy)]
pub struct Action {
    pub cond: Cond,
    pub kind: Kind,
    pub work: Work,
    /// The register that holds the address from which it loads or stores, if it does.
    pub base: Option<Register>,
}

fn writer_if(writes: bool) -> Kind
    ensures { result ≡ writer_if writes }
{
    if writes { Kind::Writer } else { Kind::Plain }
}

fn kind_of(operation: &Operation) -> Kind
    ensures { result ≡ kind_of operation.now }
{
    match operation {
        Operation::Branch(x) => {
            if x.link {
                Kind::Call(x.offset)
            } else {
                Kind::Branch(x.offset)
            }
        }
        Operation::Swi(_)
        | Operation::UndefinedTransfer(_)
        | Operation::CoprocessorTransfer(_)
        | Operation::Coprocessor(_) => Kind::Trap,
        Operation::Multiply(_)
        | Operation::DataRegister(_)
        | Operation::DataRegisterShift(_)
        | Operation::DataImmediate(_)
        | Operation::SingleImmediate(_)
        | Operation::SingleRegister(_)
        | Operation::Block(_) => writer_if(operation.writes_pc()),
    }
}

/// What a load or a store of so many words does besides its fetches.
pub fn transfer_work(load: bool, words: u32) -> Work
    ensures { result ≡ transfer_work load words }
{
    if load {
        Work::Load(words)
    } else {
        Work::Store(words)
    }
}

/// Whether it is a multiply.
pub fn is_multiply(operation: &Operation) -> bool
    ensures { result ≡ is_multiply operation.now }
{
    matches!(operation, Operation::Multiply(_))
}

// The most internal cycles of an operation that neither loads nor stores.
fn internal_cycles(operation: &Operation) -> u32
    ensures { result ≡ internal_cycles operation.now }
{
    match operation {
        Operation::Multiply(_) => MOST_MULTIPLY_CYCLES,
        Operation::DataRegisterShift(_) => 1,
        Operation::DataRegister(_)
        | Operation::DataImmediate(_)
        | Operation::SingleImmediate(_)
        | Operation::SingleRegister(_)
        | Operation::Block(_)
        | Operation::Branch(_)
        | Operation::Swi(_)
        | Operation::UndefinedTransfer(_)
        | Operation::CoprocessorTransfer(_)
        | Operation::Coprocessor(_) => 0,
    }
}

fn work_of(operation: &Operation) -> Work
    ensures { result ≡ work_of operation.now }
{
    match operation.moved() {
        Some(moved) => transfer_work(moved.load, moved.words),
        None => Work::Internal(internal_cycles(operation)),
    }
}

/// The register that holds the address from which an operation loads or stores, if it does.
pub fn base_of(operation: &Operation) -> Option<Register>
    ensures { result ≡ base_of operation.now }
{
    operation.moved().map(|moved| moved.base)
}

/// When a word is carried out, and what it then does.
pub fn action_of(word: u32) -> Action
    ensures value { IsAction word result }
    ensures fits { IsWork result.work }
{
    match decode(word) {
        Ok(instr) => Action {
            cond: instr.cond,
            kind: kind_of(&instr.operation),
            work: work_of(&instr.operation),
            base: base_of(&instr.operation),
        },
        Err(unallocated) => Action {
            cond: unallocated.cond,
            kind: Kind::Unallocated,
            work: Work::Internal(0),
            base: None,
        },
    }
}

/// Whether the word writes R15, other than a branch or a call.
pub(crate) fn is_writer(kind: Kind) -> bool
    ensures { result ≡ is_writer kind }
{
    matches!(kind, Kind::Writer)
}
