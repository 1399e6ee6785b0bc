//! What words show of the masks of R15.

ghost use Rattle.std.specs.Prelude.{◌≡◌};
ghost use Rattle.text_masked.specs.Shown.{IsShownOn, is_masked, is_teq, operand_of, shown_by};
ghost use Rattle.text_masked.specs.Shown.{shown_by_data, shown_by_status, writes_status};
ghost use Rattle.text_explained.specs.Leaving.{is_done};

use arm2_decode::{DataImmediate, Opcode, Operation, bit_of_word};
use control_flow::{Edge, Label};
use image::Image;
use shifter::rotate_imm;
use word_shapes::instr_at;

/// A mask of R15.
#[derive(Clone, Copy, Debug, PartialEq, Eq)]
pub enum Mask {
    /// I: IRQ is not taken.
    Irq,
    /// F: neither is FIQ.
    Fiq,
}

/// What a word shows of a mask after it.
#[derive(Clone, Copy, Debug, PartialEq, Eq)]
pub(crate) enum Shown {
    /// Nothing.
    Nothing,
    /// It is set.
    Sets,
    /// It is clear.
    Clears,
}

impl Mask {
    // Whether a value of R15 has it set.
    fn is_in(self, status: u32) -> bool
        ensures { result ≡ is_masked self status }
    {
        match self {
            Mask::Irq => bit_of_word(status, 27),
            Mask::Fiq => bit_of_word(status, 26),
        }
    }
}

fn is_teq(opcode: Opcode) -> bool
    ensures { result ≡ is_teq opcode }
{
    matches!(opcode, Opcode::Teq)
}

// Whether it is TEQP PC,#n.
fn writes_status(x: &DataImmediate) -> bool
    ensures { result ≡ writes_status x.now }
{
    is_teq(x.opcode) && x.rn.is_pc() && x.rd.is_pc()
}

// The number n.
#[tactic(auto, using(crate::proofs::ShownLemmas::value_is))]
fn operand_of(x: &DataImmediate) -> u32
    ensures { result ≡ operand_of x.now }
{
    rotate_imm(x.value, x.rotation, false).value
}

fn shown_by_status(mask: Mask, status: u32) -> Shown
    ensures { result ≡ shown_by_status mask status }
{
    if mask.is_in(status) {
        Shown::Sets
    } else {
        Shown::Clears
    }
}

fn shown_by_data(mask: Mask, x: &DataImmediate) -> Shown
    ensures { result ≡ shown_by_data mask x.now }
{
    if writes_status(x) {
        shown_by_status(mask, operand_of(x))
    } else {
        Shown::Nothing
    }
}

// What an operation shows, where it is carried out.
fn shown_by(mask: Mask, operation: &Operation) -> Shown
    ensures { result ≡ shown_by mask operation.now }
{
    match operation {
        Operation::DataImmediate(x) => shown_by_data(mask, x),
        Operation::Multiply(_)
        | Operation::DataRegister(_)
        | Operation::DataRegisterShift(_)
        | Operation::SingleImmediate(_)
        | Operation::SingleRegister(_)
        | Operation::Block(_)
        | Operation::Branch(_)
        | Operation::Swi(_)
        | Operation::UndefinedTransfer(_)
        | Operation::CoprocessorTransfer(_)
        | Operation::Coprocessor(_) => Shown::Nothing,
    }
}

fn is_done(label: Label) -> bool
    ensures { result ≡ is_done label }
{
    match label {
        Label::Do => true,
        Label::Skip => false,
    }
}

/// What an edge shows of the mask after it.
pub(crate) fn shown_on(image: &Image, mask: Mask, edge: &Edge) -> Shown
    ensures { IsShownOn image.now mask edge.now result }
{
    if !is_done(edge.label) {
        return Shown::Nothing;
    }
    match instr_at(image, edge.from.address()) {
        Some(instr) => shown_by(mask, &instr.operation),
        None => Shown::Nothing,
    }
}
