ghost use Rattle.std.specs.Prelude.{◌≡◌, true};
ghost use Rattle.arm2_effect.specs.Effects.{is_stopped};
ghost use Rattle.arm2_transfer.specs.Moved.{ChangesNothing, IsMoved};
ghost use Rattle.arm2_transfer.specs.Operations.{operation_moved};

use crate::processor::Processor;
use arm2_decode::Operation;
use arm2_effect::Done;

impl Processor {
    /// Carries out an instruction whose condition holds, at the address in R15.
    ///
    /// A store that asks for what the machine does not do stops it, and changes nothing.
    #[inline(always)]
    pub fn carry_out(&mut self, operation: &Operation) -> Done
        ensures moved { IsMoved self.old result self.new
            (operation_moved operation.now self.old.port self.old.registers self.old.bus) }
        ensures stopped { is_stopped result.kind ≡ true → ChangesNothing self.old result self.new }
    {
        match operation {
            Operation::SingleImmediate(fields) => self.single_immediate(fields),
            Operation::SingleRegister(fields) => self.single_register(fields),
            Operation::Block(transfer) => self.block_moved(transfer),
            Operation::Multiply(_)
            | Operation::DataRegister(_)
            | Operation::DataRegisterShift(_)
            | Operation::DataImmediate(_)
            | Operation::Branch(_)
            | Operation::Swi(_)
            | Operation::UndefinedTransfer(_)
            | Operation::CoprocessorTransfer(_)
            | Operation::Coprocessor(_) => self.registers.execute(&self.prices, operation),
        }
    }
}
