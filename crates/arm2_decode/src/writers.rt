ghost use Rattle.std.specs.Prelude.{◌≡◌};
ghost use Rattle.arm2_decode.specs.Writers.{data_writes, single_writes, writes, writes_pc};
ghost use Rattle.arm2_decode.specs.declared.names.Register.TheVariants.{R15};

use crate::instr::Operation;
use crate::names::{Opcode, Register};
use crate::transfers::writes_base;

fn data_writes(opcode: Opcode, rd: Register, register: Register) -> bool
    ensures { result ≡ data_writes opcode rd register }
{
    rd.is_same(register) && !opcode.is_compare()
}

fn single_writes(
    load: bool,
    writes_rn: bool,
    rn: Register,
    rd: Register,
    register: Register,
) -> bool
    ensures { result ≡ single_writes load writes_rn rn rd register }
{
    load && rd.is_same(register) || writes_rn && rn.is_same(register)
}

impl Operation {
    /// Whether it writes the register, other than as a branch, a call or an exception does.
    ///
    /// What a compare does to the PSR does not count. A block with ^ may write it in User mode's bank.
    pub fn writes(&self, register: Register) -> bool
        ensures { result ≡ writes self.now register }
    {
        match self {
            Operation::Multiply(x) => x.rd.is_same(register),
            Operation::DataRegister(x) => data_writes(x.opcode, x.rd, register),
            Operation::DataRegisterShift(x) => data_writes(x.opcode, x.rd, register),
            Operation::DataImmediate(x) => data_writes(x.opcode, x.rd, register),
            Operation::SingleImmediate(x) => {
                let writes_rn = writes_base(x.before, x.write_back);
                single_writes(x.load, writes_rn, x.rn, x.rd, register)
            }
            Operation::SingleRegister(x) => {
                let writes_rn = writes_base(x.before, x.write_back);
                single_writes(x.load, writes_rn, x.rn, x.rd, register)
            }
            Operation::Block(x) => {
                x.load && x.is_listed(register) || x.write_back && x.rn.is_same(register)
            }
            Operation::Branch(_)
            | Operation::Swi(_)
            | Operation::UndefinedTransfer(_)
            | Operation::CoprocessorTransfer(_)
            | Operation::Coprocessor(_) => false,
        }
    }

    /// Whether it writes R15, so that it jumps, other than as a branch, a call or an exception does.
    #[tactic(auto, using(crate::proofs::WrittenLemmas::pc_writers))]
    pub fn writes_pc(&self) -> bool
        ensures pc { result ≡ writes_pc self.now }
        ensures written { result ≡ writes self.now R15 }
    {
        self.writes(Register::R15)
    }
}
