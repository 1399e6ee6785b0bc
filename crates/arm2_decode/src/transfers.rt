ghost use Rattle.std.specs.Prelude.{◌≡◌, ◌≤◌, IfSome};
ghost use Rattle.arm2_decode.specs.Transfers.{asks_for_user, writes_base};
ghost use Rattle.arm2_decode.specs.Writers.{is_transfer, moved, one_moved};

use crate::field::bit_of_word;
use crate::instr::{Block, Operation};
use crate::names::Register;

/// Whether a single transfer writes its base, by P and W.
#[inline(always)]
pub fn writes_base(before: bool, write_back: bool) -> bool
    ensures { result ≡ writes_base before write_back }
{
    write_back || !before
}

/// Whether a single transfer asks for the rights of User, by P and W.
#[inline(always)]
pub fn asks_for_user(before: bool, write_back: bool) -> bool
    ensures { result ≡ asks_for_user before write_back }
{
    write_back && !before
}

impl Block {
    ghost use Rattle.arm2_decode.specs.Transfers.{is_listed, word_count};

    /// Whether the list has a register.
    #[inline(always)]
    pub fn is_listed(self, register: Register) -> bool
        ensures { result ≡ is_listed self.list register }
    {
        bit_of_word(self.list, register.number())
    }

    /// How many words are moved: one for each register of the list, from 1 to 16.
    #[inline(always)]
    pub fn word_count(self) -> u32
        ensures count { result ≡ word_count self.list }
        ensures some { 1 ≤ result }
        ensures few { result ≤ 16 }
    {
        self.list.count_ones()
    }
}

/// What a load or a store moves between registers and memory.
#[derive(Clone, Copy, Debug, PartialEq, Eq)]
pub struct Moved {
    /// A load, not a store.
    pub load: bool,
    /// How many words: 1 to 16. A byte counts as one.
    pub words: u32,
    /// The register that holds the address from which it goes.
    pub base: Register,
}

fn one_moved(load: bool, base: Register) -> Moved
    ensures { result ≡ one_moved load base }
{
    Moved {
        load,
        words: 1,
        base,
    }
}

impl Operation {
    /// What it moves between registers and memory; nothing where it neither loads nor stores.
    pub fn moved(&self) -> Option<Moved>
        ensures moved { result ≡ moved self.now }
        ensures words { IfSome result (λ m. (1 ≤ m.words) × (m.words ≤ 16)) }
    {
        match self {
            Operation::SingleImmediate(x) => Some(one_moved(x.load, x.rn)),
            Operation::SingleRegister(x) => Some(one_moved(x.load, x.rn)),
            Operation::Block(x) => Some(Moved {
                load: x.load,
                words: x.word_count(),
                base: x.rn,
            }),
            Operation::Multiply(_)
            | Operation::DataRegister(_)
            | Operation::DataRegisterShift(_)
            | Operation::DataImmediate(_)
            | Operation::Branch(_)
            | Operation::Swi(_)
            | Operation::UndefinedTransfer(_)
            | Operation::CoprocessorTransfer(_)
            | Operation::Coprocessor(_) => None,
        }
    }

    /// Whether it loads or stores.
    pub fn is_transfer(&self) -> bool
        ensures { result ≡ is_transfer self.now }
    {
        self.moved().is_some()
    }
}
