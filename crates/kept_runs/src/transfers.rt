//! The words that an instruction transfers, by the registers before it.

ghost use Rattle.std.specs.Prelude.{◌≡◌, ◌≤◌, ◌<◌, IfSome, MatchOption, Some};
ghost use Rattle.kept_runs.specs.Transfers.{AllOf, HasNoOther, HasOther, HasOtherOf, words_of};

use arm2_decode::Operation;
use arm2_effect::{Reg, Registers, mode_of};
use arm2_transfer::{address_by, lowest_of};
use bus_ticks::{Class, SPACE_END, word_address};

/// The words that an instruction transfers where it is carried out.
#[derive(Clone, Copy, Debug, PartialEq, Eq)]
pub struct Transfer {
    /// The address of the first, in bytes, of 32 bits.
    pub address: u32,
    /// How many: 1 to 16.
    pub words: u32,
    /// Whether they are stored.
    pub store: bool,
}

/// A word that is transferred.
#[derive(Clone, Copy, Debug, PartialEq, Eq)]
pub struct Access {
    /// Its address in bytes, a multiple of 4 below 2^26.
    pub address: u32,
    /// Whether it is stored.
    pub store: bool,
}

/// The words that an operation transfers, by the registers before it.
pub(crate) fn words_of(registers: &Registers, operation: &Operation) -> Option<Transfer>
    ensures words { result ≡ words_of operation.now registers.now }
    ensures few { IfSome result (λ t. t.words ≤ 16) }
{
    match operation {
        Operation::SingleImmediate(x) => Some(Transfer {
            address: address_by(x.before, x.up, registers.first_of(x.rn, 8), x.offset),
            words: 1,
            store: !x.load,
        }),
        Operation::SingleRegister(x) => {
            let offset = registers.shifted_by_amount(x.shift, x.amount, x.rm).value;
            Some(Transfer {
                address: address_by(x.before, x.up, registers.first_of(x.rn, 8), offset),
                words: 1,
                store: !x.load,
            })
        }
        Operation::Block(x) => {
            let words = x.word_count();
            let mode = mode_of(registers.get(Reg::R15));
            Some(Transfer {
                address: lowest_of(x, registers.read(mode, x.rn), words),
                words,
                store: !x.load,
            })
        }
        Operation::Multiply(_)
        | Operation::DataRegister(_)
        | Operation::DataRegisterShift(_)
        | Operation::DataImmediate(_)
        | Operation::Branch(_)
        | Operation::Swi(_)
        | Operation::UndefinedTransfer(_)
        | Operation::CoprocessorTransfer(_)
        | Operation::Coprocessor(_) => None,
    }
}

// The first word that is of another class than the one stated, if one is.
fn other_word(class: Class, transfer: &Transfer) -> Option<Access>
    requires below { transfer.now.address < SPACE_END }
    requires few { transfer.now.words ≤ 16 }
    ensures { MatchOption result (AllOf class transfer.now) (HasOtherOf class transfer.now) }
{
    for word in 0..transfer.words {
        let address = word_address(transfer.address, word);
        if !class.is_of(address) {
            return Some(Access {
                address,
                store: transfer.store,
            });
        }
    }
    None
}

/// The first word of another class than the one stated. None of a transfer whose address is an exception.
pub(crate) fn other_of(class: Class, transfer: &Transfer) -> Option<Access>
    requires { transfer.now.words ≤ 16 }
    ensures { MatchOption result (HasNoOther class (Some transfer.now)) (HasOther class (Some transfer.now)) }
{
    if transfer.address >= SPACE_END {
        return None;
    }
    other_word(class, transfer)
}
