ghost use Rattle.std.specs.Prelude.{◌≡◌, ◌<◌, ◌≤◌, ◌^◌, ◌∷◌, not, Ok, Err, IfOk, MatchResult};
ghost use Rattle.bus_ticks.specs.declared.space.TheConstants.{SPACE_END};
ghost use Rattle.memc.specs.Memory.{Fits, located};
ghost use Rattle.arm2_decode.specs.Transfers.{all_registers, registers_in};
ghost use Rattle.arm2_transfer.specs.Words.{or_fault, words_from, verdict_of, AllFit};

use arm2_decode::{Block, Register};
use arrayvec::ArrayVec;
use bus_ticks::word_address;
use memc::{Memc, Refused, Spot};

/// Why no word of a transfer is moved.
#[derive(Clone, Copy)]
pub enum TransferFault {
    /// The program has no right to some word.
    DataAbort,
    /// Some store asks for what this machine does not do.
    UnsupportedWrite,
}

/// A register, and where its word goes or comes from.
#[derive(Clone, Copy)]
pub struct Move {
    pub register: Register,
    pub spot: Spot,
}

impl Default for Move {
    // The first register and the first word of the RAM. It only fills places that hold no move.
    fn default() -> Self {
        Move {
            register: Register::R0,
            spot: Spot::Ram(0),
        }
    }
}

#[tactic(auto, unfolding(arm2_decode::specs::Transfers::all_registers))]
fn all_registers() -> [Register; 16]
    ensures { result ≡ all_registers }
{
    use Register::*;
    [
        R0, R1, R2, R3, R4, R5, R6, R7, R8, R9, R10, R11, R12, R13, R14, R15,
    ]
}

/// The lowest register of a list that has some, and the list of the others.
#[inline(always)]
pub(crate) fn split_lowest(list: u32) -> (Register, u32)
    requires some { 1 ≤ list }
    requires fits { list < 2 ^ 16 }
    ensures split { registers_in list ≡ result.0 ∷ registers_in result.1 }
    ensures less { result.1 < list }
{
    let lowest = list.trailing_zeros();
    (Register::of(lowest), list & !(1 << lowest))
}

/// Where the one word of a transfer goes or comes from.
#[inline(always)]
pub(crate) fn locate_word(
    memc: &Memc,
    address: u32,
    user: bool,
    store: bool,
) -> Result<Spot, TransferFault>
    requires { address < SPACE_END }
    ensures met { result ≡ or_fault (located memc.now address user store) }
    ensures fitted { IfOk result (Fits memc.now.shift) }
{
    match memc.locate(address, user, store) {
        Ok(spot) => Ok(spot),
        Err(Refused::NoPage | Refused::Protected) => Err(TransferFault::DataAbort),
        Err(Refused::UnsupportedWrite) => Err(TransferFault::UnsupportedWrite),
    }
}

/// Where the words of a block's registers go or come from: the lowest register at the lowest address.
pub(crate) fn locate_block(
    memc: &Memc,
    transfer: Block,
    lowest: u32,
    user: bool,
) -> Result<ArrayVec<Move, 16>, TransferFault>
    requires { lowest < SPACE_END }
    ensures verdict { MatchResult result
        (λ moves. verdict_of
        (words_from memc.now user (not transfer.load) lowest 0 (registers_in transfer.list))
        ≡ Ok moves.items)
        (λ fault. verdict_of
        (words_from memc.now user (not transfer.load) lowest 0 (registers_in transfer.list))
        ≡ Err fault) }
    ensures fitted { IfOk result (λ moves. AllFit memc.now.shift moves.items) }
{
    let mut moves = ArrayVec::new();
    let mut unsupported = false;
    let mut word = 0;
    for register in all_registers() {
        if !transfer.is_listed(register) {
            continue;
        }
        match locate_word(memc, word_address(lowest, word), user, !transfer.load) {
            Ok(spot) => moves.push(Move { register, spot }),
            Err(TransferFault::UnsupportedWrite) => unsupported = true,
            Err(TransferFault::DataAbort) => return Err(TransferFault::DataAbort),
        }
        word += 1;
    }
    if unsupported {
        return Err(TransferFault::UnsupportedWrite);
    }
    Ok(moves)
}
