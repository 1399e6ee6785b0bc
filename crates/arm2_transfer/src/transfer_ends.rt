ghost use Rattle.std.specs.Prelude.{◌≡◌, ◌<◌, ◌≤◌, ◌%◌};
ghost use Rattle.bus_ticks.specs.declared.space.TheConstants.{SPACE_END};
ghost use Rattle.bus_ticks.specs.Prices.{ahead_of, fetch_n};
ghost use Rattle.arm2_effect.specs.Effects.{ticks_of};
ghost use Rattle.arm2_transfer.specs.Moved.{IsMoved, faulted, load_accesses, store_accesses};

use crate::processor::Processor;
use crate::words::TransferFault;
use arm2_effect::{Done, Kind, Prices, Vector, Why};
use bus_ticks::{ahead_of, fetch_n, transfer};

impl Processor {
    /// What a transfer does none of whose words is moved.
    #[tactic(auto, unfolding(arm2_effect::specs::Effects::stopped))]
    #[inline(never)]
    pub(crate) fn refuse(&mut self, fault: TransferFault) -> Done
        ensures { IsMoved self.old result self.new (faulted fault self.old.registers self.old.bus) }
    {
        match fault {
            TransferFault::DataAbort => self.registers.take(&self.prices, Vector::DataAbort),
            TransferFault::UnsupportedWrite => Done::stopped(Why::UnsupportedWrite),
        }
    }
}

/// The words of a transfer in memory.
#[derive(Clone, Copy)]
pub struct Accesses {
    /// The address of the instruction, a multiple of 4 below 2^26.
    pub from: u32,
    /// The address of the first word, below 2^26.
    pub address: u32,
    /// How many words, from 1 to 16.
    pub words: u32,
}

/// How a load ends that moves its words; where it writes R15 it jumps to `to`.
#[inline(always)]
pub(crate) fn end_of_load(prices: &Prices, accesses: Accesses, jumps: bool, to: u32) -> Done
    requires from { accesses.from < SPACE_END }
    requires from_aligned { accesses.from % 4 ≡ 0 }
    requires address { accesses.address < SPACE_END }
    requires some { 1 ≤ accesses.words }
    requires few { accesses.words ≤ 16 }
    requires to { to < SPACE_END }
    requires to_aligned { to % 4 ≡ 0 }
    ensures kind { result.kind ≡ Kind.Plain }
    ensures ticks { result.ticks
        ≡ ticks_of prices.now (load_accesses accesses.from accesses.address accesses.words jumps to) }
{
    let moved = transfer(
        &prices.profile,
        accesses.address,
        accesses.words,
        false,
        prices.rom,
    );
    let ticks = prices.straight(accesses.from) + moved + prices.internal(1);
    let jump = if jumps { prices.refill(to) } else { 0 };
    Done {
        kind: Kind::Plain,
        ticks: ticks + jump,
    }
}

// The ticks of the fetch after a store by the instruction at `from`: it does not follow the access before it.
#[inline(always)]
fn fetch_after(prices: &Prices, from: u32) -> u32
    requires from { from < SPACE_END }
    requires from_aligned { from % 4 ≡ 0 }
    ensures price { result ≡ fetch_n prices.now.profile (ahead_of from 8) prices.now.rom }
    ensures small { result < 256 }
{
    fetch_n(&prices.profile, ahead_of(from, 8), prices.rom)
}

/// How a store ends that moves its words.
#[inline(always)]
pub(crate) fn end_of_store(prices: &Prices, accesses: Accesses) -> Done
    requires from { accesses.from < SPACE_END }
    requires from_aligned { accesses.from % 4 ≡ 0 }
    requires address { accesses.address < SPACE_END }
    requires some { 1 ≤ accesses.words }
    requires few { accesses.words ≤ 16 }
    ensures kind { result.kind ≡ Kind.Plain }
    ensures ticks { result.ticks
        ≡ ticks_of prices.now (store_accesses accesses.from accesses.address accesses.words) }
{
    let moved = transfer(
        &prices.profile,
        accesses.address,
        accesses.words,
        true,
        prices.rom,
    );
    Done {
        kind: Kind::Plain,
        ticks: fetch_after(prices, accesses.from) + moved,
    }
}
