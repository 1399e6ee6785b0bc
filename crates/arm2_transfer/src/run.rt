//! Blocks whose words lie one after another in RAM, at places that MEMC located at once.

ghost use Rattle.std.specs.Prelude.{◌≡◌, ℕ, ◌<◌, ◌^◌};
ghost use Rattle.arm2_decode.specs.Transfers.{registers_in};
ghost use Rattle.arm2_transfer.specs.Words.{AreFitted, moves_along};
ghost use Rattle.arm2_transfer.specs.Block.{load_all, put_all};

use crate::bus::{Bus, put};
use crate::registers::{Loading, enter, given};
use crate::words::split_lowest;
use arm2_effect::{Mode, Registers};
use memc::Spot;

/// The words from a place on are loaded into the registers of a list.
#[inline(always)]
pub(crate) fn load_along(
    registers: &mut Registers,
    bus: &Bus,
    loading: Loading,
    list: u32,
    place: u32,
)
    requires list { list < 2 ^ 16 }
    requires fitted { AreFitted bus.now.memc.shift place list }
    ensures { (port : ℕ)
        → registers.new
        ≡ load_all loading.psr loading.mode loading.r15 bus.now port
        (moves_along place (registers_in list)) registers.old }
{
    let (mut left, mut next) = (list, place);
    while left != 0 {
        let (register, rest) = split_lowest(left);
        let word = bus.memc.load(Spot::Ram(next));
        enter(registers, loading, register, word);
        left = rest;
        next += 4;
    }
}

/// The registers of a list, as a mode names them, are stored at the words from a place on.
#[inline(always)]
pub(crate) fn put_along(registers: &Registers, bus: &mut Bus, mode: Mode, list: u32, place: u32)
    requires list { list < 2 ^ 16 }
    requires fitted { AreFitted bus.old.memc.shift place list }
    ensures { bus.new ≡ put_all mode registers.now (moves_along place (registers_in list)) bus.old }
{
    let (mut left, mut next) = (list, place);
    while left != 0 {
        let (register, rest) = split_lowest(left);
        put(bus, Spot::Ram(next), given(registers, mode, register));
        left = rest;
        next += 4;
    }
}
