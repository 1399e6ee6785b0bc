ghost use Rattle.std.specs.Prelude.{◌≡◌, ℕ, Bool, false, true};
ghost use Rattle.bus_ticks.specs.Prices.{fetch_n, fetch_s};
ghost use Rattle.bus_ticks.specs.Worst.{AtTimes, IsBlockOf, IsSpeed, worst_fetch_n, worst_fetch_s};
ghost use Rattle.bus_ticks.specs.Dearest.{AreDearest, IsDearestBlock};

use crate::profile::{Class, Profile, RomTimes};
use crate::space::{
    FAST_START, FIQ_VECTOR, HIGH_ROM_START, IO_START, MEDIUM_START, PHYSICAL_START, ROM_START,
    SPACE_END, SYNCHRONOUS_START,
};

/// States where the kinds of memory are: logical RAM up to 1FFFFFF, physical RAM up to 2FFFFFF, I/O from
/// 3000000 to 33FFFFF, ROM from there to 3FFFFFF, its high half from 3800000; where the first devices of each
/// speed are; and FIQ's vector, 1C. It does nothing.
pub fn memory_map()
    ensures fiq { FIQ_VECTOR ≡ 0x1C }
    ensures physical { PHYSICAL_START ≡ 0x2000000 }
    ensures io { IO_START ≡ 0x3000000 }
    ensures medium { MEDIUM_START ≡ 0x3080000 }
    ensures fast { FAST_START ≡ 0x3100000 }
    ensures synchronous { SYNCHRONOUS_START ≡ 0x3180000 }
    ensures rom { ROM_START ≡ 0x3400000 }
    ensures high_rom { HIGH_ROM_START ≡ 0x3800000 }
    ensures end { SPACE_END ≡ 0x4000000 }
{}

/// States that at the dearest time fields of ROM each fetch costs the most that it can at its address, both
/// one that follows the access before it and one that does not. It does nothing.
pub fn fetches_cost_the_worst()
    ensures n { (profile : Profile) → (rom : RomTimes) → AreDearest profile rom → (x : ℕ)
        → fetch_n profile x rom ≡ worst_fetch_n profile x }
    ensures s { (profile : Profile) → (rom : RomTimes) → AreDearest profile rom → (x : ℕ)
        → fetch_s profile x rom ≡ worst_fetch_s profile x }
{}

/// States that a transfer whose words are all to devices of one speed costs the most that it can, wherever it
/// starts and at any time fields of ROM. It does nothing.
pub fn devices_cost_their_speed()
    ensures { (profile : Profile) → (class : Class) → (words : ℕ) → (store : Bool) → (block : AtTimes)
        → IsSpeed class → IsBlockOf class words block → IsDearestBlock profile class words store block }
{}

/// States that where a transfer starts in ROM does not change what it costs, if all its words are in ROM: at
/// the dearest time fields each load costs the most, and each store, which goes to a control register, by any
/// time fields. It does nothing.
pub fn rom_blocks_cost_the_worst()
    ensures load { (profile : Profile) → (words : ℕ) → (block : AtTimes) → AreDearest profile block.rom
        → IsBlockOf Class.Rom words block → IsDearestBlock profile Class.Rom words false block }
    ensures store { (profile : Profile) → (words : ℕ) → (block : AtTimes)
        → IsBlockOf Class.Rom words block → IsDearestBlock profile Class.Rom words true block }
{}
