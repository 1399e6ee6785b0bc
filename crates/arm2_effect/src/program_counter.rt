//! R15: N Z C V I F in bits 31 to 26, a word address in bits 25 to 2, the mode in bits 1 and 0.
ghost use Rattle.std.specs.Prelude.{◌≡◌, ◌%◌, ◌^◌, ◌<◌};
ghost use Rattle.bus_ticks.specs.Prices.{ahead_of};
ghost use Rattle.arm2_effect.specs.ProgramCounter.{address_of, branch_target};
ghost use Rattle.arm2_effect.specs.ProgramCounter.{flags_of, is_fiq_masked, is_irq_masked};
ghost use Rattle.arm2_effect.specs.ProgramCounter.{r15_jumped, mode_of};
ghost use Rattle.arm2_effect.specs.ProgramCounter.{psr_of, r15_ahead, r15_of};
ghost use Rattle.arm2_effect.specs.ProgramCounter.{r15_restored};

use crate::modes::Mode;
use arm2_decode::{Flags, bit_of_word};
use bus_ticks::{SPACE_END, ahead_of};

/// The address in R15 in bytes: a multiple of 4 below 2^26.
pub fn address_of(r15: u32) -> u32
    ensures address { result ≡ address_of r15 }
    ensures below { result < SPACE_END }
    ensures aligned { result % 4 ≡ 0 }
{
    r15 / 4 % 0x100_0000 * 4
}

/// N Z C V I F, with F lowest: from 0 to 63.
pub(crate) fn psr_of(r15: u32) -> u32
    ensures psr { result ≡ psr_of r15 }
    ensures small { result < 64 }
{
    r15 / 0x400_0000
}

/// The mode in R15.
pub fn mode_of(r15: u32) -> Mode
    ensures { result ≡ mode_of r15 }
{
    Mode::of(r15 % 4)
}

/// The condition flags in R15.
pub(crate) fn flags_of(r15: u32) -> Flags
    ensures { result ≡ flags_of r15 }
{
    Flags {
        negative: bit_of_word(r15, 31),
        zero: bit_of_word(r15, 30),
        carry: bit_of_word(r15, 29),
        overflow: bit_of_word(r15, 28),
    }
}

/// Whether F in R15 keeps FIQ from being taken.
pub fn is_fiq_masked(r15: u32) -> bool
    ensures { result ≡ is_fiq_masked r15 }
{
    bit_of_word(r15, 26)
}

/// Whether I in R15 keeps IRQ from being taken.
pub fn is_irq_masked(r15: u32) -> bool
    ensures { result ≡ is_irq_masked r15 }
{
    bit_of_word(r15, 27)
}

/// The address to which a branch at an address leads: `offset` is the instruction's field of 24 bits, a
/// signed number of words from `address` plus 8 on; addresses wrap at [`SPACE_END`].
#[inline(always)]
pub fn branch_target(address: u32, offset: u32) -> u32
    ensures sum { result ≡ branch_target address offset }
    ensures fits { result < SPACE_END }
    ensures aligned { address % 4 ≡ 0 → result % 4 ≡ 0 }
{
    ahead_of(address, offset.wrapping_mul(4).wrapping_add(8))
}

/// R15 of its parts: the PSR from 0 to 63, and a word address below 2^26.
pub fn r15_of(psr: u32, address: u32, mode: Mode) -> u32
    requires psr { psr < 64 }
    requires below { address < SPACE_END }
    requires aligned { address % 4 ≡ 0 }
    ensures { result ≡ r15_of psr address mode }
{
    psr * 0x400_0000 + address + mode.number()
}

/// R15 some bytes on, with its PSR and mode.
pub fn r15_ahead(r15: u32, by: u32) -> u32
    requires words { by % 4 ≡ 0 }
    requires small { by < 2 ^ 28 }
    ensures { result ≡ r15_ahead r15 by }
{
    r15_of(psr_of(r15), ahead_of(address_of(r15), by), mode_of(r15))
}

/// R15 with the address bits of a value alone.
pub fn r15_jumped(r15: u32, value: u32) -> u32
    ensures { result ≡ r15_jumped r15 value }
{
    r15_of(psr_of(r15), address_of(value), mode_of(r15))
}

/// R15 with the PSR and the mode of a value, and an address: in User mode I, F and the mode stay.
pub fn r15_restored(r15: u32, value: u32, address: u32) -> u32
    requires below { address < SPACE_END }
    requires aligned { address % 4 ≡ 0 }
    ensures { result ≡ r15_restored r15 value address }
{
    if r15 % 4 == 0 {
        return r15_of(
            value / 0x1000_0000 * 4 + psr_of(r15) % 4,
            address,
            Mode::User,
        );
    }
    r15_of(psr_of(value), address, mode_of(value))
}
