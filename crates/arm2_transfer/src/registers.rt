ghost use Rattle.std.specs.Prelude.{◌≡◌};
ghost use Rattle.arm2_transfer.specs.Registers.{given, with_loaded, with_base};
ghost use Rattle.arm2_transfer.specs.Registers.{passed, loaded_r15};

use arm2_decode::Register;
use arm2_effect::{Mode, Reg, Registers, address_of, r15_ahead, r15_jumped, r15_restored};

/// What a store takes from a register.
#[inline(always)]
pub(crate) fn given(registers: &Registers, mode: Mode, register: Register) -> u32
    ensures { result ≡ given mode register registers.now }
{
    if register.is_pc() {
        r15_ahead(registers.get(Reg::R15), 12)
    } else {
        registers.read(mode, register)
    }
}

fn loaded_r15(psr: bool, r15: u32, word: u32) -> u32
    ensures { result ≡ loaded_r15 psr r15 word }
{
    if psr {
        r15_restored(r15, word, address_of(word))
    } else {
        r15_jumped(r15, word)
    }
}

/// How a load enters words into the registers.
#[derive(Clone, Copy)]
pub struct Loading {
    /// Whether the PSR comes along with R15.
    pub psr: bool,
    /// Whose registers are loaded.
    pub mode: Mode,
    /// R15 as it was before the instruction.
    pub r15: u32,
}

/// A loaded word enters its register.
#[inline(always)]
pub(crate) fn enter(registers: &mut Registers, loading: Loading, register: Register, word: u32)
    ensures { registers.new
        ≡ with_loaded loading.psr loading.mode loading.r15 register word registers.old }
{
    if register.is_pc() {
        registers.set(Reg::R15, loaded_r15(loading.psr, loading.r15, word));
    } else {
        registers.write(loading.mode, register, word);
    }
}

/// The base is written back, where it is.
#[inline(always)]
pub(crate) fn write_base(
    registers: &mut Registers,
    write_back: bool,
    mode: Mode,
    rn: Register,
    base: u32,
)
    ensures { registers.new ≡ with_base write_back mode rn base registers.old }
{
    if write_back {
        registers.write(mode, rn, base);
    }
}

/// R15 goes on by one instruction.
#[inline(always)]
pub(crate) fn pass(registers: &mut Registers)
    ensures { registers.new ≡ passed registers.old }
{
    let r15 = registers.get(Reg::R15);
    registers.set(Reg::R15, r15_ahead(r15, 4));
}
