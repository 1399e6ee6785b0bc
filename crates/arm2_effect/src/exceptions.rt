ghost use Rattle.std.specs.Prelude.{◌≡◌, ◌<◌, ◌%◌, false};
ghost use Rattle.arm2_effect.specs.Effects.{IsEffect, is_stopped, skipped};
ghost use Rattle.arm2_effect.specs.Exceptions.{entry_at, masked, taken};

use crate::modes::{Mode, Reg};
use crate::prices::Prices;
use crate::program_counter::{address_of, psr_of, r15_ahead, r15_of};
use crate::registers::Registers;
use crate::step_end::{Done, Kind};
use arm2_decode::Register;

/// An exception that is taken by a step.
#[derive(Clone, Copy, Debug, PartialEq, Eq)]
pub enum Vector {
    Undefined,
    Swi,
    PrefetchAbort,
    DataAbort,
    AddressException,
    Irq,
    Fiq,
}

/// Where an exception leads.
#[derive(Clone, Copy)]
pub(crate) struct Entry {
    /// In bytes.
    pub address: u32,
    pub mode: Mode,
    /// Whether F is set; I always is.
    pub masks_fiq: bool,
    /// What R14 adds to the address of the instruction, in bytes.
    pub return_offset: u32,
}

macro_rules! entry {
    ($address:literal, $mode:ident, $masks_fiq:literal, $return_offset:literal) => {
        Entry {
            address: $address,
            mode: Mode::$mode,
            masks_fiq: $masks_fiq,
            return_offset: $return_offset,
        }
    };
}

// Where an exception leads.
fn entry_at(vector: Vector) -> Entry
    ensures entry { result ≡ entry_at vector }
    ensures below { result.address < 32 }
    ensures aligned { result.address % 4 ≡ 0 }
{
    match vector {
        Vector::Undefined => entry!(0x04, Svc, false, 4),
        Vector::Swi => entry!(0x08, Svc, false, 4),
        Vector::PrefetchAbort => entry!(0x0C, Svc, false, 4),
        Vector::DataAbort => entry!(0x10, Svc, false, 8),
        Vector::AddressException => entry!(0x14, Svc, false, 8),
        Vector::Irq => entry!(0x18, Irq, false, 4),
        Vector::Fiq => entry!(0x1C, Fiq, true, 4),
    }
}

fn masked(masks_fiq: bool, psr: u32) -> u32
    requires { psr < 64 }
    ensures masked { result ≡ masked masks_fiq psr }
    ensures small { result < 64 }
{
    let fiq_mask = if masks_fiq { 1 } else { psr % 2 };
    psr / 4 * 4 + 2 + fiq_mask
}

impl Registers {
    /// Takes an exception at the instruction in R15.
    #[tactic(auto, unfolding(crate::specs::Exceptions::taken))]
    #[inline(never)]
    pub fn take(&mut self, prices: &Prices, vector: Vector) -> Done
        ensures effect { IsEffect prices.now result self.new (taken vector self.old) }
        ensures goes_on { is_stopped result.kind ≡ false }
    {
        let r15 = self.get(Reg::R15);
        let entry = entry_at(vector);
        self.write(
            entry.mode,
            Register::R14,
            r15_ahead(r15, entry.return_offset),
        );
        self.set(
            Reg::R15,
            r15_of(
                masked(entry.masks_fiq, psr_of(r15)),
                entry.address,
                entry.mode,
            ),
        );
        Done {
            kind: Kind::Taken(vector),
            ticks: prices.onward(address_of(r15), entry.address),
        }
    }

    /// Passes over the instruction in R15: its condition fails.
    #[tactic(auto, unfolding(crate::specs::Effects::skipped))]
    pub fn skip(&mut self, prices: &Prices) -> Done
        ensures effect { IsEffect prices.now result self.new (skipped self.old) }
        ensures goes_on { is_stopped result.kind ≡ false }
    {
        let r15 = self.get(Reg::R15);
        self.set(Reg::R15, r15_ahead(r15, 4));
        Done::plain(prices.straight(address_of(r15)))
    }
}
