use crate::trial::{Answer, Trial};
use arcwcet::ReportFault;
use arm2_exec::{Machine, MachineFault, Reg};
use bus_ticks::Profile;
use memc::{Memc, MemcFault, PageSize, Spot};
use std::alloc::Global;

// An address in ROM, and the word that is put there.
const ADDED: (u32, u32) = (0x380_0000, 0x1234_5678);

// A word that ROM has before.
const THERE: (u32, u32) = (0x340_0000, 1);

/// The word that a privileged load finds in RAM or ROM.
pub(crate) fn word_in(memc: &Memc, address: u32) -> Option<u32> {
    match memc.locate(address % 0x400_0000, false, false) {
        Ok(Spot::Ram(place)) => Some(memc.load(Spot::Ram(place))),
        Ok(Spot::Rom(place)) => Some(memc.load(Spot::Rom(place))),
        _ => None,
    }
}

/// A call that makes a value, and changes none.
#[derive(Clone, Copy)]
pub(crate) enum NewCall {
    Memc,
    Machine,
}

// Whether the first 128 logical pages, of 4 KB, are mapped, and words of RAM and ROM are 0.
fn is_new(memc: &Memc) -> bool {
    let words = [
        word_in(memc, 0x8000),
        word_in(memc, 0x7_FFFC),
        word_in(memc, 0x8_0000),
        word_in(memc, 0x207_FFFC),
        word_in(memc, 0x380_0000),
    ];
    words == [Some(0), Some(0), None, Some(0), Some(0)]
}

fn new_memc(alloc: Global) -> Answer {
    match Memc::new(alloc, PageSize::K4) {
        Ok(memc) => Answer::of_value(is_new(&memc), memc),
        Err(MemcFault::Memory) => Answer::Refused,
    }
}

// Whether the machine is in the reset state.
fn is_reset(machine: &Machine) -> bool {
    let words = [
        machine.get(Reg::R0),
        machine.get(Reg::R14Svc),
        machine.get(Reg::R15),
    ];
    words == [0, 0, 0x0C00_0003] && is_new(machine.memc())
}

fn new_machine(alloc: Global) -> Answer {
    match Machine::new(alloc, PageSize::K4, Profile::one()) {
        Ok(machine) => Answer::of_value(is_reset(&machine), machine),
        Err(MachineFault::Memory) => Answer::Refused,
    }
}

impl NewCall {
    /// Makes the call, and answers what it did.
    pub(crate) fn made(self, alloc: Global) -> Answer {
        match self {
            NewCall::Memc => new_memc(alloc),
            NewCall::Machine => new_machine(alloc),
        }
    }
}

/// A word put into ROM where another is.
#[derive(Drop)]
pub(crate) struct AddRom {
    memc: Memc,
}

fn memc_with_rom(alloc: Global) -> Result<Memc, MachineFault> {
    let mut memc = Memc::new(alloc, PageSize::K4)?;
    memc.add_rom(alloc, &[THERE])?;
    Ok(memc)
}

impl AddRom {
    /// What there is before the call.
    pub(crate) fn new(alloc: Global) -> Result<AddRom, ReportFault> {
        Ok(AddRom {
            memc: memc_with_rom(alloc)?,
        })
    }

    fn words(&self) -> [Option<u32>; 2] {
        [word_in(&self.memc, THERE.0), word_in(&self.memc, ADDED.0)]
    }
}

impl Trial for AddRom {
    fn make(&mut self, alloc: Global) -> Result<Answer, ReportFault> {
        match self.memc.add_rom(alloc, &[ADDED]) {
            Ok(()) => Ok(Answer::of(self.words() == [Some(THERE.1), Some(ADDED.1)])),
            Err(MemcFault::Memory) => Ok(Answer::Refused),
        }
    }

    fn is_unchanged(&mut self, _alloc: Global) -> Result<bool, ReportFault> {
        Ok(self.words() == [Some(THERE.1), Some(0)])
    }
}
