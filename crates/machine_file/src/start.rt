ghost use Rattle.std.specs.Prelude.{◌≡◌, ◌≤◌, ◌<◌, IfOk, length, map};
ghost use Rattle.std.specs.List.{range_with_len};
ghost use Rattle.arm2_effect.specs.Modes.{reg_number};
ghost use Rattle.memc.specs.Memory.{IsStart, shift_of_size};
ghost use Rattle.machine_file.specs.Started.{IsController, IsResetMap, IsStarted, psr_number, r15_in};
ghost use Rattle.machine_file.specs.StartWork.{AreMapped, CanMap, IsSameRest, IsUnmapped, with_words};

use crate::flags::PsrFlags;
use crate::ioc_start::set_ioc;
use crate::machine_files::MachineFile;
use crate::pages::{Controller, MappedPage};
use crate::processor::Processor;
use crate::registers::REGISTERS;
use crate::vidc_start::set_vidc;
use arm2_effect::{Reg, r15_of};
use arm2_exec::{Machine, MachineFault};
use bus_ticks::Profile;
use memc::{Memc, PHYSICAL_PAGES};
use std::alloc::Global;

fn psr_number(flags: PsrFlags) -> u32
    ensures number { result ≡ psr_number flags }
    ensures bound { result < 64 }
{
    u32::from(flags.negative) * 32
        + u32::from(flags.zero) * 16
        + u32::from(flags.carry) * 8
        + u32::from(flags.overflow) * 4
        + u32::from(flags.irq_masked) * 2
        + u32::from(flags.fiq_masked)
}

fn r15_in(processor: &Processor) -> u32
    ensures { result ≡ r15_in processor.now }
{
    let psr = psr_number(processor.flags);
    r15_of(psr, processor.pc.address, processor.mode)
}

// Puts words into the first registers.
fn set_words(machine: &mut Machine, registers: &[Reg], words: &[u32])
    requires ordered { map reg_number registers.now ≡ range_with_len 0 (length registers.now) }
    requires known { length words.now ≤ length registers.now }
    requires room { length words.now ≤ length machine.old.regs }
    ensures { machine.new ≡ with_words words.now machine.old }
{
    for (i, word) in words.iter().enumerate() {
        machine.set(registers[i], *word);
    }
}

// Takes all pages off a map as it is after a reset.
fn clear(memc: &mut Memc)
    requires { IsResetMap memc.old.paged }
    ensures gone { IsUnmapped memc.new.paged }
    ensures rest { IsSameRest memc.old memc.new }
{
    for physical in 0..PHYSICAL_PAGES {
        let _ = memc.unmap(physical);
    }
}

// Maps pages beside one another.
fn map_all(memc: &mut Memc, pages: &[MappedPage])
    requires empty { IsUnmapped memc.old.paged }
    requires can { CanMap memc.old pages.now }
    ensures map { AreMapped pages.now memc.new.paged }
    ensures rest { IsSameRest memc.old memc.new }
{
    for page in pages {
        let _ = memc.map(page.physical, page.logical, page.level);
    }
}

// Brings a memory controller from its start to the stated state.
fn set_controller(memc: &mut Memc, controller: &Controller)
    requires { IsStart (shift_of_size controller.now.size) memc.old }
    ensures { IsController controller.now memc.new }
{
    memc.control(controller.rom.low * 0x10 + controller.rom.high * 0x40);
    let pages = &controller.pages.pages;
    if !pages.is_empty() {
        clear(memc);
        map_all(memc, pages);
    }
}

impl MachineFile {
    /// The machine in the stated state, with the prices of a profile: as it is after a reset, but for the
    /// registers, the page size, the ROM time fields, where pages are mapped the page map, and what the file
    /// states of IOC and VIDC. The file's words are not put into its memory.
    ///
    /// # Errors
    ///
    /// `Memory`: an allocation failed.
    pub fn machine(&self, alloc: Global, profile: Profile) -> Result<Machine, MachineFault>
        ensures { IfOk result (λ machine. IsStarted self.now profile machine) }
    {
        let mut machine = Machine::new(alloc, self.page_size(), profile)?;
        set_words(&mut machine, &REGISTERS, self.registers());
        machine.set(Reg::R15, r15_in(&self.processor));
        set_controller(machine.memc_mut(), &self.controller);
        set_ioc(machine.ioc_mut(), &self.ioc);
        set_vidc(machine.vidc_mut(), &self.vidc);
        Ok(machine)
    }
}
