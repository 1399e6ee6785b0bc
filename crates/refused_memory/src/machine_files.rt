use crate::trial::Answer;
use arcwcet::ReportFault;
use arm2_effect::{Mode, Reg};
use arm2_exec::{Input, Machine};
use bitflags::Flags;
use bus_ticks::Profile;
use ioc::Lines;
use machine_file::{
    ControllerParts, Event, MachineFile, MachineFileFault, MachineParts, MappedPage,
    ProcessorParts, ProfileFileFault, PsrFlags, ScheduleParts, read_machine, read_profile,
    write_machine,
};
use memc::PageSize;
use std::alloc::{AllocError, Global};

const MACHINE: &[u8] = b"pc = 0x8000\nmode = \"irq\"\npages = 32\nsteps = 3\n\
    [registers]\nr14_irq = 0x1010\n[[map]]\nlogical = 1\nphysical = 5\nlevel = 0\n\
    [[event]]\nstep = 1\nbursts = 7\n[[word]]\nat = 0x8010\nvalue = 9\n";

const PROFILE: &[u8] = b"n = 3\ns = 1\nquad = 2\nrom = [5, 4, 3, 2]\nio = [8, 6, 5, 10]\n\
    control = 2\nunfitted = 2\ninternal = 1\nburst = 8\n";

// The profile's numbers, in the order of its fields.
const NUMBERS: [u32; 15] = [3, 1, 2, 5, 4, 3, 2, 8, 6, 5, 10, 2, 2, 1, 8];

// Where R14 of IRQ mode is among the registers.
const R14_IRQ: usize = 23;

const RETURN: u32 = 0x1010;

const WORD: (u32, u32) = (0x8010, 9);

const PAGE: MappedPage = MappedPage {
    logical: 1,
    physical: 5,
    level: 0,
};

const EVENT: Event = Event {
    bursts: 7,
    lines: None,
    port: None,
};

/// A call on machine files and profiles. None changes a value.
#[derive(Clone, Copy)]
pub(crate) enum MachineFileCall {
    Read,
    ReadProfile,
    Write,
    OfParts,
    Machine,
    Inputs,
}

// Whether the file states the machine, events aside.
fn states_machine(file: &MachineFile) -> bool {
    let numbers = [file.pc(), file.steps(), file.port()];
    numbers == [0x8000, 3, 0]
        && matches!(file.mode(), Mode::Irq)
        && file.page_size() == PageSize::K32
        && file.registers().get(R14_IRQ).copied() == Some(RETURN)
        && file.pages() == [PAGE].as_slice()
        && file.words() == [WORD].as_slice()
}

// Whether the file states the machine without events.
fn states_only(file: &MachineFile) -> bool {
    states_machine(file) && file.events().is_empty()
}

fn has_event(file: &MachineFile) -> bool {
    file.events().get(&1).copied() == Some(EVENT)
}

fn read(alloc: Global) -> Answer {
    match read_machine(alloc, MACHINE) {
        Ok(file) => Answer::of_value(states_machine(&file) && has_event(&file), file),
        Err(MachineFileFault::Memory) => Answer::Refused,
        Err(_) => Answer::Wrong,
    }
}

fn priced(alloc: Global) -> Answer {
    match read_profile(alloc, PROFILE) {
        Ok(profile) => Answer::of(profile.numbers() == NUMBERS),
        Err(ProfileFileFault::Memory) => Answer::Refused,
        Err(_) => Answer::Wrong,
    }
}

fn processor() -> ProcessorParts {
    let mut registers = [0; 26];
    registers[R14_IRQ] = RETURN;
    ProcessorParts {
        pc: 0x8000,
        mode: Mode::Irq,
        flags: PsrFlags {
            negative: false,
            zero: false,
            carry: false,
            overflow: false,
            irq_masked: true,
            fiq_masked: true,
        },
        registers,
    }
}

fn parts(alloc: Global) -> Result<MachineParts, AllocError> {
    let pages = Vec::from_slice(alloc, &[PAGE])?;
    let words = Vec::from_slice(alloc, &[WORD])?;
    Ok(MachineParts {
        processor: processor(),
        controller: ControllerParts {
            size: PageSize::K32,
            low_rom: 0,
            high_rom: 0,
            pages,
        },
        schedule: ScheduleParts { steps: 3, port: 0 },
        words,
    })
}

fn of_parts(alloc: Global) -> Result<Answer, ReportFault> {
    let parts = parts(alloc)?;
    Ok(match MachineFile::of_parts(alloc, parts) {
        Ok(file) => Answer::of_value(states_only(&file), file),
        Err(MachineFileFault::Memory) => Answer::Refused,
        Err(_) => Answer::Wrong,
    })
}

// Whether the text is read back as the machine that was written.
fn read_back(alloc: Global, text: &str) -> Result<Answer, ReportFault> {
    let file = read_machine(alloc, text.as_bytes())?;
    Ok(Answer::of_value(states_only(&file), file))
}

fn written_file(alloc: Global, file: &MachineFile) -> Result<Answer, ReportFault> {
    if !file.events().is_empty() {
        return Ok(Answer::Wrong);
    }
    match write_machine(alloc, file) {
        Ok(text) => read_back(alloc, text.as_str()),
        Err(_) => Ok(Answer::Refused),
    }
}

fn written(alloc: Global) -> Result<Answer, ReportFault> {
    let parts = parts(alloc)?;
    let file = MachineFile::of_parts(alloc, parts)?;
    let answer = written_file(alloc, &file);
    drop(file);
    answer
}

fn is_started(machine: &Machine) -> bool {
    let words = [machine.get(Reg::R15), machine.get(Reg::R14Irq)];
    words == [0x0C00_8002, RETURN]
}

fn started(alloc: Global) -> Result<Answer, ReportFault> {
    let file = read_machine(alloc, MACHINE)?;
    let answer = match file.machine(alloc, Profile::one()) {
        Ok(machine) => Answer::of_value(is_started(&machine), machine),
        Err(_) => Answer::Refused,
    };
    drop(file);
    Ok(answer)
}

/// So many bursts, and no interrupts.
pub(crate) fn input(bursts: u16) -> Input {
    Input {
        bursts,
        lines: Lines::empty(),
        port: 0,
    }
}

fn inputs(alloc: Global) -> Result<Answer, ReportFault> {
    let file = read_machine(alloc, MACHINE)?;
    let answer = match file.inputs(alloc) {
        Ok(inputs) => Answer::of(inputs.as_slice() == [input(0), input(7), input(0)].as_slice()),
        Err(_) => Answer::Refused,
    };
    drop(file);
    Ok(answer)
}

impl MachineFileCall {
    /// Makes the call, and answers what it did.
    pub(crate) fn made(self, alloc: Global) -> Result<Answer, ReportFault> {
        match self {
            MachineFileCall::Read => Ok(read(alloc)),
            MachineFileCall::ReadProfile => Ok(priced(alloc)),
            MachineFileCall::Write => written(alloc),
            MachineFileCall::OfParts => of_parts(alloc),
            MachineFileCall::Machine => started(alloc),
            MachineFileCall::Inputs => inputs(alloc),
        }
    }
}
