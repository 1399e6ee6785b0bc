use crate::trial::{Answer, Trial};
use arcwcet::ReportFault;
use arm2_exec::{Machine, Reg};
use assembler::assemble;
use bus_ticks::Profile;
use debugger::{DebugFault, Session};
use loader::{Labels, load};
use memc::PageSize;
use std::alloc::Global;
use std::str;

// A loop whose round takes 1 and 4 ticks.
const LOOP: &[u8] = b"round ADD R0,R0,#1\n B round\n";

const ADD: &str = "00008000 E2800001 1 ADD R0,R0,#1";

const BRANCH: &str = "00008004 EAFFFFFD 4 B &8000";

// SVC mode at 8000, with both interrupts masked.
const REGISTERS: &[u8] = b"R0=00000000 R1=00000000 R2=00000000 R3=00000000
R4=00000000 R5=00000000 R6=00000000 R7=00000000
R8=00000000 R9=00000000 R10=00000000 R11=00000000
R12=00000000 R13=00000000 R14=00000000 R15=0C008003
";

const NO_TICKS: &[u8] = b"ticks 0 elapsed 0\n";

// 512 rounds, and 7 bursts of 6 ticks in the first step alone.
const ALL_TICKS: &[u8] = b"ticks 2560 elapsed 2602\n";

const BREAKS: &[u8] = b"00009000\n";

/// A command of the debugger that takes memory.
#[derive(Clone, Copy)]
pub(crate) enum Command {
    /// 1024 steps.
    Step,
    /// The same, of which only the last is shown.
    Run,
    Registers,
    Ticks,
    Words,
    Lines,
    Breaks,
}

impl Command {
    fn line(self) -> &'static [u8] {
        match self {
            Command::Step => b"step 1024",
            Command::Run => b"run 1024",
            Command::Registers => b"regs",
            Command::Ticks => b"ticks",
            Command::Words => b"mem &8000 2",
            Command::Lines => b"dis &8000 2",
            Command::Breaks => b"break",
        }
    }

    fn is_answered(self, answer: &[u8]) -> bool {
        match self {
            Command::Step => is_traced(answer),
            Command::Run => answer == b"00008004 EAFFFFFD 4 B &8000\n".as_slice(),
            Command::Registers => answer == REGISTERS,
            Command::Ticks => answer == NO_TICKS,
            Command::Words => answer == b"00008000 E2800001\n00008004 EAFFFFFD\n".as_slice(),
            Command::Lines => {
                answer == b"00008000 E2800001 ADD R0,R0,#1\n00008004 EAFFFFFD B &8000\n".as_slice()
            }
            Command::Breaks => answer == BREAKS,
        }
    }

    // What `ticks` answers after the command.
    fn ticks_after(self) -> &'static [u8] {
        match self {
            Command::Step | Command::Run => ALL_TICKS,
            _ => NO_TICKS,
        }
    }
}

// Whether the answer has the lines of 512 rounds.
fn is_traced(answer: &[u8]) -> bool {
    let Ok(text) = str::from_utf8(answer) else {
        return false;
    };
    let mut lines = 0u32;
    for line in text.lines() {
        let wanted = if lines % 2 == 0 { ADD } else { BRANCH };
        if line != wanted {
            return false;
        }
        lines = lines.saturating_add(1);
    }
    lines == 1024 && text.ends_with("\n")
}

/// A session at the start of the loop, with a breakpoint and 7 bursts in its next step, and a command of it.
#[derive(Drop)]
pub(crate) struct Obeyed {
    session: Session,
    command: Command,
}

fn load_loop(alloc: Global, machine: &mut Machine) -> Result<(), ReportFault> {
    let said = assemble(alloc, LOOP)?;
    let loaded = load(alloc, machine, &said.image);
    drop(said);
    Ok(loaded?)
}

fn machine(alloc: Global) -> Result<Machine, ReportFault> {
    let mut machine = Machine::new(alloc, PageSize::K4, Profile::one())?;
    match load_loop(alloc, &mut machine) {
        Ok(()) => {
            machine.set(Reg::R15, 0x0C00_8003);
            Ok(machine)
        }
        Err(fault) => {
            drop(machine);
            Err(fault)
        }
    }
}

impl Obeyed {
    /// What there is before the call.
    pub(crate) fn new(alloc: Global, command: Command) -> Result<Obeyed, ReportFault> {
        let session = Session::new(machine(alloc)?);
        let mut obeyed = Obeyed { session, command };
        match obeyed.set_up(alloc) {
            Ok(()) => Ok(obeyed),
            Err(fault) => {
                drop(obeyed);
                Err(fault)
            }
        }
    }

    fn set_up(&mut self, alloc: Global) -> Result<(), ReportFault> {
        if self.has_answer(alloc, b"burst 7", b"")?
            && self.has_answer(alloc, b"break &9000", b"")?
        {
            Ok(())
        } else {
            Err(ReportFault::Device)
        }
    }

    // Whether the session answers a line so.
    fn has_answer(
        &mut self,
        alloc: Global,
        line: &[u8],
        wanted: &[u8],
    ) -> Result<bool, ReportFault> {
        match self.session.command(alloc, &Labels::new(alloc), line) {
            Ok(answer) => Ok(answer.as_slice() == wanted),
            Err(DebugFault::Memory) => Err(ReportFault::Memory),
            Err(_) => Ok(false),
        }
    }
}

impl Trial for Obeyed {
    fn make(&mut self, alloc: Global) -> Result<Answer, ReportFault> {
        let is_right = match self
            .session
            .command(alloc, &Labels::new(alloc), self.command.line())
        {
            Ok(answer) => self.command.is_answered(&answer),
            Err(DebugFault::Memory) => return Ok(Answer::Refused),
            Err(_) => return Ok(Answer::Wrong),
        };
        let has_ticks = self.has_answer(alloc, b"ticks", self.command.ticks_after())?;
        Ok(Answer::of(is_right && has_ticks))
    }

    // The bursts show once the command is made again: in what `ticks` answers after it.
    fn is_unchanged(&mut self, alloc: Global) -> Result<bool, ReportFault> {
        Ok(
            self.has_answer(alloc, b"regs", REGISTERS)?
                && self.has_answer(alloc, b"ticks", NO_TICKS)?
                && self.has_answer(alloc, b"break", BREAKS)?,
        )
    }
}
