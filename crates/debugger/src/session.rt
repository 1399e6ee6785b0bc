ghost use Rattle.std.specs.Prelude.{◌≡◌, ◌⊎◌, ◌+◌, ◌*◌, ◌<◌, ◌≤◌, ◌≢◌, nat_lt, slice_index, true, false};
ghost use Rattle.std.specs.Prelude.{IfOk, IfErr, OnErr, OnOk, MatchOption, length};
ghost use Rattle.std.specs.List.{prefix_len};
ghost use Rattle.bus_ticks.specs.declared.space.TheConstants.{SPACE_END};
ghost use Rattle.image.specs.Labels.{address_of};
ghost use Rattle.text_trace.specs.TraceText.{registers_text, ticks_text};
ghost use Rattle.debugger.specs.Answers.{Answers, AnswersLine, AnswersRun, AnswersStep, AreSeen, HasGap};
ghost use Rattle.debugger.specs.Answers.{IsStopped, Refuses, RefusesLine, Sets, ShowsSpan, breaks_text};
ghost use Rattle.debugger.specs.Answers.{seen, switched};
ghost use Rattle.debugger.specs.Commands.{IsInRange};
ghost use Rattle.debugger.specs.SessionState.{Ascending, begun, moved_on, toggled};

use crate::command::{Command, MOST_SHOWN_STEPS, MOST_SHOWN_WORDS, MOST_STEPS};
use crate::fault::DebugFault;
use crate::printed::put_trace;
use crate::reading::command_of;
use crate::rows::{ROW_ROOM, Row, put_breaks, put_rows};
use crate::stepping::{put_steps, run_watched};
use arm2_exec::{Input, Machine, Ran};
use arrayvec::ArrayVec;
use bitflags::Flags;
use image::Labels;
use ioc::Lines;
use memc::Spot;
use std::alloc::Global;
use std::marker::Model;
use text_trace::{LINE_ROOM, write_registers, write_ticks};

// The most breakpoints.
const MOST_BREAKS: usize = 16;

/// A machine that is stepped by commands, with its breakpoints, the inputs of its next step, and the sums of
/// its ticks.
#[derive(Drop)]
pub struct Session {
    machine: Machine,
    breaks: ArrayVec<u32, MOST_BREAKS>,
    next: Input,
    ticks: u128,
    elapsed: u128,
}

impl Model for Session {
    ghost use Rattle.std.specs.Prelude.{◌≤◌, length};
    ghost use Rattle.debugger.specs.SessionState.{Ascending, SessionState};

    ghost Value = { SessionState };

    ghost view = { λ s. record {
      machine = s.machine;
      breaks = s.breaks.items;
      next = s.next;
      ticks = s.ticks;
      elapsed = s.elapsed;
    } };

    ghost invariant = { λ s. Ascending s.breaks.items };
}

impl Session {
    /// A session without breakpoints, with no line active, the port's word 0 and sums of 0.
    pub fn new(machine: Machine) -> Session
        ensures { result ≡ begun machine 0 }
    {
        Session::with_port(machine, 0)
    }

    /// A session with a word for the port.
    pub(crate) fn with_port(machine: Machine, port: u32) -> Session
        ensures { result ≡ begun machine port }
    {
        Session {
            machine,
            breaks: ArrayVec::new(),
            next: Input {
                bursts: 0,
                lines: Lines::empty(),
                port,
            },
            ticks: 0,
            elapsed: 0,
        }
    }

    /// Obeys one command line, without its end. The answer's lines end with LF; a setting answers nothing,
    /// and so does a line without words. An address A is a number, or else one of the labels.
    ///
    /// - `step N`, 1 to 1024 steps, 1 where there is no number: their trace lines, up to a step that is
    ///   stopped.
    /// - `run N`, 1 to 65,536 steps: the last trace line. It ends before a step that is stopped, and after
    ///   its first step also before the instruction at a breakpoint.
    /// - `break A` adds a breakpoint or removes it, 16 at most; `break` lists them, ascending.
    /// - `regs`: the registers. `ticks`: the sums of the processor's ticks in all runs, and of the ticks that
    ///   passed meanwhile, bursts and all; each stays at 2^128 - 1.
    /// - `mem A N`, `dis A N`: 1 to 16 words of RAM or ROM from an address, as a privileged load finds them.
    /// - `burst N`, 0 to 65,535: DMA bursts in the next step alone. `line NAME on` and `off`, `port N`: IOC's
    ///   interrupt lines, by their names in machine files, and the port's word from the next step on.
    ///
    /// A refused command, also one that memory refuses, leaves the session as it was.
    ///
    /// # Errors
    ///
    /// `UnknownCommand` and `BadNumber` by the line alone. Of a command that is spelled well: `NoPage` of
    /// `mem` and `dis`, `MachineStopped` of `step` and `run`, `TooManyBreaks` of `break`. `Memory`: an
    /// allocation failed, of any command.
    pub fn command(
        &mut self,
        alloc: Global,
        labels: &Labels,
        line: &[u8],
    ) -> Result<Vec<u8>, DebugFault>
        ensures ok { IfOk result
            (λ answer. AnswersLine (address_of labels.now) self.old line.now answer.items self.new) }
        ensures fault { IfErr result
            (λ fault. (fault ≡ DebugFault.Memory)
            ⊎ RefusesLine (address_of labels.now) self.old line.now fault) }
        ensures unchanged { OnErr result (self.new ≡ self.old) }
    {
        let command = command_of(labels, line)?;
        self.obey(alloc, command)
    }

    fn obey(&mut self, alloc: Global, command: Command) -> Result<Vec<u8>, DebugFault>
        requires { IsInRange command }
        ensures ok { IfOk result (λ answer. Answers self.old command answer.items self.new) }
        ensures fault { IfErr result (λ fault. (fault ≡ DebugFault.Memory) ⊎ Refuses self.old command fault) }
        ensures unchanged { OnErr result (self.new ≡ self.old) }
    {
        let next = self.next;
        match command {
            Command::Nothing => Ok(Vec::new(alloc)),
            Command::Step(steps) => self.step(alloc, steps),
            Command::Run(steps) => self.run(alloc, steps),
            Command::ListBreaks => self.list_breaks(alloc),
            Command::Break(address) => self.toggle(alloc, address),
            Command::Regs => self.registers(alloc),
            Command::Mem(address, count) => self.span(alloc, Row::Word, address, count),
            Command::Dis(address, count) => self.span(alloc, Row::Line, address, count),
            Command::Ticks => self.sums(alloc),
            Command::Burst(bursts) => Ok(self.set(alloc, Input { bursts, ..next })),
            Command::Line(line, on) => {
                let lines = switched(line, on, next.lines);
                Ok(self.set(alloc, Input { lines, ..next }))
            }
            Command::Port(port) => Ok(self.set(alloc, Input { port, ..next })),
        }
    }

    fn step(&mut self, alloc: Global, steps: u32) -> Result<Vec<u8>, DebugFault>
        requires { (1 ≤ steps) × (steps ≤ MOST_SHOWN_STEPS) }
        ensures ok { IfOk result (λ answer. AnswersStep self.old steps answer.items self.new) }
        ensures fault { IfErr result
            (λ fault. (fault ≡ DebugFault.Memory)
            ⊎ ((fault ≡ DebugFault.MachineStopped) × IsStopped self.old)) }
        ensures unchanged { OnErr result (self.new ≡ self.old) }
    {
        let mut answer = Vec::with_capacity(alloc, steps as usize * LINE_ROOM)?;
        let ran = put_steps(&mut answer, &mut self.machine, self.next, steps);
        if ran.steps == 0 {
            return Err(DebugFault::MachineStopped);
        }
        self.settle(ran);
        Ok(answer)
    }

    fn run(&mut self, alloc: Global, steps: u32) -> Result<Vec<u8>, DebugFault>
        requires { (1 ≤ steps) × (steps ≤ MOST_STEPS) }
        ensures ok { IfOk result (λ answer. AnswersRun self.old steps answer.items self.new) }
        ensures fault { IfErr result
            (λ fault. (fault ≡ DebugFault.Memory)
            ⊎ ((fault ≡ DebugFault.MachineStopped) × IsStopped self.old)) }
        ensures unchanged { OnErr result (self.new ≡ self.old) }
    {
        let mut answer = Vec::with_capacity(alloc, LINE_ROOM)?;
        let breaks = self.breaks.as_slice();
        let watched = run_watched(&mut self.machine, breaks, self.next, steps);
        let Some(last) = watched.last else {
            return Err(DebugFault::MachineStopped);
        };
        put_trace(&mut answer, &last);
        self.settle(watched.ran);
        Ok(answer)
    }

    // What a run of the machine leaves of the inputs and the sums.
    fn settle(&mut self, ran: Ran)
        ensures { self.new ≡ moved_on self.old ran self.old.machine }
    {
        self.next.bursts = 0;
        self.ticks = self.ticks.saturating_add(ran.ticks);
        self.elapsed = self.elapsed.saturating_add(ran.elapsed);
    }

    // The inputs of the next step are set.
    fn set(&mut self, alloc: Global, next: Input) -> Vec<u8>
        ensures { Sets result.items self.new (record self.old { next = next }) }
    {
        self.next = next;
        Vec::new(alloc)
    }

    fn toggle(&mut self, alloc: Global, address: u32) -> Result<Vec<u8>, DebugFault>
        ensures ok { IfOk result
            (λ answer. (length (toggled address self.old.breaks) ≤ MOST_BREAKS)
            × Sets answer.items self.new (record self.old { breaks = toggled address self.old.breaks })) }
        ensures fault { IfErr result
            (λ fault. (fault ≡ DebugFault.TooManyBreaks)
            × (MOST_BREAKS < length (toggled address self.old.breaks))) }
        ensures unchanged { OnErr result (self.new ≡ self.old) }
    {
        toggle_break(&mut self.breaks, address)?;
        Ok(Vec::new(alloc))
    }

    fn list_breaks(&self, alloc: Global) -> Result<Vec<u8>, DebugFault>
        ensures ok { IfOk result
            (λ answer. Ascending self.now.breaks × (answer.items ≡ breaks_text self.now.breaks)) }
        ensures fault { IfErr result (λ fault. fault ≡ DebugFault.Memory) }
    {
        let mut answer = Vec::with_capacity(alloc, MOST_BREAKS * 9)?;
        put_breaks(&mut answer, self.breaks.as_slice());
        Ok(answer)
    }

    fn registers(&self, alloc: Global) -> Result<Vec<u8>, DebugFault>
        ensures ok { IfOk result (λ answer. answer.items ≡ registers_text self.now.machine.regs) }
        ensures fault { IfErr result (λ fault. fault ≡ DebugFault.Memory) }
    {
        let mut text = String::new(alloc);
        write_registers(&mut text, &self.machine)?;
        Ok(text.into_bytes())
    }

    fn sums(&self, alloc: Global) -> Result<Vec<u8>, DebugFault>
        ensures ok { IfOk result (λ answer. answer.items ≡ ticks_text self.now.ticks self.now.elapsed) }
        ensures fault { IfErr result (λ fault. fault ≡ DebugFault.Memory) }
    {
        let mut text = String::new(alloc);
        write_ticks(&mut text, self.ticks, self.elapsed)?;
        Ok(text.into_bytes())
    }

    // The word that a privileged load finds in RAM or ROM.
    fn seen(&self, address: u32) -> Option<u32>
        requires { address < SPACE_END }
        ensures { result ≡ seen self.now.machine.bus.memc address }
    {
        let memc = self.machine.memc();
        match memc.locate(address, false, false) {
            Ok(spot @ (Spot::Ram(_) | Spot::Rom(_))) => Some(memc.load(spot)),
            _ => None,
        }
    }

    fn words(&self, address: u32, count: u32) -> Option<ArrayVec<u32, MOST_SHOWN_WORDS>>
        requires { (address + 4 * count ≤ SPACE_END) × (count ≤ MOST_SHOWN_WORDS) }
        ensures { MatchOption result (HasGap self.now.machine.bus.memc address count)
            (λ words. AreSeen self.now.machine.bus.memc address words.items × (length words.items ≡ count)) }
    {
        let mut words = ArrayVec::new();
        for k in 0..count {
            let word = self.seen(address + 4 * k)?;
            words.push(word);
        }
        Some(words)
    }

    fn span(&self, alloc: Global, row: Row, address: u32, count: u32) -> Result<Vec<u8>, DebugFault>
        requires { (address + 4 * count ≤ SPACE_END) × (count ≤ MOST_SHOWN_WORDS) }
        ensures ok { IfOk result
            (λ answer. ShowsSpan row self.now.machine.bus.memc address count answer.items) }
        ensures fault { IfErr result
            (λ fault. (fault ≡ DebugFault.Memory)
            ⊎ ((fault ≡ DebugFault.NoPage) × HasGap self.now.machine.bus.memc address count)) }
    {
        let mut answer = Vec::with_capacity(alloc, count as usize * ROW_ROOM)?;
        let Some(words) = self.words(address, count) else {
            return Err(DebugFault::NoPage);
        };
        put_rows(&mut answer, row, address, words.as_slice());
        Ok(answer)
    }
}

// The lines, with one of them active or not.
fn switched(line: Lines, on: bool, lines: Lines) -> Lines
    ensures { result ≡ switched line on lines }
{
    let mut lines = lines;
    lines.set(line, on);
    lines
}

// The number of breakpoints below an address.
fn below(breaks: &ArrayVec<u32, MOST_BREAKS>, address: u32) -> usize
    ensures len { result ≡ prefix_len (λ a. nat_lt a address) breaks.now.items }
    ensures within { result ≤ length breaks.now.items }
    ensures fits { length breaks.now.items ≤ MOST_BREAKS }
{
    breaks
        .as_slice()
        .iter()
        .take_while(|a| **a < address)
        .count()
}

fn has_at(breaks: &ArrayVec<u32, MOST_BREAKS>, at: usize, address: u32) -> bool
    ensures yes { result ≡ true
        → (at < length breaks.now.items) × (slice_index breaks.now.items at ≡ address) }
    ensures no { result ≡ false → at < length breaks.now.items → slice_index breaks.now.items at ≢ address }
{
    let breaks = breaks.as_slice();
    if at >= breaks.len() {
        return false;
    }
    breaks[at] == address
}

// Removes a breakpoint that is set, or adds it.
fn toggle_break(breaks: &mut ArrayVec<u32, MOST_BREAKS>, address: u32) -> Result<(), DebugFault>
    requires { Ascending breaks.old.items }
    ensures ok { OnOk result (breaks.new.items ≡ toggled address breaks.old.items) }
    ensures few { OnOk result (length (toggled address breaks.old.items) ≤ MOST_BREAKS) }
    ensures ascending { Ascending breaks.new.items }
    ensures fault { IfErr result
        (λ fault. (fault ≡ DebugFault.TooManyBreaks)
        × (MOST_BREAKS < length (toggled address breaks.old.items))) }
    ensures unchanged { OnErr result (breaks.new.items ≡ breaks.old.items) }
{
    let at = below(breaks, address);
    let is_set = has_at(breaks, at, address);
    if is_set {
        breaks.remove(at);
        return Ok(());
    }
    if breaks.is_full() {
        return Err(DebugFault::TooManyBreaks);
    }
    breaks.insert(at, address);
    Ok(())
}
