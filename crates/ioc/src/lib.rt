//! IOC, the I/O controller, as a source of interrupts: lines, masks, latched requests and two timers.
//!
//! By our own profile, shaped on the VL86C410 data sheet. A tick is one cycle of the 8 MHz processor. Every
//! call takes constant time.
#![tactic(auto)]

mod banks;
mod countdown;
mod law;
mod lines;
mod offsets;
mod timers;

ghost use Rattle.std.specs.Prelude.{◌≡◌, ◌≤◌, ◌<◌};
ghost use Rattle.ioc.specs.Interrupts.{Controller, fresh, bit_where, status_a};
ghost use Rattle.ioc.specs.Interrupts.{status_b, status_f, fiq_of, irq_of};
ghost use Rattle.ioc.specs.Interrupts.{with_lines, with_flyback, advanced};
ghost use Rattle.ioc.specs.Registers.{byte_of, is_register, offset_of, read_at, read_of, write_at, write_of};

pub use banks::{FiqBank, IrqA, IrqB};
use bitflags::Flags;
use countdown::Countdown;
pub use law::ticks_add_up;
pub use lines::Lines;
use std::marker::Model;
use timers::{Timer, Timers};

/// IOC: what its registers hold, and the lines that come in.
#[derive(Drop)]
pub struct Ioc {
    lines: Lines,
    a2_rose: bool,
    flyback_rose: bool,
    mask_a: IrqA,
    mask_b: IrqB,
    mask_f: FiqBank,
    timers: Countdown,
}

impl Model for Ioc {
    ghost Value = { Controller };

    ghost view = { λ i. record {
      lines = i.lines.0;
      a2_rose = i.a2_rose;
      flyback_rose = i.flyback_rose;
      mask_a = i.mask_a.0;
      mask_b = i.mask_b.0;
      mask_f = i.mask_f.0;
      timers = i.timers;
    } };
}

/// The lines that come in, and whether A2 rose.
#[derive(Clone, Copy)]
pub struct LineState {
    lines: Lines,
    a2_rose: bool,
}

/// Which of the processor's two interrupts IOC asks for.
#[derive(Clone, Copy, PartialEq, Eq, Debug)]
pub struct Asserted {
    pub fiq: bool,
    pub irq: bool,
}

impl Ioc {
    /// IOC with no line active, nothing latched, all masks 0, and timers whose count, latch, output and
    /// phase are 0.
    pub fn new() -> Ioc
        ensures { result ≡ fresh }
    {
        Ioc {
            lines: Lines::empty(),
            a2_rose: false,
            flyback_rose: false,
            mask_a: IrqA::empty(),
            mask_b: IrqB::empty(),
            mask_f: FiqBank::empty(),
            timers: Countdown::new(Timers {
                phase: 0,
                timer_0: Timer::new(),
                timer_1: Timer::new(),
            }),
        }
    }

    /// Sets all lines to what they are now. [`Lines::A2`] is latched where it becomes active; the others
    /// are levels.
    #[inline(always)]
    pub fn lines(&mut self, lines: Lines)
        ensures { self.new ≡ with_lines lines.0 self.old }
    {
        let rises = lines.contains(Lines::A2) && !self.lines.contains(Lines::A2);
        self.a2_rose = self.a2_rose || rises;
        self.lines = lines;
    }

    /// What [`Ioc::lines`] changes.
    #[inline(always)]
    pub fn line_state(&self) -> LineState
        ensures lines { result.lines.0 ≡ self.now.lines }
        ensures a2_rose { result.a2_rose ≡ self.now.a2_rose }
    {
        let a2_rose = self.a2_rose;
        LineState {
            lines: self.lines,
            a2_rose,
        }
    }

    /// Sets the lines, and whether A2 rose, as they were.
    pub fn set_line_state(&mut self, state: LineState)
        ensures { self.new ≡ record self.old { lines = state.lines.0; a2_rose = state.a2_rose } }
    {
        self.lines = state.lines;
        self.a2_rose = state.a2_rose;
    }

    /// Latches a flyback, IRQ A bit 3.
    pub fn flyback(&mut self)
        ensures { self.new ≡ with_flyback self.old }
    {
        self.flyback_rose = true;
    }

    /// Lets `ticks` ticks pass, of any number. Each fourth tick decrements both timers, counted on from
    /// one call to the next. A timer moves only where neither its count nor its latch is 0; a decrement
    /// from 1 loads the latch and latches the timer's request, IRQ A bit 5 or 6.
    #[inline(always)]
    pub fn advance(&mut self, ticks: u32)
        ensures { self.new ≡ advanced ticks self.old }
    {
        self.timers.advance(ticks);
    }

    /// Whether FIQ and IRQ are asserted: each where a status and its mask share a bit.
    #[inline(always)]
    pub fn asserted(&self) -> Asserted
        ensures fiq { result.fiq ≡ fiq_of self.now }
        ensures irq { result.irq ≡ irq_of self.now }
    {
        Asserted {
            fiq: self.asserts_fiq(),
            irq: self.asserts_irq(),
        }
    }

    /// Whether FIQ is asserted.
    #[inline(always)]
    pub fn asserts_fiq(&self) -> bool
        ensures { result ≡ fiq_of self.now }
    {
        self.status_f().intersects(self.mask_f)
    }

    /// Whether IRQ is asserted, by one of its two banks.
    #[inline(always)]
    pub fn asserts_irq(&self) -> bool
        ensures { result ≡ irq_of self.now }
    {
        let a = self.status_a().intersects(self.mask_a);
        let b = self.status_b().intersects(self.mask_b);
        a || b
    }

    /// Whether an address is a register's: 3200000 to 320007F. Bits 1:0 choose no other register.
    pub fn is_register(address: u32) -> bool
        ensures { result ≡ is_register address }
    {
        address / 0x80 == 0x6_4000
    }

    /// The register at an address, a byte in bits 7:0. What can only be written, and an address that is no
    /// register's, read as 0. The request register of a bank reads its status and mask.
    #[tactic(auto, unfolding(crate::specs::Registers::read_of))]
    pub fn read(&self, address: u32) -> u32
        ensures read { result ≡ read_at address self.now }
        ensures byte { result < 0x100 }
    {
        if !Ioc::is_register(address) {
            return 0;
        }
        match offset_of(address) {
            offsets::STATUS_A => u32::from(self.status_a().bits()),
            offsets::REQUEST_A => u32::from(self.status_a().intersection(self.mask_a).bits()),
            offsets::MASK_A => u32::from(self.mask_a.bits()),
            offsets::STATUS_B => u32::from(self.status_b().bits()),
            offsets::REQUEST_B => u32::from(self.status_b().intersection(self.mask_b).bits()),
            offsets::MASK_B => u32::from(self.mask_b.bits()),
            offsets::STATUS_F => u32::from(self.status_f().bits()),
            offsets::REQUEST_F => u32::from(self.status_f().intersection(self.mask_f).bits()),
            offsets::MASK_F => u32::from(self.mask_f.bits()),
            offsets::TIMER_0_LOW => self.timers.current().timer_0.output as u32 % 0x100,
            offsets::TIMER_0_HIGH => self.timers.current().timer_0.output as u32 / 0x100,
            offsets::TIMER_1_LOW => self.timers.current().timer_1.output as u32 % 0x100,
            offsets::TIMER_1_HIGH => self.timers.current().timer_1.output as u32 / 0x100,
            _ => 0,
        }
    }

    /// Writes bits 23:16 of a word to the register at an address; what can only be read, and an address
    /// that is no register's, ignore it. A write to offset 14 clears all four latched requests (IRQ A
    /// bits 2, 3, 5 and 6) whatever its byte, where the chip clears those whose bit in the byte is 1.
    #[tactic(auto, unfolding(crate::specs::Registers::write_of))]
    pub fn write(&mut self, address: u32, word: u32)
        ensures { self.new ≡ write_at address word self.old }
    {
        if !Ioc::is_register(address) {
            return;
        }
        let byte = byte_of(word);
        let timers = self.timers.current();
        let (timer_0, timer_1) = (timers.timer_0, timers.timer_1);
        match offset_of(address) {
            offsets::REQUEST_A => {
                self.a2_rose = false;
                self.flyback_rose = false;
                let (timer_0, timer_1) = (timer_0.cleared(), timer_1.cleared());
                self.timers.set(Timers {
                    timer_0,
                    timer_1,
                    ..timers
                });
            }
            offsets::MASK_A => self.mask_a = IrqA::from_bits_retain(byte),
            offsets::MASK_B => self.mask_b = IrqB::from_bits_retain(byte),
            offsets::MASK_F => self.mask_f = FiqBank::from_bits_retain(byte),
            offsets::TIMER_0_LOW => self.set_timer_0(timer_0.with_low(byte)),
            offsets::TIMER_0_HIGH => self.set_timer_0(timer_0.with_high(byte)),
            offsets::TIMER_0_START => self.set_timer_0(timer_0.started()),
            offsets::TIMER_0_SAMPLE => self.set_timer_0(timer_0.sampled()),
            offsets::TIMER_1_LOW => self.set_timer_1(timer_1.with_low(byte)),
            offsets::TIMER_1_HIGH => self.set_timer_1(timer_1.with_high(byte)),
            offsets::TIMER_1_START => self.set_timer_1(timer_1.started()),
            offsets::TIMER_1_SAMPLE => self.set_timer_1(timer_1.sampled()),
            _ => {}
        }
    }

    fn set_timer_0(&mut self, timer_0: Timer)
        ensures { self.new ≡ record self.old { timers = record self.old.timers { timer_0 = timer_0 } } }
    {
        let timers = self.timers.current();
        self.timers.set(Timers { timer_0, ..timers });
    }

    fn set_timer_1(&mut self, timer_1: Timer)
        ensures { self.new ≡ record self.old { timers = record self.old.timers { timer_1 = timer_1 } } }
    {
        let timers = self.timers.current();
        self.timers.set(Timers { timer_1, ..timers });
    }

    fn status_a(&self) -> IrqA
        ensures { result.0 ≡ status_a self.now }
    {
        let lines = (self.lines.bits() % 4) as u8;
        let a2 = bit_where(self.a2_rose, IrqA::A2.bits());
        let flyback = bit_where(self.flyback_rose, IrqA::FLYBACK.bits());
        let timer_0 = bit_where(self.timers.requests_0(), IrqA::TIMER_0.bits());
        let timer_1 = bit_where(self.timers.requests_1(), IrqA::TIMER_1.bits());
        let always = IrqA::ALWAYS.bits();
        IrqA::from_bits_retain(lines + a2 + flyback + timer_0 + timer_1 + always)
    }

    fn status_b(&self) -> IrqB
        ensures { result.0 ≡ status_b self.now }
    {
        IrqB::from_bits_retain((self.lines.bits() / 0x100 % 0x100) as u8)
    }

    fn status_f(&self) -> FiqBank
        ensures { result.0 ≡ status_f self.now }
    {
        let lines = self.lines.bits();
        let levels = (lines / 0x1_0000 % 0x40 + lines / 0x100 % 2 * 0x40) as u8;
        FiqBank::from_bits_retain(levels + FiqBank::ALWAYS.bits())
    }
}

// A bit of a status that is set where its condition holds.
fn bit_where(on: bool, bit: u8) -> u8
    ensures bit { result ≡ bit_where on bit }
    ensures most { result ≤ bit }
{
    if on { bit } else { 0 }
}

// The offset of the register at an address, in bytes.
fn offset_of(address: u32) -> u32
    ensures { result ≡ offset_of address }
{
    address / 4 % 0x20 * 4
}

// What a word writes to a register: its bits 23 to 16.
fn byte_of(word: u32) -> u8
    ensures { result ≡ byte_of word }
{
    (word / 0x1_0000 % 0x100) as u8
}
