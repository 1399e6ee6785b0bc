//! IOC brought from a reset to where a machine starts, by what a program writes to its registers.

ghost use Rattle.std.specs.Prelude.{◌≡◌, ◌<◌, ◌%◌, ◌||◌};
ghost use Rattle.ioc.specs.Interrupts.{advanced, fresh};
ghost use Rattle.ioc.specs.Registers.{write_of};
ghost use Rattle.machine_file.specs.Started.{ioc_start};
ghost use Rattle.machine_file.specs.StartWork.{first_of, near_request, on_timer, with_latch, with_masks};
ghost use Rattle.machine_file.specs.StartWork.{with_numbers, with_requests, with_start};

use crate::ioc_settings::{IocSetting, TimerSetting};
use bitflags::Flags;
use ioc::{Ioc, IrqA, Lines};

// Where IOC's registers begin.
const REGISTERS: u32 = 0x320_0000;

// The offsets of the masks of IRQ A, IRQ B and FIQ.
const MASK_A: u32 = 0x18;

const MASK_B: u32 = 0x28;

const MASK_F: u32 = 0x38;

/// One of the two timers.
#[derive(Clone, Copy)]
pub(crate) enum TimerName {
    Timer0,
    Timer1,
}

// Writes a byte to the register at an offset.
fn write(ioc: &mut Ioc, offset: u32, byte: u8)
    requires below { offset < 0x80 }
    requires aligned { offset % 4 ≡ 0 }
    ensures { ioc.new ≡ write_of offset byte ioc.old }
{
    ioc.write(REGISTERS + offset, u32::from(byte) * 0x1_0000);
}

// ## Timers

// The offset of a timer's first register: its latch's low byte. The high byte is at 4 more, and a write at 8
// more has the latch as the count.
fn first_of(timer: TimerName) -> u32
    ensures first { result ≡ first_of timer }
    ensures below { result < 0x70 }
    ensures aligned { result % 4 ≡ 0 }
{
    match timer {
        TimerName::Timer0 => 0x40,
        TimerName::Timer1 => 0x50,
    }
}

fn set_latch(ioc: &mut Ioc, timer: TimerName, latch: u16)
    ensures { ioc.new ≡ on_timer timer (with_latch latch) ioc.old }
{
    let first = first_of(timer);
    write(ioc, first, (latch % 0x100) as u8);
    write(ioc, first + 4, (latch / 0x100) as u8);
}

// Has the latch as the count.
fn start(ioc: &mut Ioc, timer: TimerName)
    ensures { ioc.new ≡ on_timer timer with_start ioc.old }
{
    write(ioc, first_of(timer) + 8, 0);
}

fn set_timer(ioc: &mut Ioc, timer: TimerName, setting: TimerSetting)
    ensures { ioc.new ≡ on_timer timer (with_numbers setting) ioc.old }
{
    set_latch(ioc, timer, setting.count.unwrap_or(setting.latch));
    start(ioc, timer);
    set_latch(ioc, timer, setting.latch);
}

// ## Latched requests

fn raise_a2(ioc: &mut Ioc, raise: bool)
    requires { ioc.old.lines ≡ 0 }
    ensures { ioc.new ≡ record ioc.old { a2_rose = ioc.old.a2_rose || raise } }
{
    if raise {
        ioc.lines(Lines::A2);
        ioc.lines(Lines::empty());
    }
}

fn raise_flyback(ioc: &mut Ioc, raise: bool)
    ensures { ioc.new ≡ record ioc.old { flyback_rose = ioc.old.flyback_rose || raise } }
{
    if raise {
        ioc.flyback();
    }
}

// The next decrement of the timer latches its request, if it is to do so.
fn bring_near(ioc: &mut Ioc, timer: TimerName, raise: bool)
    ensures { ioc.new ≡ on_timer timer (near_request raise) ioc.old }
{
    if raise {
        set_latch(ioc, timer, 1);
        start(ioc, timer);
    }
}

// Latches requests. Four ticks have one decrement.
fn raise(ioc: &mut Ioc, requests: IrqA)
    requires { ioc.old ≡ fresh }
    ensures { ioc.new ≡ advanced 4 (with_requests requests.0 fresh) }
{
    raise_a2(ioc, requests.contains(IrqA::A2));
    raise_flyback(ioc, requests.contains(IrqA::FLYBACK));
    bring_near(ioc, TimerName::Timer0, requests.contains(IrqA::TIMER_0));
    bring_near(ioc, TimerName::Timer1, requests.contains(IrqA::TIMER_1));
    ioc.advance(4);
}

// ## All of IOC

fn set_masks(ioc: &mut Ioc, setting: &IocSetting)
    ensures { ioc.new ≡ with_masks setting.now ioc.old }
{
    write(ioc, MASK_A, setting.mask_a);
    write(ioc, MASK_B, setting.mask_b);
    write(ioc, MASK_F, setting.mask_fiq);
}

/// Brings IOC from its reset to the stated state.
pub(crate) fn set_ioc(ioc: &mut Ioc, setting: &IocSetting)
    requires { ioc.old ≡ fresh }
    ensures { ioc.new ≡ ioc_start setting.now }
{
    raise(ioc, IrqA::from_bits_retain(setting.requests_a.bits));
    set_timer(ioc, TimerName::Timer0, setting.timer_0);
    set_timer(ioc, TimerName::Timer1, setting.timer_1);
    set_masks(ioc, setting);
}
