//! The two timers: each fourth tick is a decrement of both.

ghost use Rattle.std.specs.Prelude.{◌≡◌, ◌<◌, ◌≤◌, ℕ};
ghost use Rattle.ioc.specs.Timers.{after_decrements, ticked};
ghost use Rattle.ioc.specs.Interrupts.{fresh_timer};
ghost use Rattle.ioc.specs.Registers.{with_low, with_high, started, sampled, cleared};

// How many counts a timer of 16 bits makes from a latch of 0 until it raises its request.
const COUNTS: u32 = 65_536;

/// A timer: its count, the latch that it loads, the count that its registers show, and its latched request.
#[derive(Clone, Copy, Debug, PartialEq, Eq)]
pub struct Timer {
    pub(crate) count: u16,
    pub(crate) latch: u16,
    pub(crate) output: u16,
    pub(crate) request: bool,
}

/// Two timers, and the ticks from 0 to 3 since their last decrement.
#[derive(Clone, Copy, Debug, PartialEq, Eq)]
pub struct Timers {
    pub(crate) phase: u8,
    pub(crate) timer_0: Timer,
    pub(crate) timer_1: Timer,
}

impl Timers {
    /// So many ticks on, in constant time.
    #[inline(always)]
    pub(crate) fn advance(&mut self, ticks: u32)
        requires { self.old.phase < 4 }
        ensures ticked { self.new ≡ ticked ticks self.old }
        ensures phase { self.new.phase < 4 }
    {
        let since = self.phase as u32 + ticks % 4;
        let times = ticks / 4 + since / 4;
        self.phase = (since % 4) as u8;
        if times > 0 {
            self.timer_0.decrement(times);
            self.timer_1.decrement(times);
        }
    }
}

impl Timer {
    /// All 0, and no request.
    pub(crate) fn new() -> Timer
        ensures { result ≡ fresh_timer }
    {
        Timer {
            count: 0,
            latch: 0,
            output: 0,
            request: false,
        }
    }

    /// How many decrements there are up to the one that raises the request, at most 65,536: as many of a
    /// timer that rests.
    pub(crate) fn counts_left(self) -> u32
        ensures some { 1 ≤ result }
        ensures most { result ≤ COUNTS }
        ensures quiet { (times : ℕ) → times < result → (after_decrements times self).request ≡ self.request }
    {
        if self.count == 0 {
            return COUNTS;
        }
        if self.latch == 0 {
            return COUNTS;
        }
        self.count as u32
    }

    // So many decrements, in constant time.
    #[inline(always)]
    fn decrement(&mut self, times: u32)
        ensures { self.new ≡ after_decrements times self.old }
    {
        let count = self.count as u32;
        let latch = self.latch as u32;
        if count == 0 {
            return;
        }
        if latch == 0 {
            return;
        }
        if times < count {
            self.count = (count - times) as u16;
        } else {
            self.count = (latch - (times - count) % latch) as u16;
            self.request = true;
        }
    }

    /// With a new low byte of the latch.
    pub(crate) fn with_low(self, byte: u8) -> Timer
        ensures { result ≡ with_low byte self }
    {
        Timer {
            latch: self.latch / 0x100 * 0x100 + byte as u16,
            ..self
        }
    }

    /// With a new high byte of the latch.
    pub(crate) fn with_high(self, byte: u8) -> Timer
        ensures { result ≡ with_high byte self }
    {
        Timer {
            latch: byte as u16 * 0x100 + self.latch % 0x100,
            ..self
        }
    }

    /// With the latch as the count.
    pub(crate) fn started(self) -> Timer
        ensures { result ≡ started self }
    {
        Timer {
            count: self.latch,
            ..self
        }
    }

    /// With the count as the output.
    pub(crate) fn sampled(self) -> Timer
        ensures { result ≡ sampled self }
    {
        Timer {
            output: self.count,
            ..self
        }
    }

    /// Without a request.
    pub(crate) fn cleared(self) -> Timer
        ensures { result ≡ cleared self }
    {
        Timer {
            request: false,
            ..self
        }
    }
}
