//! The timers of a machine that steps: most ticks only count down to the next that may raise a request.

ghost use Rattle.std.specs.Prelude.{◌≡◌, ◌<◌};
ghost use Rattle.ioc.specs.Timers.{ticked};

use crate::timers::Timers;
use std::marker::Model;

/// Two timers, which are counted down where a request may rise, and where they are asked for.
#[derive(Drop)]
pub(crate) struct Countdown {
    // As they were last counted down.
    timers: Timers,
    // The ticks from there to the first that may raise a request, and how many of them are left.
    quiet: u32,
    left: u32,
}

impl Model for Countdown {
    ghost use Rattle.std.specs.Prelude.{◌-◌};
    ghost use Rattle.ioc.specs.declared.timers.Timers.{Timers};
    ghost use Rattle.ioc.specs.Countdown.{IsCountdown};
    ghost use Rattle.ioc.specs.Timers.{ticked};

    ghost Value = { Timers };

    ghost view = { λ c. ticked (c.quiet - c.left) c.timers };

    ghost invariant = { λ c. IsCountdown c.timers c.quiet c.left };
}

impl Countdown {
    /// These timers, with no tick passed yet.
    pub(crate) fn new(timers: Timers) -> Countdown
        requires { timers.phase < 4 }
        ensures { result ≡ timers }
    {
        let counts = timers
            .timer_0
            .counts_left()
            .min(timers.timer_1.counts_left());
        let quiet = 4 * counts - timers.phase as u32;
        Countdown {
            timers,
            quiet,
            left: quiet,
        }
    }

    /// The timers as they are now.
    pub(crate) fn current(&self) -> Timers
        ensures timers { result ≡ self.now }
        ensures phase { result.phase < 4 }
    {
        let mut timers = self.timers;
        timers.advance(self.quiet - self.left);
        timers
    }

    /// Sets the timers.
    pub(crate) fn set(&mut self, timers: Timers)
        requires { timers.phase < 4 }
        ensures { self.new ≡ timers }
    {
        *self = Countdown::new(timers);
    }

    /// So many ticks on, in constant time.
    #[inline(always)]
    pub(crate) fn advance(&mut self, ticks: u32)
        ensures { self.new ≡ ticked ticks self.old }
    {
        if ticks < self.left {
            self.left -= ticks;
            return;
        }
        self.advance_past(ticks);
    }

    // The same where a request may rise meanwhile.
    #[inline(never)]
    fn advance_past(&mut self, ticks: u32)
        ensures { self.new ≡ ticked ticks self.old }
    {
        let mut timers = self.current();
        timers.advance(ticks);
        self.set(timers);
    }

    /// Whether timer 0 requests an interrupt.
    #[inline(always)]
    pub(crate) fn requests_0(&self) -> bool
        ensures { result ≡ self.now.timer_0.request }
    {
        self.timers.timer_0.request
    }

    /// Whether timer 1 requests an interrupt.
    #[inline(always)]
    pub(crate) fn requests_1(&self) -> bool
        ensures { result ≡ self.now.timer_1.request }
    {
        self.timers.timer_1.request
    }
}
