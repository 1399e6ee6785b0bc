ghost use Rattle.std.specs.Prelude.{◌≡◌, ◌≤◌, length, true, IfOk};
ghost use Rattle.std.specs.Io.KnownBytes.{WriteAppends};
ghost use Rattle.outputs.specs.Output.{failures_after};
ghost use Rattle.progress.specs.Late.{late_failures, late_taken};

use outputs::{Output, OutputFault};
use std::time::{Clock, Instant};

// For how many seconds nothing is shown.
const PATIENCE: u64 = 2;

/// Says when it is time to show what is being done. No contract says what it answers.
pub trait Timer {
    /// Whether it is time.
    fn is_due(&self) -> bool {
        false
    }
}

/// A timer that is due two seconds after it was made, and never where the clock cannot be read.
#[derive(Drop)]
pub struct ClockTimer<'a, C: Clock> {
    clock: &'a C,
    start: Option<Instant>,
}

impl<'a, C: Clock> ClockTimer<'a, C> {
    /// One that begins now.
    pub fn new(clock: &'a C) -> Self {
        ClockTimer {
            clock,
            start: Instant::now(clock).ok(),
        }
    }
}

impl<C: Clock> Timer for ClockTimer<'_, C> {
    fn is_due(&self) -> bool {
        let Some(start) = self.start else {
            return false;
        };
        match start.elapsed(self.clock) {
            Ok(elapsed) => elapsed.as_secs() >= PATIENCE,
            Err(_) => false,
        }
    }
}

/// An output for lines that nobody may have asked for: what is written before its timer is due is lost,
/// unless each line is to be shown at once.
#[derive(Drop)]
pub struct LateOutput<O: Output, T: Timer + Drop> {
    /// What takes the lines that are shown.
    pub out: O,
    /// When it is time to show one.
    pub timer: T,
    /// Whether the timer is not asked.
    pub at_once: bool,
}

impl<O: Output, T: Timer + Drop> Output for LateOutput<O, T> {
    ghost taken = { late_taken O.taken };

    ghost failures = { late_failures O.failures };

    fn write(&mut self, bytes: &[u8]) -> Result<usize, OutputFault>
        ensures bound { IfOk result (λ n. n ≤ length bytes.now) }
        ensures bytes { WriteAppends (late_taken O.taken self.old) (late_taken O.taken self.new) result
            bytes.now }
        ensures failures { O.failures self.new.out
            ≡ failures_after result bytes.now (O.failures self.old.out) }
        ensures at_once { self.new.at_once ≡ self.old.at_once }
        ensures shown { self.old.at_once ≡ true
            → WriteAppends (O.taken self.old.out) (O.taken self.new.out) result bytes.now }
    {
        if self.at_once {
            return self.out.write(bytes);
        }
        if !self.timer.is_due() {
            return Ok(bytes.len());
        }
        self.out.write(bytes)
    }
}
