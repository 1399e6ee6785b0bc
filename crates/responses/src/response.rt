ghost use Rattle.std.specs.Prelude.{◌≡◌, ◌<◌, ◌≤◌, MatchOption};
ghost use Rattle.walks.specs.declared.limits.TheConstants.{COST_LIMIT};
ghost use Rattle.responses.specs.Response.{response_time};

use crate::interrupts::{Interrupt, entry_ticks};
use bus_ticks::Profile;
use walks::COST_LIMIT;

/// The parts of a response time but for the entry, in ticks.
#[derive(Clone, Copy, Debug, PartialEq, Eq)]
pub struct ResponseParts {
    pub interrupt: Interrupt,
    /// The step in progress as the line rises.
    pub longest: u64,
    /// As long as the processor holds the interrupt back.
    pub masked: u64,
    /// The handler's way to the address.
    pub arrival: u64,
    /// The step there.
    pub own: u32,
}

impl ResponseParts {
    /// The response time; None where it is 2^63 ticks or more.
    pub fn sum(&self, profile: &Profile) -> Option<u64>
        ensures { MatchOption result
            (COST_LIMIT ≤ response_time profile.now self.now.interrupt self.now.longest self.now.masked
            self.now.arrival self.now.own)
            (λ sum. (sum ≡ response_time profile.now self.now.interrupt self.now.longest self.now.masked
            self.now.arrival self.now.own) × (sum < COST_LIMIT)) }
    {
        let entry = u64::from(entry_ticks(profile, self.interrupt));
        let handled = self.arrival.checked_add(u64::from(self.own))?;
        let served = entry.checked_add(handled)?;
        let unmasked = self.masked.checked_add(served)?;
        let sum = self.longest.checked_add(unmasked)?;
        if sum < COST_LIMIT { Some(sum) } else { None }
    }
}
