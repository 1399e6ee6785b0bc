//! How many visits of FIQ's handler are enough, and what they add to a bound.

ghost use Rattle.std.specs.Prelude.{◌≡◌, ◌+◌, ◌≤◌, ◌<◌, MatchOption};
ghost use Rattle.bus_ticks.specs.Worst.{fiq_entry};
ghost use Rattle.walks.specs.declared.limits.TheConstants.{COST_LIMIT};
ghost use Rattle.longest_walk.specs.Visits.{visits_bound};
ghost use Rattle.handlers.specs.Visits.{AreFewestVisits};

use bus_ticks::{Profile, fiq_entry};
use walks::COST_LIMIT;

/// The bound of a handler, or of a part of it, and that of FIQ's handler, which interrupts it, in ticks.
#[derive(Clone, Copy)]
pub struct VisitedBound {
    pub irq: u64,
    pub fiq: u64,
}

impl VisitedBound {
    /// The greatest ticks of a visit: the bound of FIQ's handler, and the price of taking FIQ.
    pub fn visit(self, profile: &Profile) -> u128
        ensures { result ≡ self.fiq + fiq_entry profile.now }
    {
        u128::from(self.fiq) + u128::from(fiq_entry(profile))
    }

    /// The fewest visits after which none comes before the end, where FIQ is asked for at most once in
    /// `every` ticks and may have waited for `waited` ticks at the beginning. None where there is no end: a
    /// visit then takes all the time up to the next.
    pub fn fewest_visits(self, profile: &Profile, every: u32, waited: u64) -> Option<u128>
        ensures { AreFewestVisits profile.now self.irq self.fiq every waited result }
    {
        let ticks = u128::from(self.irq) + u128::from(waited);
        let visit = self.visit(profile);
        let every = u128::from(every);
        if ticks == 0 {
            return Some(0);
        }
        if every <= visit {
            return None;
        }
        Some(ticks.div_ceil(every - visit))
    }

    /// The ticks of the handler with so many visits; None where they are 2^63 or more.
    pub fn total(self, profile: &Profile, visits: u128) -> Option<u64>
        ensures { MatchOption result (COST_LIMIT ≤ visits_bound profile.now self.irq self.fiq visits)
            (λ total. (total ≡ visits_bound profile.now self.irq self.fiq visits) × (total < COST_LIMIT)) }
    {
        let added = visits.saturating_mul(self.visit(profile));
        let total = added.saturating_add(u128::from(self.irq));
        match u64::try_from(total) {
            Ok(total) if total < COST_LIMIT => Some(total),
            _ => None,
        }
    }
}
