ghost use Rattle.std.specs.Prelude.{◌≡◌, ◌≤◌, ◌<◌, MatchResult};
ghost use Rattle.longest_walk.specs.Visits.{visits_bound};

use bus_ticks::{Profile, fiq_entry};
use numbered_walks::WalkFault;
use walks::COST_LIMIT;

/// The greatest ticks of a handler with up to `k` visits of FIQ's handler: its own bound `irq`, and for each
/// visit the bound `fiq` and the price of taking FIQ, all in ticks. It takes no memory.
///
/// # Errors
///
/// `BoundTooLarge`: the sum is 2^63 ticks or more.
pub fn visits_bound(profile: &Profile, irq: u64, fiq: u64, k: u32) -> Result<u64, WalkFault>
    ensures { MatchResult result
        (λ total. (total ≡ visits_bound profile.now irq fiq k) × (total < COST_LIMIT))
        (λ fault. (fault ≡ WalkFault.BoundTooLarge) × (COST_LIMIT ≤ visits_bound profile.now irq fiq k)) }
{
    let visit = u128::from(fiq) + u128::from(fiq_entry(profile));
    let total = u128::from(irq) + u128::from(k) * visit;
    match u64::try_from(total) {
        Ok(total) if total < COST_LIMIT => Ok(total),
        _ => Err(WalkFault::BoundTooLarge),
    }
}
