ghost use Rattle.std.specs.Prelude.{◌≡◌, ◌<◌, IfErr, IfOk, IfSome, option_map};
ghost use Rattle.walks.specs.declared.limits.TheConstants.{COST_LIMIT};
ghost use Rattle.longest_walk.specs.Visits.{visits_bound};
ghost use Rattle.bound_reports.specs.VisitsReport.{AreMostVisits, AreTooMany, waited_by};

use bus_ticks::Profile;
use handlers::VisitedBound;
use longest_walk::WalkFault;
use responses::irq_entry;

/// How often FIQ interrupts a handler.
#[derive(Clone, Copy, Debug, PartialEq, Eq)]
pub enum VisitRate {
    /// At most so many times.
    Times(u32),
    /// At most once in `every` ticks of the processor, from 1 on. For 0 no number of visits is enough. As
    /// the handler begins, FIQ may have waited for `waited` ticks; for `None` as long as the dearest
    /// taking of IRQ lasts.
    Every { every: u32, waited: Option<u64> },
}

/// The most visits, and the ticks of the handler with them.
#[derive(Clone, Copy)]
pub(crate) struct MostVisits {
    pub(crate) visits: u128,
    pub(crate) total: u64,
}

/// For how many ticks FIQ may have waited as the handler begins.
pub(crate) fn waited_by(profile: &Profile, waited: Option<u64>) -> u64
    ensures { result ≡ waited_by profile.now waited }
{
    waited.unwrap_or(u64::from(irq_entry(profile)))
}

fn visits_at(bound: VisitedBound, profile: &Profile, rate: VisitRate) -> Option<u128>
    ensures { AreMostVisits rate profile.now bound.irq bound.fiq result }
{
    match rate {
        VisitRate::Times(visits) => Some(u128::from(visits)),
        VisitRate::Every { every, waited } => {
            bound.fewest_visits(profile, every, waited_by(profile, waited))
        }
    }
}

/// The most visits at a rate; None where no number is enough.
///
/// # Errors
///
/// `BoundTooLarge`: the handler takes 2^63 ticks or more with them.
pub(crate) fn most_visits(
    bound: VisitedBound,
    profile: &Profile,
    rate: VisitRate,
) -> Result<Option<MostVisits>, WalkFault>
    ensures visits { IfOk result (λ most. AreMostVisits rate profile.now bound.irq bound.fiq
        (option_map (λ m. m.visits) most)) }
    ensures total { IfOk result (λ most. IfSome most
        (λ m. (m.total ≡ visits_bound profile.now bound.irq bound.fiq m.visits)
        × (m.total < COST_LIMIT))) }
    ensures fault { IfErr result (λ fault. (fault ≡ WalkFault.BoundTooLarge)
        × AreTooMany rate profile.now bound.irq bound.fiq) }
{
    let Some(visits) = visits_at(bound, profile, rate) else {
        return Ok(None);
    };
    match bound.total(profile, visits) {
        Some(total) => Ok(Some(MostVisits { visits, total })),
        None => Err(WalkFault::BoundTooLarge),
    }
}
