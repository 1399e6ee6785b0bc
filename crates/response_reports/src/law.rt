ghost use Rattle.std.specs.Prelude.{ℕ};
ghost use Rattle.bus_ticks.specs.declared.profile.Profile.{Profile};
ghost use Rattle.response_reports.specs.ServedEvery.{HasServiceEvery};

/// Under every profile, and for every period and wait, some run serves IRQ with a visit of FIQ's handler,
/// and takes FIQ at most once in the period. So what a report says of such runs is not said of none. The
/// call does nothing.
pub fn some_run_serves_every()
    ensures { (profile : Profile) (every waited : ℕ) → HasServiceEvery profile every waited }
{}
