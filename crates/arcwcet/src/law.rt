ghost use Rattle.std.specs.Prelude.{◌≡◌};
ghost use Rattle.bus_ticks.specs.declared.profile.Profile.{Profile};
ghost use Rattle.handlers.specs.Keeping.{HasKeptRun};
ghost use Rattle.handlers.specs.Visits.{HasVisitedRun};

use crate::files::MOST_INPUT_BYTES;

/// States how many bytes an input has at most: 16,777,216. It does nothing.
pub fn input_limit()
    ensures { MOST_INPUT_BYTES ≡ 16777216 }
{}

/// States that runs can keep statements: by each cycle profile some run does, of a handler that returns at
/// once. So what a report says of every run that keeps the statement is not said of none. It does nothing.
pub fn some_run_keeps()
    ensures { (profile : Profile) → HasKeptRun profile }
{}

/// States that runs can keep two statements: by each cycle profile some run does, of a handler that FIQ
/// interrupts twice before it returns. So what a report says of every run with visits is not said of none. It
/// does nothing.
pub fn some_run_has_visits()
    ensures { (profile : Profile) → HasVisitedRun profile }
{}
