ghost use Rattle.std.specs.Prelude.{◌≡◌, List, ℕ, Some};
ghost use Rattle.arm2_exec.specs.State.{State};
ghost use Rattle.bus_ticks.specs.declared.profile.Profile.{Profile};
ghost use Rattle.control_flow.specs.Flow.{Flow};
ghost use Rattle.image.specs.Image.{Words};
ghost use Rattle.known_places.specs.OnTrust.{Justifies, OnTrust};
ghost use Rattle.known_words.specs.Given.{AreGiven};
ghost use Rattle.known_words.specs.Knowledge.{AreWords};
ghost use Rattle.handlers.specs.Keeping.{BoundsRuns, KeepsStatement};
ghost use Rattle.statement.specs.Stated.{Stated};
ghost use Rattle.justify_reports.specs.Trust.{BoundsOnTrust, KeepsOnTrust};

use arm2_exec::Input;
use known_words::Given;

/// States that where all but some of a statement follows, a bound of each run that keeps the statement is one
/// of each run that keeps what is on trust. It does nothing.
pub fn on_trust_is_bounded()
    ensures { (words : Words) → (st : Stated) → (profile : Profile) → (flow : Flow) → (given : List Given)
        → (trusted : OnTrust) → (bound : ℕ) → flow.profile ≡ profile → Justifies words st flow given trusted
        → BoundsRuns words st profile flow bound
        → BoundsOnTrust words st profile flow given (Some trusted) bound }
{}

/// States that a run that keeps a statement keeps what is on trust of it, whatever that is, if it begins with
/// words of 32 bits, as given. So what is said of each run that keeps what is on trust is not said of none,
/// where some run that begins so keeps the statement. It does nothing.
pub fn kept_is_on_trust()
    ensures { (words : Words) → (st : Stated) → (flow : Flow) → (given : List Given) → (trusted : OnTrust)
        → (s : State) → (inputs : List Input) → KeepsStatement words st flow.profile flow s inputs
        → AreWords s.regs → AreGiven given s.regs → KeepsOnTrust words st flow given trusted s inputs }
{}
