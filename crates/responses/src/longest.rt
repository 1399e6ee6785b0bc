ghost use Rattle.std.specs.Prelude.{◌≡◌, ◌<◌};
ghost use Rattle.responses.specs.Longest.{IsLongestStep, longest_step};

use bus_ticks::{Class, Profile, ROM_START, worst_fetch_n, worst_leave, worst_transfer};

// The greatest price as a number.
fn longest_step_number(profile: &Profile) -> u32
    ensures number { result ≡ longest_step profile.now }
    ensures small { result < 8192 }
{
    let rom = worst_fetch_n(profile, ROM_START);
    let load = worst_transfer(profile, Class::Any, 16, false) + profile.internal;
    let jump = worst_leave(profile, Class::Any);
    profile.quad.max(rom) + (load + jump).max(16 * profile.internal)
}

/// The greatest ticks of any step that does not stop the machine, of whatever program: no step takes more,
/// from whatever state and by whatever input, and one takes as many.
pub fn longest_step(profile: &Profile) -> u32
    ensures number { result ≡ longest_step profile.now }
    ensures greatest { IsLongestStep profile.now result }
    ensures small { result < 8192 }
{
    longest_step_number(profile)
}
