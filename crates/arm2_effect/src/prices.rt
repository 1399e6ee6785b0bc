ghost use Rattle.std.specs.Prelude.{◌≡◌, ◌<◌, ◌≤◌, ◌*◌, ◌%◌, [], ◌∷◌};
ghost use Rattle.bus_ticks.specs.declared.space.TheConstants.{SPACE_END};
ghost use Rattle.arm2_effect.specs.Effects.{Internal, onward, refill};
ghost use Rattle.arm2_effect.specs.Effects.{straight, ticks_of};

use bus_ticks::{Profile, RomTimes, ahead_of, fetch_n, fetch_s};

/// What prices the accesses of a step.
#[derive(Clone, Copy)]
pub struct Prices {
    pub profile: Profile,
    /// The time fields of ROM before the step.
    pub rom: RomTimes,
}

impl Prices {
    /// The ticks of an instruction at an address that is followed by the next one.
    #[inline(always)]
    pub fn straight(&self, from: u32) -> u32
        requires below { from < SPACE_END }
        requires aligned { from % 4 ≡ 0 }
        ensures ticks { result ≡ ticks_of self.now (straight from) }
        ensures bound { result < 256 }
    {
        fetch_s(&self.profile, ahead_of(from, 8), self.rom)
    }

    /// The ticks of the fetches that a jump to an address adds.
    #[inline(always)]
    pub fn refill(&self, to: u32) -> u32
        requires below { to < SPACE_END }
        requires aligned { to % 4 ≡ 0 }
        ensures ticks { result ≡ ticks_of self.now (refill to) }
        ensures bound { result < 2 * 256 }
    {
        fetch_n(&self.profile, to, self.rom) + fetch_s(&self.profile, ahead_of(to, 4), self.rom)
    }

    /// The ticks of an instruction at an address that is followed by the one at another.
    #[inline(always)]
    pub fn onward(&self, from: u32, to: u32) -> u32
        requires from_below { from < SPACE_END }
        requires from_aligned { from % 4 ≡ 0 }
        requires to_below { to < SPACE_END }
        requires to_aligned { to % 4 ≡ 0 }
        ensures ticks { result ≡ ticks_of self.now (onward from to) }
        ensures bound { result < 3 * 256 }
    {
        self.straight(from) + self.refill(to)
    }

    /// The ticks of cycles without an access.
    #[inline(always)]
    pub fn internal(&self, cycles: u32) -> u32
        requires { cycles ≤ 16 }
        ensures ticks { result ≡ ticks_of self.now (Internal cycles ∷ []) }
        ensures bound { result ≤ 16 * 255 }
    {
        cycles * self.profile.internal
    }
}
