ghost use Rattle.std.specs.Prelude.{◌<◌};
ghost use Rattle.bus_ticks.specs.declared.space.TheConstants.{SPACE_END};

use crate::bus_use::BusUse;

/// What a step did on the bus, where it was done, the word that it fetched ahead, if memory has one there,
/// and the address that is next.
#[derive(Clone, Copy)]
pub(crate) struct Place {
    pub(crate) done: BusUse,
    pub(crate) at: u32,
    pub(crate) ahead: Option<u32>,
    pub(crate) to: u32,
    ghost below: { to < SPACE_END },
}
