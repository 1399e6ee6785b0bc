ghost use Rattle.std.specs.Prelude.{◌≡◌};
ghost use Rattle.control_flow.specs.Places.{place_address};

use crate::call_list::Calls;

/// Where a walk is: at the instruction at an address, inside calls, or out of the handler.
#[derive(Clone, Copy, PartialEq, Eq, PartialOrd, Ord)]
pub enum Place {
    At(Calls, u32),
    Exit,
}

impl Place {
    /// The address, in bytes: 0 for Exit, from which no edge leads.
    pub fn address(&self) -> u32
        ensures { result ≡ place_address self.now }
    {
        match self {
            Place::At(_, address) => *address,
            Place::Exit => 0,
        }
    }
}
