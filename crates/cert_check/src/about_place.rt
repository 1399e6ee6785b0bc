ghost use Rattle.std.specs.Prelude.{◌≡◌, ℕ, List};

use certificate::{InstanceRow, PlaceRow};
use control_flow::Place;
use loop_bounds::LoopInstance;

/// What is about a place: a row about its own, or an instance or its row about their header.
pub(crate) trait AboutPlace {
    ghost calls: { Self → List ℕ };

    ghost address: { Self → ℕ };

    /// The place.
    fn place(&self) -> Place
        ensures { result ≡ Place.At (calls self.now) (address self.now) };
}

impl AboutPlace for PlaceRow {
    ghost calls = { λ r. r.list };

    ghost address = { λ r. r.address };

    fn place(&self) -> Place {
        Place::At(self.list, self.address)
    }
}

impl AboutPlace for InstanceRow {
    ghost calls = { λ r. r.list };

    ghost address = { λ r. r.header };

    fn place(&self) -> Place {
        Place::At(self.list, self.header)
    }
}

impl AboutPlace for LoopInstance {
    ghost calls = { λ f. f.list };

    ghost address = { λ f. f.stated.header };

    fn place(&self) -> Place {
        Place::At(self.list, self.stated.header)
    }
}
