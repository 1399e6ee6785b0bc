use crate::walk::CertWalk;
use bus_ticks::Profile;
use longest_walk::{InstanceRow, ItemList, PlaceRow};

/// A certificate: a bound in ticks, a walk that is said to cost it, and the numbers that are said to prove
/// that none costs more. Whoever wrote it, nothing is claimed of it but its form.
#[derive(Drop)]
pub struct Cert {
    /// The prices of the costs.
    pub profile: Profile,
    /// The bound, below 2^63 ticks.
    pub bound: u64,
    /// The walk.
    pub walk: CertWalk,
    /// A distance for each place, strictly ascending by call list and then by address.
    pub places: ItemList<PlaceRow>,
    /// An arrival and a round for each instance of a loop, strictly ascending likewise.
    pub instances: ItemList<InstanceRow>,
}
