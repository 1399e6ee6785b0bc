use control_flow::Calls;
use numbered_walks::ItemList;

/// The distance of a place, as a certificate states it.
#[derive(Clone, Copy)]
pub struct PlaceRow {
    /// The calls inside of which the place is.
    pub list: Calls,
    /// The place's address, a multiple of 4 below 4000000.
    pub address: u32,
    /// The most that a walk has cost here, in ticks, since it entered the innermost instance that holds the
    /// place.
    pub distance: u64,
}

/// The arrival and the round of an instance of a loop, as a certificate states them.
#[derive(Clone, Copy)]
pub struct InstanceRow {
    /// The calls inside of which the loop is taken.
    pub list: Calls,
    /// The header's address, a multiple of 4 below 4000000.
    pub header: u32,
    /// The most that a walk has cost, in ticks, when it reaches the header from outside.
    pub arrival: u64,
    /// The most that one round costs, in ticks; 0 with no back edge or a bound of 0.
    pub round: u64,
}

/// The numbers of a certificate: the least that meet all its rows.
#[derive(Drop)]
pub struct Potentials {
    /// A row for each place but Exit, ascending by call list and then by address.
    pub places: ItemList<PlaceRow>,
    /// A row for each instance of a loop, ascending likewise.
    pub instances: ItemList<InstanceRow>,
}
