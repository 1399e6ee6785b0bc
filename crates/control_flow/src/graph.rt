ghost use Rattle.std.specs.Prelude.{◌≡◌, ◌<◌, length};
ghost use Rattle.control_flow.specs.Flow.{IsEdgeRange, IsWellFormed};
ghost use Rattle.control_flow.specs.Places.{place_at};

use crate::edges::Edge;
use crate::places::Place;
use bus_ticks::Profile;
use std::marker::Model;

/// The places of a handler but Exit, ascending, and the edges of each in turn.
#[derive(Drop)]
pub struct Graph {
    pub(crate) entry: Place,
    pub(crate) places: Vec<Place>,
    pub(crate) edges: Vec<Edge>,
    pub(crate) firsts: Vec<usize>,
    pub(crate) profile: Profile,
}

impl Model for Graph {
    ghost use Rattle.control_flow.specs.Flow.{Flow};

    ghost Value = { Flow };

    ghost use Rattle.control_flow.specs.Flow.{IsWellFormed};
    ghost use Rattle.control_flow.specs.GraphParts.{flow_of};

    ghost view = { flow_of };

    ghost invariant = { λ g. IsWellFormed (flow_of g) };
}

impl Graph {
    /// The place that walks start at.
    pub fn entry(&self) -> Place
        ensures value { result ≡ self.now.entry }
        ensures well_formed { IsWellFormed self.now }
    {
        self.entry
    }

    /// The places but Exit, ascending.
    pub fn places(&self) -> &[Place]
        ensures value { result.now ≡ self.now.places }
        ensures well_formed { IsWellFormed self.now }
    {
        &self.places
    }

    /// The edges of each place in turn.
    pub fn edges(&self) -> &[Edge]
        ensures value { result.now ≡ self.now.edges }
        ensures well_formed { IsWellFormed self.now }
    {
        &self.edges
    }

    /// Where the edges of each place begin in `edges`, and at the end the number of edges.
    pub fn firsts(&self) -> &[usize]
        ensures value { result.now ≡ self.now.firsts }
        ensures well_formed { IsWellFormed self.now }
    {
        &self.firsts
    }

    /// Where the edges that leave a place begin in `edges`, and where they end, by the index of the place in
    /// `places`.
    pub fn edge_range(&self, place: usize) -> (usize, usize)
        requires { place < length self.now.places }
        ensures range { IsEdgeRange self.now (place_at self.now.places place) result.0 result.1 }
        ensures well_formed { IsWellFormed self.now }
    {
        let firsts = self.firsts();
        (firsts[place], firsts[place + 1])
    }

    /// The profile by which the edges are priced.
    pub fn profile(&self) -> Profile
        ensures value { result ≡ self.now.profile }
        ensures well_formed { IsWellFormed self.now }
    {
        self.profile
    }
}
