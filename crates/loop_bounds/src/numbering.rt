ghost use Rattle.std.specs.Prelude.{◌≡◌, ◌≤◌, ◌++◌, [], ◌∷◌, IfOk, length, ◌<◌, ◌⊎◌, ◌↔◌};
ghost use Rattle.std.specs.Prelude.{Contains, IsTrue, map, true};
ghost use Rattle.std.specs.Ordering.{nat_cmp};
ghost use Rattle.std.specs.Cmp.Lexicographic.{slice_cmp};
ghost use Rattle.std.specs.List.Sorted.{IsSorted, IsStrictlySortedBy};
ghost use Rattle.statement.specs.Stated.{lies_at};
ghost use Rattle.loop_bounds.specs.Keys.{IsListed, IsPoint, by_key, is_before, key_of};
ghost use Rattle.control_flow.specs.Places.{place_cmp, place_at};
ghost use Rattle.loop_bounds.specs.Tree.{IsNumbered, NumbersEdge};

use control_flow::{Calls, Edge, Graph, Place};
use numbered_walks::NumberedEdge;
use statement::ApartWords;
use std::alloc::{AllocError, Global};
use std::cmp::Ordering;

// How where the words at two addresses lie compares.
fn by_place(apart: &ApartWords, address: u32, other: u32) -> Ordering
    ensures { result ≡ nat_cmp (lies_at apart.now address) (lies_at apart.now other) }
{
    if address == other {
        return Ordering::Equal;
    }
    apart.lies_at(address).cmp(&apart.lies_at(other))
}

// How where calls lie, and then a number, compare with others.
fn compare_keys(
    apart: &ApartWords,
    calls: &[u32],
    number: u64,
    others: &[u32],
    other: u64,
) -> Ordering
    ensures { result
        ≡ slice_cmp nat_cmp (map (lies_at apart.now) calls.now ++ number ∷ [])
        (map (lies_at apart.now) others.now ++ other ∷ []) }
{
    match calls {
        [] => match others {
            [] => number.cmp(&other),
            [first, ..] => number.cmp(&apart.lies_at(*first)).then(Ordering::Less),
        },
        [call, calls @ ..] => match others {
            [] => apart.lies_at(*call).cmp(&other).then(Ordering::Greater),
            [first, others @ ..] => {
                let rest = compare_keys(apart, calls, number, others, other);
                by_place(apart, *call, *first).then(rest)
            }
        },
    }
}

/// How the keys of two places compare.
pub(crate) fn by_key(apart: &ApartWords, left: &Place, right: &Place) -> Ordering
    ensures { result ≡ by_key apart.now left.now right.now }
{
    match left {
        Place::At(calls, address) => match right {
            Place::At(others, other) => {
                let (place, next) = (apart.lies_at(*address), apart.lies_at(*other));
                compare_keys(apart, calls.items(), place, others.items(), next)
            }
            Place::Exit => Ordering::Greater,
        },
        Place::Exit => match right {
            Place::At(..) => Ordering::Less,
            Place::Exit => Ordering::Equal,
        },
    }
}

/// The places, ascending by key.
pub(crate) fn listed(
    alloc: Global,
    apart: &ApartWords,
    places: &[Place],
) -> Result<Vec<Place>, AllocError>
    ensures { IfOk result (λ listed. IsListed apart.now places.now listed.items) }
{
    let mut listed = Vec::from_slice(alloc, places)?;
    listed.sort_unstable_by(|left, right| by_key(apart, left, right));
    Ok(listed)
}

// Whether the place's key comes before where the calls lie and then the number.
fn is_before(apart: &ApartWords, place: &Place, calls: &[u32], number: u64) -> bool
    ensures { result
        ≡ is_before (key_of apart.now place.now) (map (lies_at apart.now) calls.now ++ number ∷ []) }
{
    match place {
        Place::At(own, address) => {
            compare_keys(apart, own.items(), apart.lies_at(*address), calls, number).is_lt()
        }
        Place::Exit => true,
    }
}

/// How many of the places have keys that come before where the calls lie and then the number.
pub(crate) fn point(apart: &ApartWords, listed: &[Place], calls: Calls, number: u64) -> usize
    requires { IsSorted (by_key apart.now) listed.now }
    ensures { IsPoint apart.now listed.now (map (lies_at apart.now) calls ++ number ∷ []) result }
{
    listed.partition_point(|place| is_before(apart, place, calls.items(), number))
}

/// Whether the graph has the place.
pub fn has_place(graph: &Graph, place: &Place) -> bool
    ensures { IsTrue result ↔ Contains graph.now.places place.now }
{
    graph.places().binary_search(place).is_ok()
}

// The position of a place among the graph's places.
fn index_of(places: &[Place], place: &Place) -> usize
    requires ordered { IsStrictlySortedBy place_cmp places.now }
    requires known { Contains places.now place.now }
    ensures number { place_at places.now result ≡ place.now }
    ensures inside { result < length places.now }
{
    places.binary_search(place).unwrap_or(places.len())
}

/// The position of a place among the graph's places. It is looked for at another one first, since where no
/// place is inside a call its position by key is the same.
pub(crate) fn index_near(places: &[Place], place: &Place, near: usize) -> usize
    requires ordered { IsStrictlySortedBy place_cmp places.now }
    requires known { Contains places.now place.now }
    ensures number { place_at places.now result ≡ place.now }
    ensures inside { result < length places.now }
{
    if is_at(places, near, place) {
        return near;
    }
    index_of(places, place)
}

/// The position of a place by key, or the number of places for Exit.
pub(crate) fn position_of(apart: &ApartWords, listed: &[Place], place: &Place) -> usize
    requires ordered { IsSorted (by_key apart.now) listed.now }
    requires no_exit { Contains listed.now Place.Exit → ⊥ }
    requires known { (place.now ≡ Place.Exit) ⊎ Contains listed.now place.now }
    ensures number { place_at listed.now result ≡ place.now }
    ensures most { result ≤ length listed.now }
{
    listed
        .binary_search_by(|other| by_key(apart, other, place))
        .unwrap_or(listed.len())
}

// Whether the place has this position.
#[tactic(auto, using(crate::proofs::Positions::order_exact))]
fn is_at(listed: &[Place], at: usize, place: &Place) -> bool
    ensures here { result ≡ true → place_at listed.now at ≡ place.now }
    ensures inside { result ≡ true → at < length listed.now }
{
    at < listed.len() && listed[at].cmp(place).is_eq()
}

// The position of a place by key. It is looked for near another one first, since most edges lead to the next
// instruction.
fn position_near(apart: &ApartWords, listed: &[Place], place: &Place, near: usize) -> usize
    requires ordered { IsSorted (by_key apart.now) listed.now }
    requires no_exit { Contains listed.now Place.Exit → ⊥ }
    requires known { (place.now ≡ Place.Exit) ⊎ Contains listed.now place.now }
    requires near { near ≤ length listed.now }
    ensures number { place_at listed.now result ≡ place.now }
    ensures most { result ≤ length listed.now }
{
    if is_at(listed, near, place) {
        return near;
    }
    if near < listed.len() {
        if is_at(listed, near + 1, place) {
            return near + 1;
        }
    }
    position_of(apart, listed, place)
}

// The edge between the positions of its ends, the first of which is near that.
fn number_edge(apart: &ApartWords, listed: &[Place], edge: &Edge, near: usize) -> NumberedEdge
    requires ordered { IsSorted (by_key apart.now) listed.now }
    requires no_exit { Contains listed.now Place.Exit → ⊥ }
    requires starts { Contains listed.now edge.now.from }
    requires ends { (edge.now.to ≡ Place.Exit) ⊎ Contains listed.now edge.now.to }
    requires near { near ≤ length listed.now }
    ensures edge { NumbersEdge (place_at listed.now) (length listed.now) edge.now result }
    ensures from { result.from ≤ length listed.now }
{
    let from = position_near(apart, listed, &edge.from, near);
    let to = position_near(apart, listed, &edge.to, from);
    NumberedEdge {
        from,
        to,
        cost: edge.cost,
    }
}

/// The edges of the graph between positions, in their order.
pub(crate) fn number_edges(
    alloc: Global,
    apart: &ApartWords,
    graph: &Graph,
    listed: &[Place],
) -> Result<Vec<NumberedEdge>, AllocError>
    requires { IsListed apart.now graph.now.places listed.now }
    ensures { IfOk result (λ edges. IsNumbered graph.now (place_at listed.now) edges.items) }
{
    let mut numbered = Vec::with_capacity(alloc, graph.edges().len())?;
    let mut near = 0;
    for edge in graph.edges() {
        let next = number_edge(apart, listed, edge, near);
        near = next.from;
        numbered.push(next)?;
    }
    Ok(numbered)
}
