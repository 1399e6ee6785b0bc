use control_flow::{Graph, Place};
use loop_bounds::LoopInstance;
use statement::{ApartStretch, ApartWords};
use std::alloc::{AllocError, Global};
use std::collections::BTreeSet;

// The places of an instance from which its header is reached inside of it, by their numbers in the graph.
#[derive(Drop)]
struct Turning {
    // the edges between members, each by where it ends and where it comes from, ascending
    entering: Vec<(usize, usize)>,
    seen: BTreeSet<usize>,
    // the same, in the order in which they were found
    order: Vec<usize>,
}

// The number of a place among the graph's places, or how many they are.
fn number_of(graph: &Graph, place: &Place) -> usize {
    let places = graph.places();
    places.binary_search(place).unwrap_or(places.len())
}

// The pairs whose first number is this one, of pairs that ascend.
fn pairs_at(pairs: &[(usize, usize)], at: usize) -> &[(usize, usize)] {
    let first = pairs.partition_point(|pair| pair.0 < at);
    let rest = &pairs[first..];
    let end = rest.partition_point(|pair| pair.0 <= at);
    &rest[..end]
}

impl Turning {
    fn add(&mut self, number: usize) -> Result<(), AllocError> {
        if self.seen.insert(number)? {
            self.order.push(number)?;
        }
        Ok(())
    }

    // Goes from the header back against all edges between members.
    fn gather(&mut self, alloc: Global, header: usize) -> Result<(), AllocError> {
        self.add(header)?;
        for next in 0..self.entering.len() {
            let Some(at) = self.order.get(next).copied() else {
                return Ok(());
            };
            let sources = Vec::from_slice(alloc, pairs_at(&self.entering, at))?;
            for (_, from) in &sources {
                self.add(*from)?;
            }
        }
        Ok(())
    }
}

// The edges between members, each by where it ends and where it comes from.
fn inner_edges(
    alloc: Global,
    graph: &Graph,
    apart: &ApartWords,
    instance: &LoopInstance,
) -> Result<Vec<(usize, usize)>, AllocError> {
    let mut inner = Vec::new(alloc);
    for edge in graph.edges() {
        if instance.is_member(apart, &edge.from) && instance.is_member(apart, &edge.to) {
            inner.push((number_of(graph, &edge.to), number_of(graph, &edge.from)))?;
        }
    }
    inner.sort()?;
    Ok(inner)
}

// The addresses of the instance's own members from which no way turns back to its header.
fn strangers(
    alloc: Global,
    graph: &Graph,
    apart: &ApartWords,
    instance: &LoopInstance,
) -> Result<BTreeSet<u32>, AllocError> {
    let mut turning = Turning {
        entering: inner_edges(alloc, graph, apart, instance)?,
        seen: BTreeSet::new(alloc),
        order: Vec::new(alloc),
    };
    let header = Place::At(instance.list, instance.stated.header);
    turning.gather(alloc, number_of(graph, &header))?;
    let mut found = BTreeSet::new(alloc);
    for (number, place) in graph.places().iter().enumerate() {
        let Place::At(list, address) = place else {
            continue;
        };
        let is_own = *list == instance.list && instance.is_member(apart, place);
        if is_own && !turning.seen.contains(&number) {
            found.insert(*address)?;
        }
    }
    Ok(found)
}

// The run of those addresses round one of them, as far as no other address of the graph lies between.
fn run_round(addresses: &BTreeSet<u32>, strangers: &BTreeSet<u32>, at: u32) -> ApartStretch {
    let mut run = ApartStretch {
        first: at,
        last: at,
    };
    let mut is_open = false;
    for address in addresses.iter() {
        let is_stranger = strangers.contains(address);
        if *address < at {
            if !is_open || !is_stranger {
                run.first = if is_stranger { *address } else { at };
            }
            is_open = is_stranger;
        } else if is_stranger {
            run.last = *address;
        } else {
            return run;
        }
    }
    run
}

/// The words round an address from which no way turns back to the header of an instance, or None where one
/// does from there.
///
/// # Errors
///
/// An allocation failed.
pub(crate) fn strangers_round(
    alloc: Global,
    graph: &Graph,
    apart: &ApartWords,
    instance: &LoopInstance,
    at: u32,
) -> Result<Option<ApartStretch>, AllocError> {
    let found = strangers(alloc, graph, apart, instance)?;
    if !found.contains(&at) {
        return Ok(None);
    }
    let mut addresses = BTreeSet::new(alloc);
    for place in graph.places() {
        addresses.insert(place.address())?;
    }
    Ok(Some(run_round(&addresses, &found, at)))
}
