ghost use Rattle.std.specs.Prelude.{◌≡◌, [], ◌∷◌, ◌++◌, ◌-◌, ◌+◌, ◌≤◌, ◌<◌, ℕ, IfOk, OnOk, length, map, take};
ghost use Rattle.std.specs.Prelude.{List, drop, slice_index};
ghost use Rattle.std.specs.List.Sorted.{IsNonDecreasingBy};
ghost use Rattle.control_flow.specs.Places.{place_at};
ghost use Rattle.statement.specs.declared.apart.ApartStretch.{ApartStretch};
ghost use Rattle.loop_bounds.specs.Extents.{found_instance};
ghost use Rattle.loop_bounds.specs.Nested.{IsNestedView, inner_in, instance_in, node_of, nodes, outline};
ghost use Rattle.loop_bounds.specs.Nested.{places_in};
ghost use Rattle.loop_bounds.specs.NestedParts.{Encloses};
ghost use Rattle.loop_bounds.specs.Tree.{IsTree};

use crate::loop_instances::LoopInstance;
use crate::tree::LoopTree;
use control_flow::{Calls, Graph, Place};
use numbered_walks::{ItemList, Span};
use std::alloc::{AllocError, Global};

/// An instance of a loop, with its places and the instances directly inside it.
#[derive(Drop)]
pub struct Instance {
    found: LoopInstance,
    places: Vec<Place>,
    inner: Vec<Instance>,
}

impl Instance {
    /// The calls inside of which the loop is taken.
    pub fn list(&self) -> Calls
        ensures { (apart : List ApartStretch) → result ≡ (instance_in apart self.now).list }
    {
        self.found.list
    }

    /// The address of the loop's header, a multiple of 4 below 4000000.
    pub fn header(&self) -> u32
        ensures { (apart : List ApartStretch) → result ≡ (instance_in apart self.now).header }
    {
        self.found.stated.header
    }

    /// The most back edges that one stay takes, from 0 to 1,048,576.
    pub fn bound(&self) -> u32
        ensures { (apart : List ApartStretch) → result ≡ (instance_in apart self.now).bound }
    {
        self.found.stated.bound
    }

    /// The places of the instance by their numbers in the tree's order, the header's first.
    pub fn places(&self) -> &[Place]
        ensures { result.now ≡ places_in self.now }
    {
        &self.places
    }

    /// The instances directly inside it, by the last of their numbers.
    #[tactic(auto, using(crate::proofs::NestedLemmas::nodes_out))]
    pub fn inner(&self) -> &[Instance]
        ensures value { result.now ≡ inner_in self.now }
        ensures shown { (apart : List ApartStretch)
            → (outline apart self.now).nodes ≡ nodes apart result.now ++ node_of apart self.now ∷ [] }
    {
        &self.inner
    }
}

/// The instances that are inside no other, each with those inside it, by the last of their numbers.
pub type Instances = ItemList<Instance>;

// Of the instances so far those that are inside no other, and the numbers of their headers.
#[derive(Drop)]
struct Outermost {
    headers: Vec<usize>,
    instances: Vec<Instance>,
}

impl Outermost {
    // Adds an instance that ends after all, and takes those that begin within it.
    fn enclose(
        &mut self,
        header: usize,
        found: LoopInstance,
        places: Vec<Place>,
    ) -> Result<(), AllocError>
        requires same { length self.old.headers.items ≡ length self.old.instances.items }
        requires ascending { IsNonDecreasingBy (λ h. h) self.old.headers.items }
        ensures { OnOk result
            ((apart : List ApartStretch)
            → Encloses apart self.old self.new header (found_instance apart found) places.items) }
    {
        let first = self.headers.partition_point(|inner| *inner < header);
        let inner = self.instances.split_off(first)?;
        self.headers.truncate(first);
        self.headers.push(header)?;
        self.instances.push(Instance {
            found,
            places,
            inner,
        })?;
        Ok(())
    }
}

// The places of a span's numbers.
fn places_of(
    alloc: Global,
    places: &[Place],
    order: &[usize],
    span: &Span,
) -> Result<Vec<Place>, AllocError>
    requires whole { length order.now ≡ length places.now + 1 }
    requires inside { (n : ℕ) → n < length places.now → slice_index order.now n < length places.now }
    requires span { (span.now.header ≤ span.now.last) × (span.now.last < length places.now) }
    ensures { IfOk result
        (λ members. members.items
        ≡ take (span.now.last + 1 - span.now.header)
        (drop span.now.header (map (place_at places.now) order.now))) }
{
    let mut members = Vec::new(alloc);
    for number in span.header..span.last + 1 {
        members.push(places[order[number]])?;
    }
    Ok(members)
}

impl LoopTree {
    /// The instances, each directly inside the smallest that holds it, and the outermost in the list. The
    /// graph is the one that the tree was made of.
    ///
    /// # Errors
    ///
    /// Where an allocation failed.
    pub fn nested(&self, alloc: Global, graph: &Graph) -> Result<Instances, AllocError>
        requires { IsTree graph.now self.now }
        ensures { IfOk result (IsNestedView graph.now self.now) }
    {
        let mut outermost = Outermost {
            headers: Vec::new(alloc),
            instances: Vec::new(alloc),
        };
        let instances = self.instances();
        for (k, span) in self.spans().iter().enumerate() {
            let places = places_of(alloc, graph.places(), self.order(), span)?;
            outermost.enclose(span.header, instances[k], places)?;
        }
        Ok(Instances::of(outermost.instances))
    }
}
