ghost use Rattle.std.specs.Prelude.{◌≡◌, ◌==◌, ◌||◌, ℕ, IfOk, OnOk, None, Some};
ghost use Rattle.std.specs.BTreeSet.{contains};
ghost use Rattle.std.specs.List.{list_any};
ghost use Rattle.std.specs.Ordering.{nat_cmp};
ghost use Rattle.justify_reports.specs.TrustSets.{AreSetsOf, has_class, has_loop};

use known_places::OnTrust;
use std::alloc::{AllocError, Global};
use std::collections::BTreeSet;

/// What is on trust, to be looked up: all, or else the classes and the loops at these addresses.
#[derive(Drop)]
pub(crate) struct TrustSets {
    pub(crate) all: bool,
    pub(crate) classes: BTreeSet<u32>,
    pub(crate) loops: BTreeSet<u32>,
}

fn add(set: &mut BTreeSet<u32>, address: u32) -> Result<(), AllocError>
    ensures { OnOk result
        ((a : ℕ) → contains nat_cmp set.new a ≡ (contains nat_cmp set.old a || (address == a))) }
{
    set.insert(address)?;
    Ok(())
}

/// Adds the addresses. `AllocError`: an allocation failed.
pub(crate) fn add_all(set: &mut BTreeSet<u32>, addresses: &[u32]) -> Result<(), AllocError>
    ensures { OnOk result
        ((a : ℕ) → contains nat_cmp set.new a
        ≡ (contains nat_cmp set.old a || list_any (λ b. b == a) addresses.now)) }
{
    for address in addresses {
        add(set, *address)?;
    }
    Ok(())
}

fn set_of(alloc: Global, addresses: &[u32]) -> Result<BTreeSet<u32>, AllocError>
    ensures { IfOk result
        (λ set. (a : ℕ) → contains nat_cmp set a ≡ list_any (λ b. b == a) addresses.now) }
{
    let mut set = BTreeSet::new(alloc);
    add_all(&mut set, addresses)?;
    Ok(set)
}

impl TrustSets {
    // Those where all is on trust.
    fn of_all(alloc: Global) -> TrustSets
        ensures { AreSetsOf None result }
    {
        TrustSets {
            all: true,
            classes: BTreeSet::new(alloc),
            loops: BTreeSet::new(alloc),
        }
    }

    fn of_some(alloc: Global, trusted: &OnTrust) -> Result<TrustSets, AllocError>
        ensures { IfOk result (AreSetsOf (Some trusted.now)) }
    {
        let classes = set_of(alloc, &trusted.classes)?;
        let loops = set_of(alloc, &trusted.loops)?;
        Ok(TrustSets {
            all: false,
            classes,
            loops,
        })
    }

    /// The sets of what is left on trust: for `None` all is. `AllocError`: an allocation failed.
    pub(crate) fn of(alloc: Global, left: &Option<OnTrust>) -> Result<TrustSets, AllocError>
        ensures { IfOk result (AreSetsOf left.now) }
    {
        match left {
            Some(trusted) => TrustSets::of_some(alloc, trusted),
            None => Ok(TrustSets::of_all(alloc)),
        }
    }

    /// Whether the class of the word at an address is on trust.
    pub(crate) fn has_class(&self, at: u32) -> bool
        ensures { result ≡ has_class self.now at }
    {
        self.all || self.classes.contains(&at)
    }

    /// Whether the bound of the loop whose header is at an address is on trust.
    pub(crate) fn has_loop(&self, at: u32) -> bool
        ensures { result ≡ has_loop self.now at }
    {
        self.all || self.loops.contains(&at)
    }
}
