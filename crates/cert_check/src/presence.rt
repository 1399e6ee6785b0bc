ghost use Rattle.std.specs.Prelude.{◌≡◌, ◌↔◌, Contains, IfOk, IsTrue, map};
ghost use Rattle.std.specs.List.Sorted.{IsSorted};
ghost use Rattle.control_flow.specs.Places.{place_cmp};
ghost use Rattle.longest_walk.specs.Rows.{header_of};
ghost use Rattle.cert_check.specs.Presence.{Lists};

use crate::about_place::AboutPlace;
use certificate::Cert;
use control_flow::{Graph, Place};
use loop_bounds::LoopTree;
use std::alloc::{AllocError, Global};

/// Whether the prices are those of the handler's graph.
pub(crate) fn has_its_prices(cert: &Cert, graph: &Graph) -> bool
    ensures { IsTrue result ↔ (cert.now.profile ≡ graph.now.profile) }
{
    cert.profile == graph.profile()
}

/// The places that these are about.
pub(crate) fn places_of<R: AboutPlace>(alloc: Global, rows: &[R]) -> Result<Vec<Place>, AllocError>
    ensures { IfOk result
        (λ places. places.items ≡ map (λ r. Place.At (R.calls r) (R.address r)) rows.now) }
{
    rows.iter().map(|row| row.place()).collect(alloc)
}

/// The headers of the instances, ascending.
pub(crate) fn sorted_headers(alloc: Global, tree: &LoopTree) -> Result<Vec<Place>, AllocError>
    ensures { IfOk result (λ headers. Lists (map header_of tree.now.instances) headers.items) }
{
    let mut headers = places_of(alloc, tree.instances())?;
    headers.sort_unstable();
    Ok(headers)
}

/// Whether the place is among those given.
pub(crate) fn is_among(given: &[Place], place: &Place) -> bool
    requires ascending { IsSorted place_cmp given.now }
    ensures { IsTrue result ↔ Contains given.now place.now }
{
    given.binary_search(place).is_ok()
}
