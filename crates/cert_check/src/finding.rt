ghost use Rattle.std.specs.Prelude.{◌≡◌, map};
ghost use Rattle.std.specs.List.{find};
ghost use Rattle.std.specs.List.Sorted.{IsStrictlySortedBy};
ghost use Rattle.control_flow.specs.Places.{place_cmp};
ghost use Rattle.longest_walk.specs.Rows.{is_at};

use crate::about_place::AboutPlace;
use control_flow::{Place, order_of_places};
use std::cmp::Ordering;

// How the place that a row is about compares with another.
fn place_cmp<R: AboutPlace>(row: &R, place: &Place) -> Ordering
    ensures { result ≡ place_cmp (Place.At (R.calls row.now) (R.address row.now)) place.now }
{
    order_of_places();
    row.place().cmp(place)
}

/// The row about a place.
pub(crate) fn row_about<R: AboutPlace + Copy>(rows: &[R], place: &Place) -> Option<R>
    requires ascending { IsStrictlySortedBy place_cmp
        (map (λ r. Place.At (R.calls r) (R.address r)) rows.now) }
    ensures { result ≡ find (λ r. is_at (R.calls r) (R.address r) place.now) rows.now }
{
    match rows.binary_search_by(|row| place_cmp(row, place)) {
        Ok(index) => Some(rows[index]),
        Err(_) => None,
    }
}
