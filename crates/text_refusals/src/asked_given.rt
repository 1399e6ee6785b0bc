ghost use Rattle.std.specs.Prelude.{◌≡◌};
ghost use Rattle.toml.specs.View.{table_view};
ghost use Rattle.given_facts.specs.GivenPlaceTests.{found};
ghost use Rattle.text_refusals.specs.FileRows.{given_spot_of};

use given_facts::{GivenDocument, GivenFault, GivenSpot};

/// Whether the spot of the document of a file of facts has the fault.
pub(crate) fn given_has(
    document: &GivenDocument<'_>,
    spot: GivenSpot<'_>,
    fault: GivenFault,
) -> bool
    ensures { result ≡ found (table_view document.now.table.now) (given_spot_of spot.entry) fault }
{
    document.has_fault_at(spot, fault)
}
