ghost use Rattle.std.specs.Prelude.{◌≡◌};
ghost use Rattle.toml.specs.View.{table_view};
ghost use Rattle.machine_file.specs.ProfilePlaceTests.{found};
ghost use Rattle.text_refusals.specs.FileRows.{profile_spot_of};

use machine_file::{ProfileDocument, ProfileFileFault, ProfileSpot};

/// Whether the spot of a cycle profile's document has the fault.
pub(crate) fn profile_has(
    document: ProfileDocument<'_>,
    spot: ProfileSpot<'_>,
    fault: ProfileFileFault,
) -> bool
    ensures { result
        ≡ found (table_view document.entry.table.now) (profile_spot_of spot.entry) fault }
{
    document.has_fault_at(spot, fault)
}
