//! What is asked of the document of a machine file, of a cycle profile or of a file of facts.

ghost use Rattle.std.specs.Prelude.{◌≡◌};
ghost use Rattle.toml.specs.View.{table_view};
ghost use Rattle.machine_file.specs.MachinePlaceTests.{found};
ghost use Rattle.text_refusals.specs.FileRows.{has_in, kind_of, machine_spot_of, spot_of};

use crate::asked_given::given_has;
use crate::asked_profile::profile_has;
use given_facts::{GivenDocument, GivenFault, GivenSpot};
use machine_file::{
    MachineDocument, MachineFileFault, MachineSpot, ProfileDocument, ProfileFileFault, ProfileSpot,
};

/// A kind of file.
#[derive(Clone, Copy)]
pub(crate) enum FileKind {
    /// A machine file.
    Machine,
    /// A cycle profile.
    Profile,
    /// A file of facts.
    Given,
}

/// What of a file may have a fault.
#[derive(Clone, Copy)]
pub(crate) enum FileSpot<'a> {
    Machine(MachineSpot<'a>),
    Profile(ProfileSpot<'a>),
    Given(GivenSpot<'a>),
}

/// The document of a file, and the fault that is looked for in it.
#[derive(Clone, Copy)]
pub(crate) enum AskedFile<'a> {
    Machine(&'a MachineDocument<'a>, MachineFileFault),
    Profile(ProfileDocument<'a>, ProfileFileFault),
    Given(&'a GivenDocument<'a>, GivenFault),
}

fn machine_has(
    document: &MachineDocument<'_>,
    spot: MachineSpot<'_>,
    fault: MachineFileFault,
) -> bool
    ensures { result
        ≡ found (table_view document.now.table.now) (machine_spot_of spot.entry) fault }
{
    document.has_fault_at(spot, fault)
}

impl AskedFile<'_> {
    /// Which kind of file it is.
    pub(crate) fn kind(&self) -> FileKind
        ensures { result ≡ kind_of self.now }
    {
        match self {
            AskedFile::Machine(_, _) => FileKind::Machine,
            AskedFile::Profile(_, _) => FileKind::Profile,
            AskedFile::Given(_, _) => FileKind::Given,
        }
    }

    /// Whether the spot of the document has the fault.
    pub(crate) fn has(&self, spot: FileSpot<'_>) -> bool
        ensures { result ≡ has_in self.now (spot_of spot.entry) }
    {
        match self {
            AskedFile::Machine(document, fault) => match spot {
                FileSpot::Machine(spot) => machine_has(document, spot, *fault),
                FileSpot::Profile(_) | FileSpot::Given(_) => false,
            },
            AskedFile::Profile(document, fault) => match spot {
                FileSpot::Profile(spot) => profile_has(*document, spot, *fault),
                FileSpot::Machine(_) | FileSpot::Given(_) => false,
            },
            AskedFile::Given(document, fault) => match spot {
                FileSpot::Given(spot) => given_has(document, spot, *fault),
                FileSpot::Machine(_) | FileSpot::Profile(_) => false,
            },
        }
    }
}
