ghost use Rattle.std.specs.Prelude.{◌≡◌, ◌↔◌, ℕ, List, None, Ok, Err, codes};
ghost use Rattle.ioc.specs.Interrupts.{fresh as fresh_ioc};
ghost use Rattle.toml.specs.Data.{Members, get_member};
ghost use Rattle.toml_reading.specs.Lowest.{IsLowest};
ghost use Rattle.machine_file.specs.MachineFaults.{machine_faults};
ghost use Rattle.machine_file.specs.MachineFile.{machine_in};
ghost use Rattle.machine_file.specs.MachinePlaces.{IsMachineFaultAt};
ghost use Rattle.machine_file.specs.MachineFaultRules.{HasMachineFault};
ghost use Rattle.machine_file.specs.MachineRules.{StatesMachine};
ghost use Rattle.machine_file.specs.ProfileFaults.{profile_faults};
ghost use Rattle.machine_file.specs.ProfileFile.{IsPriced, Read, numbers_in};
ghost use Rattle.machine_file.specs.ProfilePlaces.{IsProfileFaultAt};
ghost use Rattle.machine_file.specs.ProfileRules.{HasProfileFault, StatesProfile};
ghost use Rattle.machine_file.specs.Started.{ioc_start, vidc_start};
ghost use Rattle.machine_file.specs.Stated.{Stated};
ghost use Rattle.machine_file.specs.declared.spots.MachineSpot.{MachineSpot};
ghost use Rattle.machine_file.specs.declared.spots.ProfileSpot.{ProfileSpot};
ghost use Rattle.vidc.specs.Video.{fresh as fresh_vidc};

use crate::machine_faults::MachineFileFault;
use crate::profile_faults::ProfileFileFault;

/// States which profile [`read_profile`](crate::profiles::read_profile) returns for a document: the one
/// that its keys state, one by one; or the lowest of all faults that the document has. It does nothing.
pub fn profiles_are_read()
    ensures profile { (ms : Members) → (answer : Read (List ℕ)) → IsPriced (numbers_in ms) answer
        → (numbers : List ℕ) → answer ≡ Ok numbers ↔ StatesProfile ms numbers }
    ensures fault { (ms : Members) → (answer : Read (List ℕ)) → IsPriced (numbers_in ms) answer
        → (fault : ProfileFileFault) → answer ≡ Err fault
        ↔ IsLowest profile_faults (HasProfileFault ms) fault }
{}

/// States which machine [`read_machine`](crate::machine_files::read_machine) returns for a document: the
/// one that its keys state, one by one; or the lowest of all faults that the document has. It does nothing.
pub fn machine_files_are_read()
    ensures machine { (ms : Members) → (stated : Stated) → machine_in ms ≡ Ok stated
        ↔ StatesMachine ms stated }
    ensures fault { (ms : Members) → (fault : MachineFileFault) → machine_in ms ≡ Err fault
        ↔ IsLowest machine_faults (HasMachineFault ms) fault }
{}

/// States that a machine file without `ioc`, or without `vidc`, starts with that device as after a reset. It
/// does nothing.
pub fn missing_devices_are_reset()
    ensures ioc { (ms : Members) → (stated : Stated) → machine_in ms ≡ Ok stated
        → get_member (codes "ioc") ms ≡ None → ioc_start stated.ioc ≡ fresh_ioc }
    ensures vidc { (ms : Members) → (stated : Stated) → machine_in ms ≡ Ok stated
        → get_member (codes "vidc") ms ≡ None → vidc_start stated.vidc ≡ fresh_vidc }
{}

/// States that a machine file's document has a fault exactly where one of its spots has it, as
/// [`has_fault_at`](crate::MachineDocument::has_fault_at) says. It does nothing.
pub fn machine_faults_have_spots()
    ensures { (ms : Members) → (fault : MachineFileFault) → HasMachineFault ms fault
        ↔ ((spot : MachineSpot) × IsMachineFaultAt ms spot fault) }
{}

/// States that a cycle profile's document has a fault exactly where one of its spots has it, as
/// [`has_fault_at`](crate::ProfileDocument::has_fault_at) says. It does nothing.
pub fn profile_faults_have_spots()
    ensures { (ms : Members) → (fault : ProfileFileFault) → HasProfileFault ms fault
        ↔ ((spot : ProfileSpot) × IsProfileFaultAt ms spot fault) }
{}
