//! Machine files and cycle profile files: the state from which a machine starts with its inputs, and the
//! prices of its accesses, read from TOML. A machine file is also built from its parts, and written.
#![tactic(auto)]

mod entries;
mod events;
mod faulty_keys;
mod flags;
mod inputs;
mod ioc_settings;
mod ioc_start;
mod keys;
mod law;
mod machine_faults;
mod machine_files;
mod machine_places;
mod numbers;
mod pages;
mod parts;
mod processor;
mod profile_faults;
mod profile_places;
mod profiles;
mod registers;
mod repeats;
mod rows;
mod rules;
mod spots;
mod start;
mod vidc_settings;
mod vidc_start;
mod words;
mod writing;

pub use events::Event;
pub use flags::PsrFlags;
pub use law::{
    machine_faults_have_spots, machine_files_are_read, missing_devices_are_reset,
    profile_faults_have_spots, profiles_are_read,
};
pub use machine_faults::MachineFileFault;
pub use machine_files::{MACHINE_KEYS, MachineFile, read_machine};
pub use machine_places::MachineDocument;
pub use pages::MappedPage;
pub use parts::{ControllerParts, MachineParts, ProcessorParts, ScheduleParts};
pub use profile_faults::ProfileFileFault;
pub use profile_places::ProfileDocument;
pub use profiles::{PROFILE_KEYS, read_profile};
pub use rows::keys_in;
pub use spots::{
    EntryNumber, MachineList, MachineSpot, MachineTable, Part, PriceList, PriceOrder, ProfileSpot,
    list_key, number_key, number_list, price_key, table_key,
};
pub use writing::write_machine;
