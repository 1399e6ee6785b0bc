//! The texts that show why a machine file, a cycle profile or a file of facts is refused.

ghost use Rattle.std.specs.Prelude.{IfOk};
ghost use Rattle.given_facts.specs.GivenPlaces.{IsGivenFaultAt};
ghost use Rattle.machine_file.specs.MachinePlaces.{IsMachineFaultAt};
ghost use Rattle.machine_file.specs.ProfilePlaces.{IsProfileFaultAt};
ghost use Rattle.text_refusals.specs.FileTexts.{IsGivenText, IsMachineText, IsProfileText, given_rows};
ghost use Rattle.text_refusals.specs.FileTexts.{machine_rows, profile_rows};
ghost use Rattle.text_refusals.specs.GivenSpots.{given_tables};
ghost use Rattle.text_refusals.specs.MachineSpots.{machine_tables};
ghost use Rattle.text_refusals.specs.ProfileSpots.{profile_tables};
ghost use Rattle.text_refusals.specs.Refused.{IsRowsText};

use crate::asked_file::AskedFile;
use crate::file_rows::file_text;
use crate::given_spots::GIVEN_TABLES;
use crate::machine_spots::MACHINE_TABLES;
use crate::no_toml::no_toml_text;
use crate::profile_spots::PROFILE_TABLES;
use given_facts::{GivenDocument, GivenFault};
use machine_file::{MachineDocument, MachineFileFault, ProfileDocument, ProfileFileFault};
use std::alloc::{AllocError, Global};
use toml_reading::document;

fn faulty_machine(
    alloc: Global,
    text: &[u8],
    fault: MachineFileFault,
) -> Result<Vec<u8>, AllocError>
    ensures { IfOk result
        (λ out. IsRowsText IsMachineFaultAt machine_rows machine_tables text.now fault out.items) }
{
    let Some(table) = document(alloc, text)? else {
        return Ok(Vec::new(alloc));
    };
    let document = MachineDocument::new(alloc, &table)?;
    let asked = AskedFile::Machine(&document, fault);
    file_text(alloc, &asked, MACHINE_TABLES, text)
}

fn faulty_profile(
    alloc: Global,
    text: &[u8],
    fault: ProfileFileFault,
) -> Result<Vec<u8>, AllocError>
    ensures { IfOk result
        (λ out. IsRowsText IsProfileFaultAt profile_rows profile_tables text.now fault out.items) }
{
    let Some(table) = document(alloc, text)? else {
        return Ok(Vec::new(alloc));
    };
    let asked = AskedFile::Profile(ProfileDocument { table: &table }, fault);
    file_text(alloc, &asked, PROFILE_TABLES, text)
}

fn faulty_given(alloc: Global, text: &[u8], fault: GivenFault) -> Result<Vec<u8>, AllocError>
    ensures { IfOk result
        (λ out. IsRowsText IsGivenFaultAt given_rows given_tables text.now fault out.items) }
{
    let Some(table) = document(alloc, text)? else {
        return Ok(Vec::new(alloc));
    };
    let document = GivenDocument::new(alloc, &table)?;
    let asked = AskedFile::Given(&document, fault);
    file_text(alloc, &asked, GIVEN_TABLES, text)
}

/// The lines of a machine file's text that show where its document has the fault: at most twenty, each with
/// its number. Of a text that is no TOML it is the line where the reader of TOML stopped. Nothing is named of
/// `Memory`.
///
/// # Errors
///
/// An allocation failed.
pub fn machine_text(
    alloc: Global,
    text: &[u8],
    fault: MachineFileFault,
) -> Result<Vec<u8>, AllocError>
    ensures { IfOk result (λ out. IsMachineText text.now fault out.items) }
{
    match fault {
        MachineFileFault::NotToml => no_toml_text(alloc, text),
        _ => faulty_machine(alloc, text, fault),
    }
}

/// The lines of a cycle profile's text that show where its document has the fault, as [`machine_text`] does.
///
/// # Errors
///
/// An allocation failed.
pub fn profile_text(
    alloc: Global,
    text: &[u8],
    fault: ProfileFileFault,
) -> Result<Vec<u8>, AllocError>
    ensures { IfOk result (λ out. IsProfileText text.now fault out.items) }
{
    match fault {
        ProfileFileFault::NotToml => no_toml_text(alloc, text),
        _ => faulty_profile(alloc, text, fault),
    }
}

/// The lines of the text of a file of facts that show where its document has the fault, as [`machine_text`]
/// does.
///
/// # Errors
///
/// An allocation failed.
pub fn given_text(alloc: Global, text: &[u8], fault: GivenFault) -> Result<Vec<u8>, AllocError>
    ensures { IfOk result (λ out. IsGivenText text.now fault out.items) }
{
    match fault {
        GivenFault::NotToml => no_toml_text(alloc, text),
        _ => faulty_given(alloc, text, fault),
    }
}
