//! `import`: the image of code that another tool has made.

ghost use Rattle.std.specs.Prelude.{◌≡◌, ◌⊎◌, Err, IfErr, IfOk, Ok, Some, drop, map, string_bytes};
ghost use Rattle.command_line.specs.Rows.{asked_of};
ghost use Rattle.handlers.specs.FaultText.{TakesOrFails, refusal_line};
ghost use Rattle.imports.specs.Imported.{part_of};
ghost use Rattle.source_reports.specs.Assembly.{size_text};
ghost use Rattle.arcwcet.specs.Import.{IsImported, first_file, first_place, image_at, import_fault_name};
ghost use Rattle.arcwcet.specs.Import.{import_fault_place, import_fault_text, import_status, is_elf, placed};
ghost use Rattle.arcwcet.specs.Refusals.{Says, TakesSome};

use crate::status::shows_why;
use command_line::Request;
use handlers::{FaultPlace, print_refusal_line};
use image::{Image, write_image};
use imports::{ImportFault, Part, import_elf, import_parts};
use outputs::{Output, write_whole};
use source_reports::Written;
use std::alloc::{AllocError, Global};

// The first of some addresses, and the others.
fn first_place(places: &[Option<u32>]) -> (u32, &[Option<u32>])
    ensures first { result.0 ≡ first_place places.now }
    ensures others { result.1.now ≡ drop 1 places.now }
{
    match places {
        [place, others @ ..] => (place.unwrap_or(0), others),
        [] => (0, &[]),
    }
}

// Files, each at its address.
fn placed<'a>(
    alloc: Global,
    places: &[Option<u32>],
    files: &'a [Vec<u8>],
) -> Result<Vec<Part<'a>>, AllocError>
    ensures { IfOk result
        (λ parts. map part_of parts.items ≡ placed places.now (map (λ v. v.items) files.now)) }
{
    let mut parts = Vec::new(alloc);
    let mut left = places;
    for file in files {
        let (address, others) = first_place(left);
        parts.push(Part {
            address,
            bytes: file,
        })?;
        left = others;
    }
    Ok(parts)
}

// Whether one file has no address, as it is an ELF file, which says where its parts lie.
fn is_elf(places: &[Option<u32>]) -> bool
    ensures { result ≡ is_elf places.now }
{
    match places {
        [place] => place.is_none(),
        _ => false,
    }
}

fn first_file(files: &[Vec<u8>]) -> &[u8]
    ensures { result.now ≡ first_file (map (λ v. v.items) files.now) }
{
    match files {
        [file, ..] => file,
        [] => &[],
    }
}

// The image of files, each at its address, or of an ELF file.
fn image_at(alloc: Global, places: &[Option<u32>], files: &[Vec<u8>]) -> Result<Image, ImportFault>
    ensures image { IfOk result
        (λ image. image_at places.now (map (λ v. v.items) files.now) ≡ Ok image) }
    ensures fault { IfErr result (λ fault. (fault ≡ ImportFault.Memory)
        ⊎ (image_at places.now (map (λ v. v.items) files.now) ≡ Err fault)) }
{
    if is_elf(places) {
        return import_elf(alloc, first_file(files));
    }
    let parts = placed(alloc, places, files)?;
    import_parts(alloc, &parts)
}

// The line that says an image's size.
fn size_line(alloc: Global, image: &Image) -> Result<String, AllocError>
    ensures { IfOk result (λ line. string_bytes line ≡ size_text image.now) }
{
    let words = image.words();
    let segments = image.segments();
    format!(in alloc; "words {words} segments {segments}\n")
}

/// The file and the report of the image of files, each at its address, or of an ELF file.
pub(crate) fn image_imported(
    alloc: Global,
    places: &[Option<u32>],
    files: &[Vec<u8>],
) -> Result<Written, ImportFault>
    ensures is { IfOk result
        (λ w. IsImported (image_at places.now (map (λ v. v.items) files.now)) w.bytes.items
        (string_bytes w.line)) }
    ensures fault { IfErr result (λ fault. (fault ≡ ImportFault.Memory)
        ⊎ (image_at places.now (map (λ v. v.items) files.now) ≡ Err fault)) }
{
    let image = image_at(alloc, places, files)?;
    let Ok(bytes) = write_image(alloc, &image) else {
        return Err(ImportFault::Memory);
    };
    let line = size_line(alloc, &image)?;
    Ok(Written { bytes, line })
}

fn fault_name(fault: ImportFault) -> &'static [u8]
    ensures { result.now ≡ import_fault_name fault }
{
    match fault {
        ImportFault::Memory => b"Memory",
        ImportFault::TooManyParts => b"TooManyParts",
        ImportFault::Misaligned(_) => b"Misaligned",
        ImportFault::OutOfRange(_) => b"OutOfRange",
        ImportFault::Overlap(_) => b"Overlap",
        ImportFault::TooLong(_) => b"TooLong",
        ImportFault::NotElf => b"NotElf",
        ImportFault::AcornObject => b"AcornObject",
        ImportFault::HeaderCut => b"HeaderCut",
        ImportFault::Not32Bit => b"Not32Bit",
        ImportFault::NotLittleEndian => b"NotLittleEndian",
        ImportFault::NotVersion1 => b"NotVersion1",
        ImportFault::NotArm => b"NotArm",
        ImportFault::NotExecutable => b"NotExecutable",
        ImportFault::BadEntrySize => b"BadEntrySize",
        ImportFault::TableOutside => b"TableOutside",
        ImportFault::NoSegment => b"NoSegment",
        ImportFault::SegmentOutside(_) => b"SegmentOutside",
    }
}

fn fault_place(fault: ImportFault) -> FaultPlace
    ensures { result ≡ import_fault_place fault }
{
    match fault {
        ImportFault::Misaligned(address) => FaultPlace::Address(address),
        ImportFault::OutOfRange(address) => FaultPlace::Address(address),
        ImportFault::Overlap(address) => FaultPlace::Address(address),
        ImportFault::TooLong(address) => FaultPlace::Address(address),
        ImportFault::SegmentOutside(address) => FaultPlace::Address(address),
        _ => FaultPlace::Nowhere,
    }
}

// Prints why there is no image, and answers the exit status.
fn import_status<E: Output>(fault: ImportFault, err: &mut E) -> u8
    ensures status { result ≡ import_status fault }
    ensures says { TakesOrFails E.taken E.failures err.old err.new (refusal_line (import_fault_text fault)) }
{
    print_refusal_line(fault_name(fault), fault_place(fault), err);
    match fault {
        ImportFault::Memory => 3,
        _ => 1,
    }
}

// What to do with a file that is not taken, where that is not to say an address otherwise.
fn import_advice(fault: ImportFault) -> &'static [u8] {
    match fault {
        ImportFault::NotElf => {
            b"no ELF file; of other code say the address: CODE@ADDRESS, or CODE --at ADDRESS\n"
        }
        ImportFault::AcornObject => b"an object of Acorn's, or a library: link it first\n",
        ImportFault::NotExecutable => b"no executable: link it first\n",
        _ => b"",
    }
}

fn print_advice<E: Output>(fault: ImportFault, err: &mut E)
    ensures { TakesSome (E.taken err.old) (E.taken err.new) }
{
    let _ = write_whole(err, import_advice(fault));
}

/// Prints why there is no image, and what to do where reasons are shown, and answers the exit status.
pub(crate) fn refused_status<E: Output>(
    fault: ImportFault,
    request: &Request<'_>,
    err: &mut E,
) -> u8
    ensures status { result ≡ import_status fault }
    ensures says { Says E.taken E.failures (asked_of request.now) err.old err.new
        (Some (import_fault_text fault)) }
{
    if !shows_why(request) {
        return import_status(fault, err);
    }
    let status = import_status(fault, err);
    print_advice(fault, err);
    status
}
