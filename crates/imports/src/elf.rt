ghost use Rattle.std.specs.Prelude.{◌≡◌, ◌⊎◌, ◌+◌, ◌*◌, ◌≤◌, ◌++◌, List, [], ◌∷◌, Ok, Err, None, Some};
ghost use Rattle.std.specs.Prelude.{IfErr, IfOk, OnErr, OnOk, filter, length, map, true, false};
ghost use Rattle.imports.specs.Elf.{elf_imported, elf_parts, half_at, header_fault, is_loaded, is_outside};
ghost use Rattle.imports.specs.Elf.{part_in, segment_in, segments_fault, segments_in, table_fault, table_in};
ghost use Rattle.imports.specs.Elf.{table_length, word_at};
ghost use Rattle.imports.specs.Imported.{HoldsExactly, Placed, part_of, words_of};

use crate::fault::ImportFault;
use crate::parts::{Part, first_number, import_parts};
use byteorder::{ByteOrder, LittleEndian};
use image::Image;
use std::alloc::{AllocError, Global};

// The first word of an ELF file: the bytes 7F 45 4C 46, the lowest first.
const ELF_MAGIC: u32 = 0x464C_457F;

// The first word of a chunk file of Acorn's, which holds an object or a library.
const CHUNK_FILE: u32 = 0xC3CB_C6C5;

// `EI_CLASS`: 32 bits.
const CLASS_32: u8 = 1;

// `EI_DATA`: the lowest byte first.
const LOWEST_FIRST: u8 = 1;

// `EI_VERSION` and `e_version`.
const VERSION: u8 = 1;

// `e_type`: an executable.
const EXECUTABLE: u16 = 2;

// `e_machine`.
const ARM: u16 = 40;

// `p_type` of a segment that is loaded.
const LOAD: u32 = 1;

// The bytes of an ELF file's header.
const HEADER_BYTES: usize = 52;

// The bytes of each of its program headers.
const ENTRY_BYTES: usize = 32;

// What a program header says of a segment, as far as it is read.
#[derive(Clone, Copy)]
pub(crate) struct Segment {
    // 1 of a segment that is loaded.
    kind: u32,
    // Where its bytes begin in the file.
    offset: u32,
    // Where they begin in memory.
    address: u32,
    // How many bytes the file has of it.
    size: u32,
}

// The program headers of a file, and how many there are.
#[derive(Clone, Copy)]
struct Headers<'a> {
    table: &'a [u8],
    count: u16,
}

fn half_at(bytes: &[u8], offset: usize) -> u16
    requires { offset + 2 ≤ length bytes.now }
    ensures { result ≡ half_at bytes.now offset }
{
    LittleEndian::read_u16(&bytes[offset..])
}

fn word_at(bytes: &[u8], offset: usize) -> u32
    requires { offset + 4 ≤ length bytes.now }
    ensures { result ≡ word_at bytes.now offset }
{
    LittleEndian::read_u32(&bytes[offset..])
}

// Why a file is refused for its header, or its first bytes.
fn header_fault(bytes: &[u8]) -> Option<ImportFault>
    ensures fault { result ≡ header_fault bytes.now }
    ensures whole { result ≡ None → 52 ≤ length bytes.now }
{
    let magic = first_number(bytes);
    if magic == CHUNK_FILE {
        return Some(ImportFault::AcornObject);
    }
    if magic != ELF_MAGIC {
        return Some(ImportFault::NotElf);
    }
    if bytes.len() < HEADER_BYTES {
        return Some(ImportFault::HeaderCut);
    }
    if bytes[4] != CLASS_32 {
        return Some(ImportFault::Not32Bit);
    }
    if bytes[5] != LOWEST_FIRST {
        return Some(ImportFault::NotLittleEndian);
    }
    if bytes[6] != VERSION || word_at(bytes, 20) != u32::from(VERSION) {
        return Some(ImportFault::NotVersion1);
    }
    if half_at(bytes, 18) != ARM {
        return Some(ImportFault::NotArm);
    }
    if half_at(bytes, 16) != EXECUTABLE {
        return Some(ImportFault::NotExecutable);
    }
    if usize::from(half_at(bytes, 42)) != ENTRY_BYTES {
        return Some(ImportFault::BadEntrySize);
    }
    None
}

// The program headers, which a file with a header of ELF's has.
fn headers_of(bytes: &[u8]) -> Result<Headers<'_>, ImportFault>
    requires { 52 ≤ length bytes.now }
    ensures table { IfOk result (λ headers. headers.table.now ≡ table_in bytes.now) }
    ensures count { IfOk result (λ headers. headers.count ≡ table_length bytes.now) }
    ensures enough { IfOk result (λ headers. 32 * headers.count ≤ length headers.table.now) }
    ensures inside { OnOk result (table_fault bytes.now ≡ None) }
    ensures fault { IfErr result (λ fault. table_fault bytes.now ≡ Some fault) }
{
    let offset = word_at(bytes, 28) as usize;
    let count = half_at(bytes, 44);
    if offset + ENTRY_BYTES * usize::from(count) > bytes.len() {
        return Err(ImportFault::TableOutside);
    }
    let table = &bytes[offset..];
    Ok(Headers { table, count })
}

// What the first program header says.
fn segment_in(table: &[u8]) -> Segment
    requires { 32 ≤ length table.now }
    ensures { result ≡ segment_in table.now }
{
    Segment {
        kind: word_at(table, 0),
        offset: word_at(table, 4),
        address: word_at(table, 8),
        size: word_at(table, 16),
    }
}

// Adds a segment, if it is loaded and the file has bytes of it.
fn add_loaded(segments: &mut Vec<Segment>, segment: Segment) -> Result<(), AllocError>
    ensures { OnOk result
        (segments.new.items ≡ segments.old.items ++ filter is_loaded (segment ∷ [])) }
{
    if segment.kind == LOAD && segment.size != 0 {
        segments.push(segment)?;
    }
    Ok(())
}

// The loadable segments, in the order of their headers.
fn loaded_in(alloc: Global, headers: Headers<'_>) -> Result<Vec<Segment>, AllocError>
    requires { 32 * headers.count ≤ length headers.table.now }
    ensures { IfOk result (λ segments. segments.items
        ≡ filter is_loaded (segments_in headers.entry.count headers.entry.table.now)) }
{
    let mut segments = Vec::new(alloc);
    let mut rest = headers.table;
    let mut left = headers.count;
    while left > 0 {
        add_loaded(&mut segments, segment_in(rest))?;
        rest = &rest[ENTRY_BYTES..];
        left -= 1;
    }
    Ok(segments)
}

// The bytes of a segment, from its address on.
fn part_in<'a>(bytes: &'a [u8], segment: Segment) -> Result<Part<'a>, ImportFault>
    ensures part { IfOk result (λ part. part_of part ≡ part_in bytes.now segment) }
    ensures inside { OnOk result (is_outside bytes.now segment ≡ false) }
    ensures fault { IfErr result (λ fault. fault ≡ ImportFault.SegmentOutside segment.address) }
    ensures outside { OnErr result (is_outside bytes.now segment ≡ true) }
{
    let from = segment.offset as usize;
    let to = from + segment.size as usize;
    if to > bytes.len() {
        return Err(ImportFault::SegmentOutside(segment.address));
    }
    Ok(Part {
        address: segment.address,
        bytes: &bytes[from..to],
    })
}

fn add_part<'a>(parts: &mut Vec<Part<'a>>, part: Part<'a>) -> Result<(), AllocError>
    ensures { OnOk result (parts.new.items ≡ parts.old.items ++ part.entry ∷ []) }
{
    parts.push(part)?;
    Ok(())
}

// The parts that segments are.
fn parts_in<'a>(
    alloc: Global,
    bytes: &'a [u8],
    segments: &[Segment],
) -> Result<Vec<Part<'a>>, ImportFault>
    ensures parts { IfOk result (λ parts. map part_of parts.items ≡ map (part_in bytes.now) segments.now) }
    ensures inside { OnOk result (segments_fault bytes.now segments.now ≡ None) }
    ensures fault { IfErr result (λ fault. (fault ≡ ImportFault.Memory)
        ⊎ (segments_fault bytes.now segments.now ≡ Some fault)) }
{
    if segments.is_empty() {
        return Err(ImportFault::NoSegment);
    }
    let mut parts = Vec::new(alloc);
    for segment in segments {
        let part = part_in(bytes, *segment)?;
        add_part(&mut parts, part)?;
    }
    Ok(parts)
}

// The parts of an ELF file.
fn elf_parts(alloc: Global, bytes: &[u8]) -> Result<Vec<Part<'_>>, ImportFault>
    ensures parts { IfOk result (λ parts. elf_parts bytes.now ≡ Ok (map part_of parts.items)) }
    ensures fault { IfErr result (λ fault. (fault ≡ ImportFault.Memory) ⊎ (elf_parts bytes.now ≡ Err fault)) }
{
    if let Some(fault) = header_fault(bytes) {
        return Err(fault);
    }
    let headers = headers_of(bytes)?;
    let segments = loaded_in(alloc, headers)?;
    parts_in(alloc, bytes, &segments)
}

/// The image of an ELF file: of its loadable segments, each at its virtual address (`p_vaddr`), with the
/// bytes that the file has of it, as [`import_parts`] makes it. Memory that a segment has beyond these is not
/// in the image. The file has 32 bits, the lowest byte first, and is an executable for ARM, as the ELF
/// specification (TIS, version 1.2) has it.
///
/// # Errors
///
/// The first of these: `AcornObject`, the file begins with the word C3CBC6C5; `NotElf`, it does not begin
/// with the bytes 7F 45 4C 46; `HeaderCut`, it has fewer than 52 bytes; `Not32Bit`, `NotLittleEndian`,
/// `NotVersion1`, `NotArm` and `NotExecutable`, its header says so; `BadEntrySize`, its program headers do not
/// have 32 bytes each; `TableOutside`, they are not all in the file; `NoSegment`, no loadable segment has
/// bytes; `SegmentOutside`, the first that is not all in the file, with its address. Else those of
/// [`import_parts`].
pub fn import_elf(alloc: Global, bytes: &[u8]) -> Result<Image, ImportFault>
    ensures image { IfOk result (λ image. elf_imported bytes.now ≡ Ok image) }
    ensures words { IfOk result (λ image. (parts : List Placed) × (elf_parts bytes.now ≡ Ok parts)
        × HoldsExactly image (words_of parts)) }
    ensures fault { IfErr result
        (λ fault. (fault ≡ ImportFault.Memory) ⊎ (elf_imported bytes.now ≡ Err fault)) }
{
    let parts = elf_parts(alloc, bytes)?;
    import_parts(alloc, &parts)
}
