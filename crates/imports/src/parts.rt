ghost use Rattle.std.specs.Prelude.{◌≡◌, ◌⊎◌, ◌+◌, ℕ, Ok, Err, None, Some, IfErr, IfOk, OnOk, map};
ghost use Rattle.byteorder.specs.Endian.{little_number};
ghost use Rattle.image.specs.Image.{with_word};
ghost use Rattle.imports.specs.Imported.{HoldsExactly, imported, part_of, part_words, put_each};
ghost use Rattle.imports.specs.Imported.{word_fault, words_of};

use crate::fault::ImportFault;
use byteorder::{ByteOrder, LittleEndian};
use image::{Image, ImageFault, MOST_SEGMENTS, may_hold};
use std::alloc::Global;

/// The most parts of which an image is imported: as many as it may have segments.
pub const MOST_PARTS: usize = MOST_SEGMENTS;

/// Bytes that lie in memory from an address on.
#[derive(Clone, Copy)]
pub struct Part<'a> {
    /// The address of the first of its words.
    pub address: u32,
    pub bytes: &'a [u8],
}

// The number in the first four bytes, the lowest first; those that are missing count as 0.
pub(crate) fn first_number(bytes: &[u8]) -> u32
    ensures { result ≡ little_number 4 bytes.now }
{
    let mut padded = [0; 4];
    let standing = bytes.len().min(4);
    padded[..standing].copy_from_slice(&bytes[..standing]);
    LittleEndian::read_u32(&padded)
}

// Puts a word, and answers the address behind it.
fn put_word(alloc: Global, image: &mut Image, address: u32, word: u32) -> Result<u32, ImportFault>
    ensures next { IfOk result (λ next. next ≡ address + 4) }
    ensures ok { OnOk result
        ((word_fault image.old address word ≡ None) × (image.new ≡ with_word image.old address word)) }
    ensures fault { IfErr result
        (λ fault. (fault ≡ ImportFault.Memory) ⊎ (word_fault image.old address word ≡ Some fault)) }
{
    if address % 4 != 0 {
        return Err(ImportFault::Misaligned(address));
    }
    if !may_hold(address) {
        return Err(ImportFault::OutOfRange(address));
    }
    match image.put(alloc, address, word) {
        Ok(()) => Ok(address + 4),
        Err(ImageFault::Memory) => Err(ImportFault::Memory),
        Err(ImageFault::OutOfRange) => Err(ImportFault::Overlap(address)),
        Err(ImageFault::TooLong) => Err(ImportFault::TooLong(address)),
    }
}

// Puts the words of a part.
fn put_part(alloc: Global, image: &mut Image, part: Part<'_>) -> Result<(), ImportFault>
    ensures ok { OnOk result (put_each image.old (part_words (part_of part.entry)) ≡ Ok image.new) }
    ensures fault { IfErr result (λ fault. (fault ≡ ImportFault.Memory)
        ⊎ (put_each image.old (part_words (part_of part.entry)) ≡ Err fault)) }
{
    let mut address = part.address;
    let mut rest = part.bytes;
    while !rest.is_empty() {
        address = put_word(alloc, image, address, first_number(rest))?;
        rest = &rest[rest.len().min(4)..];
    }
    Ok(())
}

/// The image of parts: at each address that a part covers the word of the four bytes there, the lowest first,
/// and no other words. Bytes that a part's last word misses are 0.
///
/// # Errors
///
/// `TooManyParts`: more than 16 parts. Else the fault of the first word, part after part, that an image of
/// those before it does not take: `Misaligned`, its address is no multiple of 4; `OutOfRange`, it is in I/O
/// (3000000 to 33FFFFF) or past 3FFFFFC; `Overlap`, there is a word already; `TooLong`, a 65,537th word.
/// `Memory`: an allocation failed.
pub fn import_parts(alloc: Global, parts: &[Part<'_>]) -> Result<Image, ImportFault>
    ensures image { IfOk result (λ image. imported (map part_of parts.now) ≡ Ok image) }
    ensures words { IfOk result (λ image. HoldsExactly image (words_of (map part_of parts.now))) }
    ensures fault { IfErr result
        (λ fault. (fault ≡ ImportFault.Memory) ⊎ (imported (map part_of parts.now) ≡ Err fault)) }
{
    if parts.len() > MOST_PARTS {
        return Err(ImportFault::TooManyParts);
    }
    let mut image = Image::new(alloc);
    for part in parts {
        put_part(alloc, &mut image, *part)?;
    }
    Ok(image)
}

/// States that an image is imported of at most 16 parts. It does nothing.
pub fn import_limits()
    ensures { MOST_PARTS ≡ 16 }
{}
