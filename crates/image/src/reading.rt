ghost use Rattle.std.specs.Prelude.{suc, [], ◌∷◌, ◌++◌, ◌≡◌, ◌⊎◌, ◌+◌, ◌*◌, ◌<◌, ◌≤◌, List, Ok, Err, Some};
ghost use Rattle.std.specs.Prelude.{None, IfOk, IfErr, OnOk, length, replicate};
ghost use Rattle.std.specs.Prelude.{◌&&◌, nat_le, nat_lt};
ghost use Rattle.std.specs.List.{list_any};
ghost use Rattle.byteorder.specs.Endian.{little_number};
ghost use Rattle.image.specs.Image.{runs_of};
ghost use Rattle.image.specs.ImageBytes.{Segment, cut_fault, end_fault, head_address, head_count};
ghost use Rattle.image.specs.ImageBytes.{image_bytes, image_read, is_image, is_taken};
ghost use Rattle.image.specs.ImageBytes.{numbers, overlaps, segment_fault, segments_read, with_words};
ghost use Rattle.image.specs.Spelling.{Spell};

use crate::gap_buffer::Entry;
use crate::image::{Image, ImageFault};
use crate::places::{MOST_SEGMENTS, MOST_WORDS, lies_in_memory, may_hold};
use bus_ticks::SPACE_END;
use byteorder::{ByteOrder, LittleEndian};
use std::alloc::Global;
use std::collections::VecDeque;
use thiserror::Error;

/// The bytes with which every image begins.
pub(crate) const MAGIC: [u8; 8] = *b"ARC2IMG1";

/// Why bytes are no image.
#[derive(Clone, Copy, Debug, PartialEq, Eq, Drop, Error)]
pub enum ReadFault {
    /// An allocation failed.
    #[error("Memory")]
    Memory,
    /// The bytes do not begin with the magic.
    #[error("BadMagic")]
    BadMagic,
    /// Bytes are missing at the end.
    #[error("Truncated")]
    Truncated,
    /// A segment has a word at the address of an earlier segment's.
    #[error("Overlap")]
    Overlap,
    /// A segment's address is no multiple of 4.
    #[error("Misaligned")]
    Misaligned,
    /// Bytes follow the last segment.
    #[error("TrailingBytes")]
    TrailingBytes,
    /// More than 16 segments, a segment of no words, in I/O (3000000 to 33FFFFF) or past 4000000, or more
    /// than 65,536 words in all.
    #[error("OutOfRange")]
    OutOfRange,
}

/// Whether bytes begin as an image does, with the eight bytes `ARC2IMG1`. [`read_image`] says whether they
/// are one.
pub fn is_image(bytes: &[u8]) -> bool
    ensures { result ≡ is_image bytes.now }
{
    bytes.starts_with(&MAGIC)
}

// The number in four bytes, the lowest first; those that are missing count as 0.
fn little_number(bytes: &[u8]) -> u32
    ensures { result ≡ little_number 4 bytes.now }
{
    let mut padded = [0; 4];
    let standing = bytes.len().min(4);
    padded[..standing].copy_from_slice(&bytes[..standing]);
    LittleEndian::read_u32(&padded)
}

// The least number but 0 whose four bytes begin with so many 0s.
fn least_count(zeros: usize) -> u32
    ensures { result ≡ little_number 4 (replicate zeros 0 ++ 1 ∷ []) }
{
    match zeros {
        0 => 1,
        1 => 0x100,
        2 => 0x1_0000,
        3 => 0x100_0000,
        _ => 0,
    }
}

// What a segment's head says, or can at least say where bytes of it are missing.
#[derive(Clone, Copy)]
struct Head {
    address: u32,
    count: u32,
}

impl Head {
    // The address after the last word that the head says.
    fn end(self) -> u64
        ensures { result ≡ self.address + 4 * self.count }
    {
        u64::from(self.address) + 4 * u64::from(self.count)
    }

    fn of(bytes: &[u8]) -> Head
        ensures address { result.address ≡ head_address bytes.now }
        ensures count { result.count ≡ head_count bytes.now }
    {
        let after = &bytes[bytes.len().min(4)..];
        let count = little_number(after);
        Head {
            address: little_number(bytes),
            count: if count == 0 {
                least_count(after.len())
            } else {
                count
            },
        }
    }
}

// Whether there is a word from an address up to another.
fn lie_in(words: &[Entry], from: u32, to: u32) -> bool
    ensures { result ≡ list_any (λ e. nat_le from e.0 && nat_lt e.0 to) words.now }
{
    words.iter().any(|entry| from <= entry.0 && entry.0 < to)
}

fn above_lie_in(words: &VecDeque<Entry>, from: u32, to: u32) -> bool
    ensures { result ≡ list_any (λ e. nat_le from e.0 && nat_lt e.0 to) words.now.items }
{
    let (front, back) = words.as_slices();
    lie_in(front, from, to) || lie_in(back, from, to)
}

impl Image {
    // Whether there is a word at one of `count` addresses of words.
    fn overlaps(&self, address: u32, count: u32) -> bool
        requires inside { address + 4 * count ≤ SPACE_END }
        ensures { result ≡ overlaps self.now address count }
    {
        let end = address + 4 * count;
        // An image has few segments, so each may look at all words.
        lie_in(&self.below, address, end) || above_lie_in(&self.above, address, end)
    }

    // Why a segment cannot come after the words of the earlier ones.
    fn segment_fault(&self, head: Head) -> Option<ReadFault>
        ensures { result ≡ segment_fault self.now head.address head.count }
    {
        if head.address % 4 != 0 {
            return Some(ReadFault::Misaligned);
        }
        if head.count == 0 || !lies_in_memory(u64::from(head.address), head.end()) {
            return Some(ReadFault::OutOfRange);
        }
        if self.held() + head.count as usize > MOST_WORDS {
            return Some(ReadFault::OutOfRange);
        }
        if self.overlaps(head.address, head.count) {
            return Some(ReadFault::Overlap);
        }
        None
    }

    // Whether no word can be put at an address.
    fn is_taken(&self, address: u32) -> bool
        ensures { result ≡ is_taken self.now address }
    {
        !may_hold(address) || self.word_at(address).is_some()
    }

    // Why bytes that end too early, where they name so many words more and so many segments are to come, are
    // no image's.
    fn end_fault(&self, more: u32, to_come: u32) -> ReadFault
        ensures { result ≡ end_fault (length self.now + more) to_come }
    {
        if self.held() + more as usize + to_come as usize > MOST_WORDS {
            return ReadFault::OutOfRange;
        }
        ReadFault::Truncated
    }

    // Why bytes that end within the address of a segment, with so many others to come, are no image's.
    fn cut_fault(&self, others: u32, bytes: &[u8]) -> ReadFault
        requires cut { length bytes.now < 4 }
        ensures { result ≡ cut_fault self.now others bytes.now }
    {
        let low = Head::of(bytes).address;
        if low % 4 != 0 {
            return ReadFault::Misaligned;
        }
        if self.held() + 1 + others as usize > MOST_WORDS {
            return ReadFault::OutOfRange;
        }
        if bytes.len() == 3
            && self.is_taken(low)
            && self.is_taken(low + 0x100_0000)
            && self.is_taken(low + 0x200_0000)
            && self.is_taken(low + 0x300_0000)
        {
            return ReadFault::Overlap;
        }
        ReadFault::Truncated
    }

    // Puts the words of a segment that can come after those of the image.
    fn put_segment(&mut self, alloc: Global, head: Head, bytes: &[u8]) -> Result<(), ReadFault>
        requires allowed { segment_fault self.old head.address head.count ≡ None }
        requires standing { 4 * head.count ≤ length bytes.now }
        requires room { runs_of self.old < MOST_SEGMENTS }
        ensures ok { OnOk result
            (self.new ≡ with_words self.old head.address (numbers head.count bytes.now)) }
        ensures few { OnOk result (runs_of self.new ≤ runs_of self.old + 1) }
        ensures memory { IfErr result (λ fault. fault ≡ ReadFault.Memory) }
    {
        for next in 0..head.count {
            self.whole();
            let word = LittleEndian::read_u32(&bytes[4 * next as usize..]);
            match self.put(alloc, head.address + 4 * next, word) {
                Ok(()) => {}
                Err(ImageFault::Memory) => return Err(ReadFault::Memory),
                Err(ImageFault::OutOfRange) => unreachable!(),
                Err(ImageFault::TooLong) => unreachable!(),
            }
        }
        Ok(())
    }
}

// Puts the words of the segment that the bytes begin with, with so many others to come, and answers the bytes
// after it.
fn read_segment<'a>(
    alloc: Global,
    image: &mut Image,
    others: u32,
    bytes: &'a [u8],
) -> Result<&'a [u8], ReadFault>
    requires room { runs_of image.old < MOST_SEGMENTS }
    ensures rest { IfOk result
        (λ rest. segments_read (suc others) image.old bytes.now ≡ segments_read others image.new rest.now) }
    ensures few { OnOk result (runs_of image.new ≤ runs_of image.old + 1) }
    ensures fault { IfErr result
        (λ fault. (fault ≡ ReadFault.Memory) ⊎ (segments_read (suc others) image.old bytes.now ≡ Err fault)) }
{
    if bytes.len() < 4 {
        return Err(image.cut_fault(others, bytes));
    }
    let head = Head::of(bytes);
    if let Some(fault) = image.segment_fault(head) {
        return Err(fault);
    }
    let end = 8 + 4 * head.count as usize;
    if bytes.len() < end {
        return Err(image.end_fault(head.count, others));
    }
    image.put_segment(alloc, head, &bytes[8..])?;
    Ok(&bytes[end..])
}

// The number of segments, and the bytes after it.
fn read_count(bytes: &[u8]) -> Result<(u32, &[u8]), ReadFault>
    ensures count { IfOk result
        (λ start. (image_read bytes.now ≡ segments_read start.0 [] start.1.now) × (start.0 ≤ MOST_SEGMENTS)) }
    ensures fault { IfErr result (λ fault. image_read bytes.now ≡ Err fault) }
{
    let standing = bytes.len().min(8);
    if bytes[..standing] != MAGIC[..standing] {
        return Err(ReadFault::BadMagic);
    }
    if bytes.len() < 8 {
        return Err(ReadFault::Truncated);
    }
    let count = Head::of(&bytes[8..]).address;
    if count as usize > MOST_SEGMENTS {
        return Err(ReadFault::OutOfRange);
    }
    if bytes.len() < 12 {
        return Err(ReadFault::Truncated);
    }
    Ok((count, &bytes[12..]))
}

/// Reads an image from its bytes: the eight bytes `ARC2IMG1`, the number of segments, and of each segment its
/// address, its number of words and its words, every number in 32 bits, the lowest byte first.
///
/// # Errors
///
/// The first from the front: `BadMagic`, `OutOfRange`, `Misaligned` and `Overlap` as soon as the bytes cannot
/// be those of an image, `Truncated` where they end too early, `TrailingBytes` where they go on, and `Memory`
/// where an allocation failed.
pub fn read_image(alloc: Global, bytes: &[u8]) -> Result<Image, ReadFault>
    ensures image { IfOk result (λ image. image_read bytes.now ≡ Ok image) }
    ensures spelled { IfOk result
        (λ image. (segments : List Segment) × (bytes.now ≡ image_bytes segments) × Spell segments image) }
    ensures fault { IfErr result (λ fault. (fault ≡ ReadFault.Memory) ⊎ (image_read bytes.now ≡ Err fault)) }
{
    let (count, start) = read_count(bytes)?;
    let mut rest = start;
    let mut image = Image::new(alloc);
    for done in 0..count {
        rest = read_segment(alloc, &mut image, count - 1 - done, rest)?;
    }
    if !rest.is_empty() {
        return Err(ReadFault::TrailingBytes);
    }
    Ok(image)
}
