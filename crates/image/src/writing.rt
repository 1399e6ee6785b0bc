ghost use Rattle.std.specs.Prelude.{◌≡◌, ◌<◌, ◌≤◌, ◌++◌, Ok, IfOk, OnOk, IfErr, flat_map, length};
ghost use Rattle.byteorder.specs.Endian.{little_bytes};
ghost use Rattle.image.specs.ImageBytes.{image_bytes, image_read, segment_bytes, segments_of};
ghost use Rattle.image.specs.Writing.{is_next, run_after, segment_in};

use crate::image::{Image, ImageFault};
use crate::places::MOST_WORDS;
use crate::reading::MAGIC;
use byteorder::{ByteOrder, LittleEndian};
use std::alloc::{AllocError, Global};

// Adds a number in four bytes, the lowest first.
fn push_number(bytes: &mut Vec<u8>, number: u32) -> Result<(), AllocError>
    ensures { OnOk result (bytes.new.items ≡ bytes.old.items ++ little_bytes 4 number) }
{
    let mut four = [0; 4];
    LittleEndian::write_u32(&mut four, number);
    bytes.extend_from_slice(&four)
}

// Adds the segment of some words side by side: its address, its number of words and its words.
fn push_segment(bytes: &mut Vec<u8>, address: u32, run: &[(u32, u32)]) -> Result<(), AllocError>
    requires few { length run.now ≤ MOST_WORDS }
    ensures { OnOk result (bytes.new.items ≡ bytes.old.items ++ segment_bytes (segment_in address run.now)) }
{
    push_number(bytes, address)?;
    push_number(bytes, run.len() as u32)?;
    for entry in run {
        push_number(bytes, entry.1)?;
    }
    Ok(())
}

// Whether a word is right after an address.
fn is_next(before: u32, entry: &(u32, u32)) -> bool
    ensures { result ≡ is_next before entry.now }
{
    u64::from(entry.0) == u64::from(before) + 4
}

// The number of words that are side by side after an address.
fn run_after(address: u32, words: &[(u32, u32)]) -> usize
    ensures count { result ≡ run_after address words.now }
    ensures within { result ≤ length words.now }
{
    let mut before = address;
    for (count, entry) in words.iter().enumerate() {
        if !is_next(before, entry) {
            return count;
        }
        before = entry.0;
    }
    words.len()
}

// Adds the segments of words, whose addresses ascend.
fn push_segments(bytes: &mut Vec<u8>, words: &[(u32, u32)]) -> Result<(), AllocError>
    requires few { length words.now ≤ MOST_WORDS }
    ensures { OnOk result
        (bytes.new.items ≡ bytes.old.items ++ flat_map segment_bytes (segments_of words.now)) }
{
    let mut rest = words;
    while let [first, after @ ..] = rest {
        let length = 1 + run_after(first.0, after);
        let (run, others) = rest.split_at(length);
        push_segment(bytes, first.0, run)?;
        rest = others;
    }
    Ok(())
}

/// Writes an image as bytes: the eight bytes `ARC2IMG1`, the number of segments, and of each segment its
/// address, its number of words and its words, every number in 32 bits, the lowest byte first.
///
/// The segments are the maximal runs of words side by side, by ascending addresses.
///
/// # Errors
///
/// `Memory`: an allocation failed.
pub fn write_image(alloc: Global, image: &Image) -> Result<Vec<u8>, ImageFault>
    ensures bytes { IfOk result (λ bytes. bytes.items ≡ image_bytes (segments_of image.now)) }
    ensures back { IfOk result (λ bytes. image_read bytes.items ≡ Ok image.now) }
    ensures fault { IfErr result (λ fault. fault ≡ ImageFault.Memory) }
{
    image.whole();
    let words = image.listed(alloc)?;
    let mut bytes = Vec::from_slice(alloc, &MAGIC)?;
    push_number(&mut bytes, image.segments())?;
    push_segments(&mut bytes, &words)?;
    Ok(bytes)
}
