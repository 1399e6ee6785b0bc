use crate::placed_line::PlacedLine;
use image::{Image, Labels};

/// A source with what the assembler made of it.
#[derive(Clone, Copy)]
pub struct Program<'a> {
    /// The source's bytes.
    pub source: &'a [u8],
    /// Where each of its lines is placed, in their order. An image has no lines.
    pub placed: &'a [PlacedLine],
    /// Its words.
    pub image: &'a Image,
    /// Its labels.
    pub labels: &'a Labels,
}
