use std::fmt;
use std::fmt::Write;

/// How a run differs from what its case wants. Bytes are counted from 1.
#[derive(Clone, Copy)]
pub(crate) enum Difference {
    Status { found: u8, wanted: u8 },
    OutAt(usize),
    ErrAt(usize),
    ImageAt(usize),
    NoImage,
    ImageUnwanted,
}

impl fmt::Display for Difference {
    fn fmt<W: Write>(&self, f: &mut fmt::Formatter<W>) -> fmt::Result {
        match self {
            Difference::Status { found, wanted } => write!(f, "status {found}, not {wanted}"),
            Difference::OutAt(at) => write!(f, "standard output differs at byte {at}"),
            Difference::ErrAt(at) => write!(f, "standard error differs at byte {at}"),
            Difference::ImageAt(at) => write!(f, "wrote an image, which differs at byte {at}"),
            Difference::NoImage => write!(f, "wrote no image"),
            Difference::ImageUnwanted => write!(f, "wrote an image, where none is wanted"),
        }
    }
}
