use std::cmp::min;

/// What a stream is to hold.
#[derive(Drop)]
pub(crate) enum Wanted {
    /// These bytes.
    Whole(Vec<u8>),
    /// These bytes, and perhaps more.
    Front(Vec<u8>),
    /// It is not looked at.
    Any,
}

impl Wanted {
    /// The first byte, counted from 1, at which the found ones are not what is wanted.
    pub(crate) fn differs_at(&self, found: &[u8]) -> Option<usize> {
        match self {
            Wanted::Whole(bytes) => first_difference(bytes, found),
            Wanted::Front(bytes) => first_difference(
                bytes,
                &found[..min(found.len(), bytes.len())],
            ),
            Wanted::Any => None,
        }
    }
}

/// The first byte, counted from 1, that only one of the two has or that is another in each.
pub(crate) fn first_difference(wanted: &[u8], found: &[u8]) -> Option<usize> {
    let shorter = min(wanted.len(), found.len());
    for at in 0..shorter {
        if wanted[at] != found[at] {
            return Some(at + 1);
        }
    }
    if wanted.len() == found.len() {
        None
    } else {
        Some(shorter.saturating_add(1))
    }
}
