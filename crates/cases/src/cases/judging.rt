use crate::cases::case::{Case, CaseFault, read_case};
use crate::cases::case_store::CaseStore;
use crate::cases::difference::Difference;
use crate::cases::wanted::first_difference;
use arcwcet::{AnnouncedStore, MemoryOutput, StreamInput, WatchedOutput, shown_program};
use std::alloc::{AllocError, Global};
use std::rt::Files;

// The results of a run of the program.
#[derive(Clone, Copy)]
struct Found<'a> {
    status: u8,
    out: &'a [u8],
    err: &'a [u8],
    image: &'a Option<Vec<u8>>,
}

// The first difference, where there is one.
fn difference(case: &Case, found: Found<'_>) -> Option<Difference> {
    if found.status != case.status {
        return Some(Difference::Status {
            found: found.status,
            wanted: case.status,
        });
    }
    if let Some(at) = case.out.differs_at(found.out) {
        return Some(Difference::OutAt(at));
    }
    if let Some(at) = case.err.differs_at(found.err) {
        return Some(Difference::ErrAt(at));
    }
    match (&case.image, found.image) {
        (Some(wanted), Some(found)) => match first_difference(wanted, found) {
            Some(at) => Some(Difference::ImageAt(at)),
            None => None,
        },
        (Some(_), None) => Some(Difference::NoImage),
        (None, Some(_)) => Some(Difference::ImageUnwanted),
        (None, None) => None,
    }
}

// All that standard error took: the lines on what is done come before those of a refusal.
fn joined(alloc: Global, parts: [&[u8]; 3]) -> Result<Vec<u8>, AllocError> {
    let mut whole = Vec::new(alloc);
    for part in parts {
        whole.extend_from_slice(part)?;
    }
    Ok(whole)
}

/// Judges the case in the folder of that name.
pub(crate) fn judge<R: Files + AllocGlobal>(
    rt: &R,
    name: &str,
) -> Result<Option<Difference>, CaseFault> {
    let alloc = rt.alloc();
    let case = read_case(rt, name)?;
    let mut store = AnnouncedStore::new(
        CaseStore::new(rt, name),
        MemoryOutput::with_room(alloc, 0)?,
    );
    let mut input = StreamInput::new(case.input.as_slice());
    let mut out = WatchedOutput::new(
        MemoryOutput::with_room(alloc, 0)?,
        MemoryOutput::with_room(alloc, 0)?,
    );
    let mut err = MemoryOutput::with_room(alloc, 0)?;
    let status = shown_program(
        alloc,
        &case.words,
        &mut store,
        &mut input,
        &mut out,
        &mut err,
    );
    let shown = joined(alloc, [store.lines.bytes(), out.lines.bytes(), err.bytes()])?;
    let found = Found {
        status,
        out: out.out.bytes(),
        err: &shown,
        image: &store.store.written,
    };
    Ok(difference(&case, found))
}
