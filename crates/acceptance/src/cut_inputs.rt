//! Inputs that are cut at each byte, and the bytes of an image changed in turn.

use crate::answers::{Input, TAKEN, is_answer};
use samples::countdown::{CERTIFICATE, IMAGE, MACHINE, STATEMENT};
use samples::lone_return;
use std::alloc::{AllocError, Global};
use std::test::Fail;

const PROFILE: &[u8] = b"n=3\ns=1\nquad=2\nrom=[5,4,3,2]\nio=[8,6,5,10]\ncontrol=2\nunfitted=2\n\
    internal=1\nburst=8\n";

// What a report says of an input, by the length of the front that is left: each row up to so many bytes.
type Fronts = &'static [(usize, &'static str)];

type Cut = (Input, &'static [u8], Fronts);

const SOURCE_FRONTS: Fronts = &[
    (1, TAKEN),
    (3, "UnknownWord at line 1"),
    (6, "BadOperand at line 1"),
    (7, "OutOfRange at line 1"),
    (10, TAKEN),
    (12, "UnknownWord at line 2"),
    (23, "BadOperand at line 2"),
    (25, TAKEN),
];

// A front of what begins an image is a label.
const IMAGE_FRONTS: Fronts = &[(7, TAKEN), (35, "Truncated"), (36, TAKEN)];

const STATEMENT_FRONTS: Fronts = &[
    (0, "WrongKind"),
    (8, "NotToml"),
    (9, "OutsideImage at 0"),
    (10, "NotToml"),
    (11, "OutsideImage at 8"),
    (12, "OutsideImage at 80"),
    (13, "OutsideImage at 800"),
    (15, "UnboundedCycle"),
    (22, "NotToml"),
    (24, "WrongKind"),
    (33, "NotToml"),
    (34, "WrongKind"),
    (35, "NotToml"),
    (40, "WrongKind"),
    (48, "NotToml"),
    (49, "WrongKind"),
    (50, "NotToml"),
    (55, "WrongKind"),
    (62, "NotToml"),
    (63, "WrongKind"),
    (64, "NotToml"),
    (69, "WrongKind"),
    (77, "NotToml"),
    (79, TAKEN),
];

const CUTS: [Cut; 11] = [
    (Input::Source, lone_return::SOURCE, SOURCE_FRONTS),
    (Input::Listed, lone_return::SOURCE, SOURCE_FRONTS),
    (Input::Drafted, lone_return::SOURCE, SOURCE_FRONTS),
    (Input::Source, &IMAGE, IMAGE_FRONTS),
    (Input::Listed, &IMAGE, IMAGE_FRONTS),
    (Input::Drafted, &IMAGE, IMAGE_FRONTS),
    (Input::Statement, STATEMENT, STATEMENT_FRONTS),
    (Input::Explained, STATEMENT, STATEMENT_FRONTS),
    (
        Input::Machine,
        MACHINE,
        &[
            (0, "WrongKind"),
            (8, "NotToml"),
            (10, "WrongKind"),
            (15, "NotToml"),
            (16, TAKEN),
            (17, "NotToml"),
            (22, TAKEN),
            (33, "NotToml"),
            (35, TAKEN),
            (45, "NotToml"),
            (47, TAKEN),
            (57, "NotToml"),
            (58, TAKEN),
            (59, "NotToml"),
            (64, TAKEN),
        ],
    ),
    (
        Input::Profile,
        PROFILE,
        &[
            (0, "WrongKind"),
            (2, "NotToml"),
            (4, "WrongKind"),
            (6, "NotToml"),
            (8, "WrongKind"),
            (13, "NotToml"),
            (15, "WrongKind"),
            (27, "NotToml"),
            (29, "WrongKind"),
            (41, "NotToml"),
            (43, "WrongKind"),
            (51, "NotToml"),
            (53, "WrongKind"),
            (62, "NotToml"),
            (64, "WrongKind"),
            (73, "NotToml"),
            (75, "WrongKind"),
            (81, "NotToml"),
            (83, TAKEN),
        ],
    ),
    (
        Input::Certificate,
        CERTIFICATE,
        &[
            (CERTIFICATE.len() - 1, "Truncated"),
            (CERTIFICATE.len(), TAKEN),
        ],
    ),
];

// What a byte of the image is made.
const VALUES: [u8; 3] = [0x00, 0x7F, 0xFF];

// What a report says of the image with a byte made each of these: each row up to so many bytes in front.
const CHANGES: [(usize, [&str; 3]); 10] = [
    // What begins an image, in front of a text that is none.
    (
        7,
        [
            "NotText at line 1",
            "NotText at line 1",
            "NotText at line 1",
        ],
    ),
    // The number of segments.
    (8, ["TrailingBytes", "OutOfRange", "OutOfRange"]),
    (11, [TAKEN, "OutOfRange", "OutOfRange"]),
    // The address.
    (12, [TAKEN, "Misaligned", "Misaligned"]),
    (14, [TAKEN, TAKEN, TAKEN]),
    (15, [TAKEN, "OutOfRange", "OutOfRange"]),
    // The number of words.
    (16, ["OutOfRange", "Truncated", "Truncated"]),
    (17, [TAKEN, "Truncated", "Truncated"]),
    (19, [TAKEN, "OutOfRange", "OutOfRange"]),
    // The words.
    (35, [TAKEN, TAKEN, TAKEN]),
];

// The first row that goes so far.
fn row_at<T: Copy>(rows: &[(usize, T)], at: usize) -> Option<T> {
    for (most, row) in rows {
        if at <= *most {
            return Some(*row);
        }
    }
    None
}

// The length at which a report says something else of an input, if there is one.
fn first_wrong_cut(alloc: Global, cut: &Cut) -> Result<Option<usize>, AllocError> {
    let (input, bytes, rows) = cut;
    for length in 0..=bytes.len() {
        let Some(answer) = row_at(rows, length) else {
            return Ok(Some(length));
        };
        if !is_answer(alloc, *input, &bytes[..length], answer)? {
            return Ok(Some(length));
        }
    }
    Ok(None)
}

// Whether the reports say the right things of the image with that byte changed.
fn are_answers(alloc: Global, at: usize, wanted: &[&str; 3]) -> Result<bool, AllocError> {
    for (value, answer) in VALUES.iter().zip(wanted.iter()) {
        let mut image = IMAGE;
        if let Some(byte) = image.get_mut(at) {
            *byte = *value;
        }
        if !is_answer(alloc, Input::Source, &image, answer)? {
            return Ok(false);
        }
    }
    Ok(true)
}

#[test]
fn cut_and_changed_inputs(rt: HostRuntime) -> Result<(), Fail> {
    let alloc = rt.alloc();
    for (number, cut) in CUTS.iter().enumerate() {
        assert_eq!(rt; first_wrong_cut(alloc, cut)?, None, "input {number}");
    }
    for at in 0..IMAGE.len() {
        let is_right = match row_at(&CHANGES, at) {
            Some(wanted) => are_answers(alloc, at, &wanted)?,
            None => false,
        };
        assert!(rt; is_right, "byte {at}");
    }
    Ok(())
}
