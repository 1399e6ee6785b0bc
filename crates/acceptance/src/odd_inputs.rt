//! Inputs that are deep, long or no text.

use crate::answers::{Input, TAKEN, is_answer};
use std::alloc::{AllocError, Global};
use std::test::Fail;

// Parts, and how often each of them appears.
type Text = &'static [(&'static [u8], usize)];

// The documents of TOML, and a key of each.
const FORMATS: [(Input, &[u8]); 3] = [
    (Input::Statement, b"entry = "),
    (Input::Machine, b"pc = "),
    (Input::Profile, b"n = "),
];

// What follows a key of each format in turn, and what a report says of it. TOML's reader takes lists and
// inline tables up to 80 deep, and no integer of more than 64 bits.
const VALUES: [(Text, [&str; 3]); 13] = [
    (&[(b"[", 80), (b"]", 80)], ["WrongKind"; 3]),
    (&[(b"[", 81), (b"]", 81)], ["NotToml"; 3]),
    (&[(b"[", 10_000)], ["NotToml"; 3]),
    (&[(b"[", 10_000), (b"]", 10_000)], ["NotToml"; 3]),
    (&[(b"{a=", 10_000)], ["NotToml"; 3]),
    (
        &[(b"{a=", 10_000), (b"1", 1), (b"}", 10_000)],
        ["NotToml"; 3],
    ),
    (&[(b"1", 1_000)], ["NotToml"; 3]),
    (&[(b"-", 1), (b"9", 1_000)], ["NotToml"; 3]),
    (&[(b"0x", 1), (b"F", 1_000)], ["NotToml"; 3]),
    (&[(b"0.", 1), (b"1", 1_000)], ["WrongKind"; 3]),
    // A text is a label, where there may be one.
    (
        &[(b"\"", 1), (b"k", 1_000_000), (b"\"", 1)],
        ["UnknownLabel", "WrongKind", "WrongKind"],
    ),
    (&[(b"\"", 1), (b"k", 1_000_000)], ["NotToml"; 3]),
    (&[(b"\"\0\"", 1)], ["NotToml"; 3]),
];

// Whole documents, and what a report says of each in all formats.
const DOCUMENTS: [(Text, &str); 11] = [
    (&[(b"a", 1), (b".a", 79), (b" = 1\n", 1)], "UnknownKey"),
    (&[(b"a", 1), (b".a", 80), (b" = 1\n", 1)], "NotToml"),
    (&[(b"a", 1), (b".a", 10_000), (b" = 1\n", 1)], "NotToml"),
    (&[(b"[a", 1), (b".a", 10_000), (b"]\n", 1)], "NotToml"),
    (&[(b"k", 1_000_000), (b" = 1\n", 1)], "UnknownKey"),
    (
        &[(b"\"", 1), (b"k", 1_000_000), (b"\" = 1\n", 1)],
        "UnknownKey",
    ),
    (&[(b"\0", 1)], "NotToml"),
    (&[(b"# \0", 1)], "NotToml"),
    // The start of a character, a character too long by a byte, and half of a pair.
    (&[(b"# \xE2\x82", 1)], "NotToml"),
    (&[(b"# \xC0\x80", 1)], "NotToml"),
    (&[(b"# \xED\xA0\x80", 1)], "NotToml"),
];

const SOURCES: [(Text, &str); 8] = [
    (&[(b";", 1), (b"x", 16_777_215)], TAKEN),
    (&[(b"l", 16_777_216)], "UnknownWord at line 1"),
    (
        &[(b" MOV R0,#", 1), (b"1", 16_777_207)],
        "BadOperand at line 1",
    ),
    (
        &[(b"\n", 16_777_215), (b"1", 1)],
        "UnknownWord at line 16777216",
    ),
    (&[(b" DCD 0\n", 65_536)], TAKEN),
    (&[(b" DCD 0\n", 65_537)], "TooLong at line 65537"),
    (&[(b" DCD 0", 1), (b",0", 65_535)], TAKEN),
    (&[(b" DCD 0", 1), (b",0", 65_536)], "TooLong at line 1"),
];

fn bytes_of(alloc: Global, front: &[u8], text: Text) -> Result<Vec<u8>, AllocError> {
    let mut bytes = Vec::from_slice(alloc, front)?;
    for (part, times) in text {
        for _ in 0..*times {
            bytes.extend_from_slice(part)?;
        }
    }
    Ok(bytes)
}

// Whether reports say that of a text as each format, after a key of it or by itself.
fn are_answers(
    alloc: Global,
    text: Text,
    has_key: bool,
    answers: &[&str; 3],
) -> Result<bool, AllocError> {
    for ((input, key), answer) in FORMATS.iter().zip(answers.iter()) {
        let front = if has_key { *key } else { b"".as_slice() };
        let bytes = bytes_of(alloc, front, text)?;
        if !is_answer(alloc, *input, &bytes, answer)? {
            return Ok(false);
        }
    }
    Ok(true)
}

// The number of the first value of which a report says something else.
fn first_wrong_value(
    alloc: Global,
    rows: &[(Text, [&str; 3])],
) -> Result<Option<usize>, AllocError> {
    for (number, (text, answers)) in rows.iter().enumerate() {
        if !are_answers(alloc, text, true, answers)? {
            return Ok(Some(number));
        }
    }
    Ok(None)
}

// The same of documents.
fn first_wrong_document(alloc: Global, rows: &[(Text, &str)]) -> Result<Option<usize>, AllocError> {
    for (number, (text, answer)) in rows.iter().enumerate() {
        if !are_answers(alloc, text, false, &[*answer; 3])? {
            return Ok(Some(number));
        }
    }
    Ok(None)
}

// The same of sources.
fn first_wrong_source(alloc: Global, rows: &[(Text, &str)]) -> Result<Option<usize>, AllocError> {
    for (number, (text, answer)) in rows.iter().enumerate() {
        let bytes = bytes_of(alloc, b"", text)?;
        if !is_answer(alloc, Input::Source, &bytes, answer)? {
            return Ok(Some(number));
        }
    }
    Ok(None)
}

#[test]
fn odd_inputs(rt: HostRuntime) -> Result<(), Fail> {
    let alloc = rt.alloc();
    assert_eq!(rt; first_wrong_value(alloc, &VALUES)?, None);
    assert_eq!(rt; first_wrong_document(alloc, &DOCUMENTS)?, None);
    assert_eq!(rt; first_wrong_source(alloc, &SOURCES)?, None);
    Ok(())
}
