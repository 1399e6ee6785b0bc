use asm_text::{Shown, first_line, read_shown};

// Whether the text is shown for an instruction, and the address that it refers to.
fn shown(text: &[u8]) -> Option<Option<u32>> {
    match read_shown(text) {
        Some(Shown::Code(_)) => Some(None),
        Some(Shown::Refer(_, address)) => Some(Some(address)),
        None => None,
    }
}

// A line and what follows it.
type Lines = Option<(&'static [u8], &'static [u8])>;

static LINES: [(&[u8], Lines); 3] = [
    (b"a\r\nb", Some((b"a", b"b"))),
    (b"b\r", Some((b"b\r", b""))),
    (b"", None),
];

#[test]
fn first_lines(rt: HostRuntime) {
    for (text, wanted) in &LINES {
        assert!(rt; first_line(text) == *wanted);
    }
}

static SHOWN: [(&[u8], Option<Option<u32>>); 4] = [
    (b"MOV R0,#3", Some(None)),
    (b"B &8000", Some(Some(0x8000))),
    (b"mov R0,#3", None),
    (b"DCD 0", None),
];

#[test]
fn shown_lines(rt: HostRuntime) {
    for (text, wanted) in &SHOWN {
        assert!(rt; shown(text) == *wanted);
    }
}
