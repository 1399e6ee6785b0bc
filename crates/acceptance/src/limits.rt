//! The most places of a graph.

use arcwcet::{MemoryOutput, ReportFault, SourceFile, bound_report};
use flow_graph::BuildFault;
use std::alloc::{AllocError, Global};
use std::test::Fail;

const HEAD: &[u8] = b"arcwcet certificate 1\nbound 20488\nstep 8000 do 8004 1\n";

// `MOV R0,#3` so many times from 8000 on, and a return.
fn straight_code(alloc: Global, words: u32) -> Result<String, AllocError> {
    let mut source = String::new(alloc);
    for _ in 0..words {
        source.push_str(" MOV R0,#3\n")?;
    }
    source.push_str(" SUBS PC,R14,#4\n")?;
    Ok(source)
}

#[test]
fn longest_straight_code(rt: HostRuntime) -> Result<(), Fail> {
    let alloc = rt.alloc();
    let rows = [
        (16_383, Ok(())),
        (16_384, Err(ReportFault::Graph(BuildFault::TooManyPlaces))),
    ];
    for (words, wanted) in rows {
        let source = straight_code(alloc, words)?;
        let mut out = MemoryOutput::with_room(alloc, 0)?;
        let file = SourceFile::plain(source.as_bytes());
        let answer = bound_report(alloc, file, b"entry = 0x8000", None, &mut out);
        let found = (answer, out.bytes().starts_with(HEAD));
        assert_eq!(rt; found, (wanted, wanted.is_ok()), "{words}");
    }
    Ok(())
}
