//! Lines on what was written: no case prints enough to show a second one.

use arcwcet::{MemoryOutput, WatchedOutput, write_whole};
use std::test::Fail;

#[test]
fn writing_is_shown_by_stretches(rt: HostRuntime) -> Result<(), Fail> {
    let alloc = rt.alloc();
    let stretch = vec![in alloc; b'x'; 16_777_216]?;
    let mut out = WatchedOutput::new(
        MemoryOutput::with_room(alloc, 0)?,
        MemoryOutput::with_room(alloc, 0)?,
    );
    write_whole(&mut out, &stretch)?;
    assert_eq!(rt; out.lines.bytes(), b"writing: 0 MiB\n".as_slice());
    write_whole(&mut out, b"x")?;
    assert_eq!(rt;
        out.lines.bytes(),
        b"writing: 0 MiB\nwriting: 16 MiB\n".as_slice()
    );
    Ok(())
}
