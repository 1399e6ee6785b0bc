use arm2_exec::Why;
use std::test::Fail;
use text_trace::write_stop;

#[test]
fn stop_is_reported(rt: HostRuntime) -> Result<(), Fail> {
    let mut out = String::new(rt.alloc());
    write_stop(&mut out, Why::UnsupportedWrite, 0x3F)?;
    assert!(rt; out.as_str() == "stopped UnsupportedWrite at 3F\n");
    Ok(())
}
