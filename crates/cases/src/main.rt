//! Judges the program `arcwcet` by what lies in `data/`: the cases, commands over the system's own files and
//! streams, one of them where the disc is full, and the sample handlers. It fails where one of them does.
#![tactic(auto)]

mod cases;
mod host;
mod sample_handlers;

use cases::judge_cases;
use host::run_commands;
use sample_handlers::judge_handlers;
use std::io;
use std::process::ExitCode;

fn main(rt: HostRuntime) -> io::Result<ExitCode> {
    let cases_passed = judge_cases(&rt)?;
    run_commands(&rt)?;
    let handlers_passed = judge_handlers(&rt)?;
    Ok(if cases_passed && handlers_passed {
        ExitCode::SUCCESS
    } else {
        ExitCode::FAILURE
    })
}
