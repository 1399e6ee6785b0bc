//! Bounds the run time of interrupt handlers.
#![tactic(auto)]

use arcwcet::{
    AnnouncedStore, ClockTimer, HostStore, LateOutput, StreamInput, StreamOutput, WatchedOutput,
    shown_program,
};
use std::io::{IsTerminal, Stderr};
use std::process::ExitCode;
use std::rt::Env;
use std::{env, io};

// Why there are no words.
#[derive(Clone, Copy)]
enum WordsFault {
    Memory,
    NotText,
}

impl WordsFault {
    fn text(self) -> &'static str {
        match self {
            WordsFault::Memory => "refused: Memory",
            WordsFault::NotText => "error: a word of the command line is not UTF-8",
        }
    }

    fn status(self) -> u8 {
        match self {
            WordsFault::Memory => 3,
            WordsFault::NotText => 2,
        }
    }
}

fn words_of<R: Env + AllocGlobal>(rt: &R) -> Result<Vec<String>, WordsFault> {
    match env::args(rt) {
        Ok(words) => words.collect(rt.alloc()).map_err(|_| WordsFault::Memory),
        Err(error) if error.kind() == io::ErrorKind::OutOfMemory => Err(WordsFault::Memory),
        Err(_) => Err(WordsFault::NotText),
    }
}

// Whether a word is the option for lines on what is being done, wherever it stands.
fn asks_for_progress(words: &[String]) -> bool {
    words.iter().any(|word| word.as_str() == "--progress")
}

fn late_output(
    rt: &HostRuntime,
    at_once: bool,
) -> LateOutput<StreamOutput<Stderr>, ClockTimer<'_, HostRuntime>> {
    LateOutput {
        out: StreamOutput::new(rt.stderr()),
        timer: ClockTimer::new(rt),
        at_once,
    }
}

fn main(rt: HostRuntime) -> ExitCode {
    let alloc = rt.alloc();
    let words = match words_of(&rt) {
        Ok(words) => words,
        Err(fault) => {
            let _ = eprintln!(rt; "{}", fault.text());
            return ExitCode::from(fault.status());
        }
    };
    // Lines on what is being done go to standard error too: at a terminal of themselves, but late.
    let at_once = asks_for_progress(&words);
    let mut store = AnnouncedStore::new(HostStore::new(&rt), late_output(&rt, at_once));
    store.unasked = rt.stderr().is_terminal();
    let mut input = StreamInput::new(rt.reader());
    let mut out = WatchedOutput::new(StreamOutput::new(rt.stdout()), late_output(&rt, at_once));
    let mut err = StreamOutput::new(rt.stderr());
    ExitCode::from(shown_program(
        alloc,
        words.as_slice(),
        &mut store,
        &mut input,
        &mut out,
        &mut err,
    ))
}
