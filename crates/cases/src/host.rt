//! Commands in turn over the system's own files and streams. What is stored as this program's output is what
//! standard output took, each command's status, and which image is there.

mod full_disc;

use arcwcet::{HostStore, Store, StreamInput, StreamOutput, program};
use full_disc::FullDisc;
use std::alloc::{AllocError, Global};
use std::{fs, io};

// Each as its words after the program's name: the image that `asm` writes is what the others read.
const COMMANDS: [&str; 6] = [
    "asm countdown.s countdown.image",
    "bound countdown.image statement.toml",
    "check countdown.image statement.toml countdown.cert",
    "run countdown.image machine.toml",
    "asm countdown.s missing/countdown.image",
    "bound missing.s statement.toml",
];

// What is run where the disc is full.
const CUT: &str = "asm countdown.s cut.image";

const IMAGES: [&str; 2] = ["countdown.image", "cut.image"];

fn words_of(alloc: Global, command: &str) -> Result<Vec<String>, AllocError> {
    let mut words = Vec::new(alloc);
    words.push(String::from_str(alloc, "arcwcet")?)?;
    for word in command.split(' ') {
        words.push(String::from_str(alloc, word)?)?;
    }
    Ok(words)
}

fn run<S: Store>(rt: &HostRuntime, store: &mut S, command: &str) -> io::Result<()> {
    let alloc = rt.alloc();
    let words = words_of(alloc, command)?;
    let mut input = StreamInput::new(rt.reader());
    let mut out = StreamOutput::new(rt.stdout());
    let mut err = StreamOutput::new(rt.stderr());
    let status = program(alloc, &words, store, &mut input, &mut out, &mut err);
    println!(rt; "{command}: status {status}")
}

/// Runs the commands, the last one where the disc is full.
pub(crate) fn run_commands(rt: &HostRuntime) -> io::Result<()> {
    for command in COMMANDS {
        run(rt, &mut HostStore::new(rt), command)?;
    }
    let disc = FullDisc::new(rt);
    run(rt, &mut HostStore::new(&disc), CUT)?;
    for image in IMAGES {
        let is_there = fs::exists(rt, image)?;
        println!(rt; "{image} is there: {is_there}")?;
    }
    Ok(())
}
