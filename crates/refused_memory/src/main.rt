//! Makes each public call that takes memory, and prints a line for each. Where a call is refused for memory,
//! what it changes has to be as it was before, and the same call made again has to return the right answer.
//! An argument names the one call to be made.
//!
//! The status is 0 where each answer is right, also where that was at the second time; 1 where one is wrong,
//! or a call was refused twice; 2 where there is no call of the name; 3 where memory was refused beside the
//! calls, and none is wrong.
#![tactic(auto)]

mod analysis;
mod assembled;
mod assumptions;
mod calls;
mod certificates;
mod drafts;
mod explanations;
mod followed;
mod images;
mod listings;
mod machine;
mod machine_files;
mod programs;
mod puts;
mod reports;
mod sessions;
mod tally;
mod trial;

use calls::{CALLS, Call};
use std::process::ExitCode;
use std::{env, io};
use tally::{OUT_OF_MEMORY, Tally};

fn is_asked(asked: &Option<String>, name: &str) -> bool {
    match asked {
        Some(word) => word.as_str() == name,
        None => true,
    }
}

// Makes the calls that are asked for.
fn make(rt: &HostRuntime, calls: &[(&str, Call)], asked: &Option<String>) -> io::Result<Tally> {
    let mut tally = Tally::new();
    for (name, call) in calls {
        if is_asked(asked, name) {
            let outcome = call.outcome(rt.alloc());
            println!(rt; "{name}: {outcome}")?;
            tally.add(outcome);
        }
    }
    Ok(tally)
}

fn main(rt: HostRuntime) -> io::Result<ExitCode> {
    let Ok(mut words) = env::args(&rt) else {
        println!(rt; "memory refused before the calls")?;
        return Ok(ExitCode::from(OUT_OF_MEMORY));
    };
    let asked = words.nth(1);
    let tally = make(&rt, CALLS, &asked)?;
    Ok(ExitCode::from(tally.status()))
}
