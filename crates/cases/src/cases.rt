//! Judges the program `arcwcet` by the cases in `data/`: a line for each, in the order of their names, with
//! `ok` or the first difference, and a line of counts. A case is a folder with
//!
//! - `args`: the words after the program's name, a word a line; those that name files name files of the
//!   folder;
//! - the files that the words name, and in `stdin` the standard input, else it is empty;
//! - `stdout`: all that is printed, or `stdout.front`: what it begins with; neither: nothing is printed;
//! - `stderr`: all of standard error, or `stderr.any`: it is not looked at; neither: there is nothing;
//! - `status`: the exit status on a line; no such file: 0;
//! - the image that `asm` or `import` writes, byte for byte, and no such file where it is refused: it is kept in
//!   memory;
//! - `note`, if there is more to say: what the case shows. It is not read.
//!
//! A new case is a folder and its line in `stdout`, which lists all, so that none goes missing.

mod case;
mod case_store;
mod difference;
mod judging;
mod wanted;

use judging::judge;
use std::rt::Files;
use std::{fs, io};

// The one folder that is no case: that of the sample handlers.
const HANDLERS: &str = "handlers";

// The names of the folders, in their order.
fn case_names<R: Files + AllocGlobal + Clone + Drop>(rt: &R) -> io::Result<Vec<String>> {
    let mut names = Vec::new(rt.alloc());
    for entry in fs::read_dir(rt, ".")? {
        let entry = entry?;
        if entry.file_type()?.is_dir() && entry.file_name() != HANDLERS {
            names.push(String::from_str(rt.alloc(), entry.file_name())?)?;
        }
    }
    names.sort()?;
    Ok(names)
}

/// Judges all cases, and answers whether each passed.
pub(crate) fn judge_cases(rt: &HostRuntime) -> io::Result<bool> {
    let names = case_names(rt)?;
    let mut failed = 0u64;
    for name in &names {
        match judge(rt, name.as_str()) {
            Ok(None) => println!(rt; "{name}: ok")?,
            Ok(Some(difference)) => {
                println!(rt; "{name}: {difference}")?;
                failed = failed.saturating_add(1);
            }
            Err(fault) => {
                println!(rt; "{name}: {fault}")?;
                failed = failed.saturating_add(1);
            }
        }
    }
    println!(rt; "{} cases, {failed} failed", names.len())?;
    Ok(failed == 0)
}
