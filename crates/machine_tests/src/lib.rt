//! Tests of the machine's crates, and of the texts about it, one module for each crate: here, so that
//! those crates are proved once. Their expected values were worked out by hand. What a command of the
//! program shows is tested by the cases of the crate `cases`, and only the rest here.
#![tactic(auto)]

#[cfg(test)]
mod effects;
#[cfg(test)]
mod images;
#[cfg(test)]
mod instructions;
#[cfg(test)]
mod lines;
#[cfg(test)]
mod machine_files;
#[cfg(test)]
mod memory;
#[cfg(test)]
mod sources;
#[cfg(test)]
mod steps;
#[cfg(test)]
mod traces;
#[cfg(test)]
mod transfers;
