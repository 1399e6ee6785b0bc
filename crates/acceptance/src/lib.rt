//! What no run of the program can show: calls by themselves, inputs and outputs that fail, and tables that
//! are gone through in loops. What a run can show is in the crate `cases`. Their expected values were
//! worked out by hand from the price table and the formats of words.
#![tactic(auto)]

#[cfg(test)]
mod answers;
#[cfg(test)]
mod certificates;
#[cfg(test)]
mod cut_inputs;
#[cfg(test)]
mod enumeration;
#[cfg(test)]
mod failures;
#[cfg(test)]
mod files;
#[cfg(test)]
mod forgeries;
#[cfg(test)]
mod inputs;
#[cfg(test)]
mod limits;
#[cfg(test)]
mod numbers;
#[cfg(test)]
mod odd_inputs;
#[cfg(test)]
mod reports;
#[cfg(test)]
mod tight;
#[cfg(test)]
mod watched;
#[cfg(test)]
mod writers;
