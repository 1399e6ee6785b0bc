//! Tests of what no command of the program shows: calls by themselves, of the analysis' crates, of
//! bus_ticks and shifter, and of ioc and vidc. They are here so that those crates are proved once. Their
//! expected values were worked out by hand. What commands show is in the folders `bound_*` and `check_*` of
//! `crates/cases/data`.
#![tactic(auto)]

#[cfg(test)]
mod endless;
#[cfg(test)]
mod going;
#[cfg(test)]
mod graphs;
#[cfg(test)]
mod handlers;
#[cfg(test)]
mod known;
#[cfg(test)]
mod nesting;
#[cfg(test)]
mod outside;
#[cfg(test)]
mod prices_and_chips;
#[cfg(test)]
mod statements;
#[cfg(test)]
mod texts;
#[cfg(test)]
mod tight;
