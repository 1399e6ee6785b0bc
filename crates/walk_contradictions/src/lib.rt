//! Where a walk takes two words' conditions as no flags have it, so that no run takes the walk unless another
//! handler visits it.
#![tactic(auto)]

mod contradictions;
mod law;
mod outcomes;
mod passing;
mod sieve;

pub use contradictions::contradiction_text;
pub use law::contradicted_walks_are_not_taken;
