//! The grammar: which tokens spell which tree, and what is wrong with others. Its table, derivations, bounds and refusals, and their laws.
#![tactic(auto)]

mod laws;
mod parts;

pub use laws::grammar_laws;
pub use parts::{Counts, Fault, Level, Role, Sample};
