//! Subexpressions of cores that become variables of their own, and what this keeps.
#![tactic(auto)]

mod laws;

pub use laws::naming_laws;
