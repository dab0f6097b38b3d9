//! Cores that come of served programs.
#![tactic(auto)]

mod laws;

pub use laws::flat_laws;
