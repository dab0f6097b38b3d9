//! A node of an ordered core with the static facts is ready for a step at each instant.
#![tactic(auto)]

mod laws;

pub use laws::ready_law;
