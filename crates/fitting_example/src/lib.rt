//! A core that has the static facts, and two that have not.
#![tactic(auto)]

mod laws;

pub use laws::fitting_example_laws;
