//! Nodes that have plans, one for each kind of text, and their instants.
#![tactic(auto)]

mod laws;
mod plans;
#[cfg(test)]
mod tests;

pub use laws::example_laws;
pub use plans::{chosen_plan, sum_plan};
