//! Which nodes lead to which by calls.
#![tactic(auto)]

mod graph;

pub use graph::{CallGraph, Leading, leading_to};
