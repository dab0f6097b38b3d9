//! The values of a node and of the nodes that it calls: its text expanded, body by body.
#![tactic(auto)]

mod arguments;
mod bodies;
mod callees;
mod cells;
mod names;

pub use bodies::{Expansion, PlacedBody, add_body};
