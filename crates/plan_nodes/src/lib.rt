//! The plan of a node, built from its text: the values of its variables, the stores of its cells and its outputs.
#![tactic(auto)]

mod nodes;
mod registers;
mod stores;

pub use nodes::build_node;
