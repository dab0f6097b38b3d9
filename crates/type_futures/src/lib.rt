//! The static rules of names and types, and the node that a run begins at.
#![tactic(auto)]

mod check;
mod choice;
mod nodes;
mod parts;
mod seconds;
mod walk;

pub use check::{TypeFault, check_types};
pub use choice::{TopFault, choose};
