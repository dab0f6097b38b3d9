//! What the steps of a program work on: cells, and the shapes of the rows that they stand in.
#![tactic(auto)]

mod shape;

pub use shape::{Shape, Values};
pub use step_cells::{Cell, Handle};
