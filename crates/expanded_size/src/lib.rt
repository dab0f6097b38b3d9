//! The expanded size of a node: the number of expressions in its text, and the expanded size of the
//! callee for each call.
#![tactic(auto)]

mod laws;
mod sizes;

pub use laws::size_laws;
pub use sizes::expanded_size;
