//! The instructions of an equation on its clock, without resets.
#![tactic(auto)]

mod equations;
mod presences;
mod rights;

pub use equations::emit_equation;
pub use presences::emit_presences;
pub use rights::emit_right;
