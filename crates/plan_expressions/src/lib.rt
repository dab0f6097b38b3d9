//! The instructions of an expression, on any clock.
#![tactic(auto)]

mod constants;
mod draft;
mod expressions;
mod instructions;
mod laws;

pub use constants::{constant, position, tag};
pub use draft::Draft;
pub use expressions::{emit, register_of};
pub use laws::plain_laws;
