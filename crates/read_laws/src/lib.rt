//! What holds of every program that is read.
#![tactic(auto)]

mod laws;

pub use laws::{accepted_program_laws, read_program_laws};
