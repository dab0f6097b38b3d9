//! Reads declarations, equations, nodes and the tokens of whole programs.
#![tactic(auto)]

mod declarations;
mod equations;
mod programs;

pub use programs::read_tokens;
