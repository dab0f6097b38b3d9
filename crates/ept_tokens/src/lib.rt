//! Tokens: what they are, and which bytes are cut into which of them.
#![tactic(auto)]

mod cutter;
mod spellings;
mod token;

pub use cutter::{CutFault, cut};
pub use token::{Kind, Token};
