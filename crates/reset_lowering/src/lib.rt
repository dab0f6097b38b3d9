//! Blocks of accepted programs as plain equations of a core.
#![tactic(auto)]

mod expressions;
mod nodes;

pub use nodes::lower_blocks;
