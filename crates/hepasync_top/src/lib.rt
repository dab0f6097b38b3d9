//! The top call: what a run of a program on a trace writes, and how it ends.
#![tactic(auto)]

mod machine;
mod top;

pub use top::{RunEnd, run};
