//! Cores in normal form: each memory operator, call and get stands at the top of a right side, over variables and constants.
#![tactic(auto)]

mod cut;
mod new_names;
mod nodes;
mod types;

pub use nodes::normalise;
