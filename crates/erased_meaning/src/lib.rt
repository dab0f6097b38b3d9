//! What an accepted program gives on rows of inputs, found by asking what its meaning asks.
#![tactic(auto)]

mod activity;
mod automata;
mod calls;
mod definitions;
mod delays;
mod expressions;
mod forms;
mod presence;
mod solve;
mod values;
mod variables;

pub use solve::value_rows;
