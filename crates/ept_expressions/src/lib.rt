//! Reads expressions.
#![tactic(auto)]

mod expressions;

pub use expressions::expression;
