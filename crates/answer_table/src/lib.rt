//! Questions about what an accepted program means, what they are asked of, and a table of their answers.
#![tactic(auto)]

mod answers;
mod clocks;
mod homes;
mod paths;
mod questions;
mod scopes;
mod views;

pub use answers::Answers;
pub use homes::{declaration, declared_at, is_inner};
pub use paths::{Held, Step, View, branch_at, equation_at, extended, states_at};
pub use questions::{Answer, Asked, Entry, Question, Stop, is_true};
