//! The types that expressions give, and the faults in them.
#![tactic(auto)]

mod calls;
mod divisors;
mod fits;
mod judge;
mod merges;
mod reads;
mod scenes;

pub use fits::is_one;
pub use judge::judge_expr;
pub use scenes::{NodeScene, Scene};
