//! The core of an accepted program, in normal form and in order.
#![tactic(auto)]

mod making;

pub use making::make_core;
