//! Limits of counts and of names.
#![tactic(auto)]

mod limits;
mod queues;

pub use limits::note_limits;
