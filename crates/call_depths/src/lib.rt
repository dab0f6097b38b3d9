//! How long chains of calls in a core can be.
#![tactic(auto)]

mod laws;

pub use laws::call_depth_laws;
