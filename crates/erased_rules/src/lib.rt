//! A program that keeps the static rules has an erasure that keeps them.
#![tactic(auto)]

mod laws;

pub use laws::erasure_laws;
