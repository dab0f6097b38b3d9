//! Runs of programs on traces in memory: what they write, how they end, and what they say then.
#![tactic(auto)]

#[cfg(test)]
mod calls;
#[cfg(test)]
mod depth;
#[cfg(test)]
mod devices;
#[cfg(test)]
mod expected;
mod outcome;
#[cfg(test)]
mod outputs;
#[cfg(test)]
mod refusals;
#[cfg(test)]
mod rows;
mod silent;
#[cfg(test)]
mod turns;

pub use outcome::{Failing, NONE, Outcome, outcome_of};
pub use silent::silent_outcome;
