//! The static rules of the core that comes of an accepted program.
#![tactic(auto)]

mod laws;

pub use laws::lowering_facts_laws;
