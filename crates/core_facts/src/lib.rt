//! The static facts of cores that a step without undefined values needs.
#![tactic(auto)]

mod laws;

pub use laws::core_facts_laws;
