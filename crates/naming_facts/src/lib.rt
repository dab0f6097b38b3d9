//! Cores in which a subexpression is named keep their static facts.
#![tactic(auto)]

mod laws;

pub use laws::naming_facts_laws;
