//! Cores in which a subexpression is named keep the rules of cores.
#![tactic(auto)]

mod laws;

pub use laws::naming_rules_laws;
