//! The nodes of flat cores in order are of the kind that plans are built of.
#![tactic(auto)]

mod laws;

pub use laws::buildable_law;
