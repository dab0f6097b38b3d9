//! Whether a program is one that is run so far.
#![tactic(auto)]

mod served;

pub use served::is_served;
