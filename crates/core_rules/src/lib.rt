//! When a core is well formed, what its variables read, and how many futures an expanded text keeps.
#![tactic(auto)]

mod laws;

pub use laws::core_laws;
