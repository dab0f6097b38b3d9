//! What is known of a core with the static facts fits, and what a step needs is there.
#![tactic(auto)]

mod laws;

pub use laws::{fits_laws, static_laws};
