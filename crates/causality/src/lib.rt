//! Initialisation and causality: what may be undefined, what a variable reads at its own instant, and cycles of such reads.
#![tactic(auto)]

mod acceptance;
mod causal;
mod demands;
mod flows;
mod grades;
mod graph;
mod initial;
mod laws;
mod parts;
mod reads;
mod unmet;
mod vertices;

pub use acceptance::{AcceptFault, accept};
pub use causal::{CausalFault, check_causal};
pub use initial::{InitFault, check_initial};
pub use laws::cycle_laws;
