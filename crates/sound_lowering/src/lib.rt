//! The core that comes of an accepted program is well formed, and has the static facts.
#![tactic(auto)]

mod laws;

pub use laws::sound_lowering_laws;
