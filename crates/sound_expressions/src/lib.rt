//! What an expression without faults is like, form by form, and what values its types have.
#![tactic(auto)]

mod laws;

pub use laws::sound_expression_laws;
