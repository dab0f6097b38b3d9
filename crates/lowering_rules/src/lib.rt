//! What an accepted program becomes in a core, rule by rule, and that this keeps the meaning.
#![tactic(auto)]

mod laws;

pub use laws::{lowering_laws, lowering_reply_laws};
