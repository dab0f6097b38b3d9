//! Accepted programs have a meaning: on all rows that fit, every output is known at every instant.
#![tactic(auto)]

mod laws;
mod replies;
mod sites;

pub use laws::accepted_laws;
pub use replies::own_reply_laws;
pub use sites::site_laws;
