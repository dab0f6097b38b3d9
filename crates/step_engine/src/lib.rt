//! One instant of a node by its plan, under a service that takes its calls.
#![tactic(auto)]

mod acting;
mod instant;
mod offers;
mod operating;
mod service;
mod storing;

pub use instant::serve_instant;
pub use offers::Offers;
pub use service::ZeroOffers;
