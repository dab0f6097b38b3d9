//! The equations of each node of a core, in an order in which each stands after those that it reads.
#![tactic(auto)]

mod equations;
mod nodes;
mod ordered;
mod waits;

pub use equations::first_ready;
pub use nodes::order;
pub use ordered::Ordered;
