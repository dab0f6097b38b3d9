//! What an owner keeps of its calls: how often each slot is named, its last generation, and the calls that it has not seen done.
//! All memory is taken when a pool is made.
#![tactic(auto)]

mod counts;
mod pool;

pub use counts::SlotCounts;
pub use pool::{Name, Pool};
