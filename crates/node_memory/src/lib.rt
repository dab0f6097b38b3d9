//! What a node keeps from call to call, and one call of a node that makes no async calls.
#![tactic(auto)]

mod memory;
mod room;
mod sound;
mod step;

pub use memory::NodeMemory;
pub use sound::is_sound;
pub use step::step_node;
