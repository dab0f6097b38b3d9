//! Plans of nodes, how they belong to the nodes of a core, and what a memory stands for.
#![tactic(auto)]

mod action;
mod instruction;
mod laws;
mod plan;

pub use action::{Action, Offering, Source};
pub use instruction::{FutureInstruction, Instruction, Store};
pub use laws::{building_laws, kept_laws, memory_laws, plan_laws, sending_laws};
pub use plan::NodePlan;
