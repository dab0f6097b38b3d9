//! What blocks, branches and states define.
#![tactic(auto)]

mod cases;
mod definitions;

pub use cases::{
    note_branch_gaps, note_second_states, note_second_tags, note_state_gaps, note_target,
};
pub use definitions::{note_block, note_left_side, note_node_block};
