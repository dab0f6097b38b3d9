//! What a node's text holds: its parts and expressions, and what its equations define.
#![tactic(auto)]

mod declarations;
mod expressions;
mod names;
mod pieces;
mod sets;
mod tags;

pub use declarations::{
    declaration, declaration_at, declared_inside, node_declarations, node_variables,
    own_declarations, push_declared_names,
};
pub use expressions::{node_expressions, push_expressions, push_inside};
pub use names::{is_among, is_listed, is_same, push_listed, push_name, push_names};
pub use pieces::{Piece, push_equations};
pub use sets::{is_declared_in, push_block_sets, push_branch_sets, push_sets, push_state_sets};
pub use tags::{is_constructor, is_same_tag, is_truth};
