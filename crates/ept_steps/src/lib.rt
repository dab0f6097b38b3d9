//! The steps of a reader: one token of look-ahead with the counts, infix signs, constants and types, and the trees that are made.
#![tactic(auto)]

mod builders;
mod constants;
mod look_ahead;
mod signs;

pub use builders::{
    arrow, async_call, choice, constant, fby, get, infix, merge, named, negative, placed, pre,
    queued_call, unary, when,
};
pub use constants::{constant as initial_constant, initial, literal, tag, type_of};
pub use look_ahead::{
    closed, closed_fresh, copy_token, fresh, opened, opened_fresh, operator, take, want,
};
pub use signs::{InfixSign, infix_sign, levels_to};
