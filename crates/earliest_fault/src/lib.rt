//! The earliest of the faults that were found so far, and names that stand twice.
#![tactic(auto)]

mod faults;
mod labels;
mod name_set;

pub use faults::{Fault, Found, Kind};
pub use labels::{Label, note_second_names, note_seconds, push_label, push_names};
pub use name_set::{NameSet, has_name, insert_name, insert_names, no_names};
