//! The text of traces: rows of input values, read from lines, and rows of output values, written to a
//! sink.
#![tactic(auto)]

mod output_text;
mod row_text;
mod value_text;

pub use output_text::{RowWriter, write_whole};
pub use row_text::{RowFault, read_row};
