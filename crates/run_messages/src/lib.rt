//! How a run ends, and the line that it writes then.
#![tactic(auto)]

mod end;
mod line;

pub use end::{BadRow, End, FileFault, Refusal};
pub use line::write_line;
