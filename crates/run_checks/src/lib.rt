//! What a run checks before it reads its trace: its words, the file that they name, and the file's text.
#![tactic(auto)]

mod checks;
mod words;

pub use checks::read_checked;
pub use words::{file_of, read_text};
