//! Programs as texts, and what they give on rows.
#![tactic(auto)]

#[cfg(test)]
mod tests;
