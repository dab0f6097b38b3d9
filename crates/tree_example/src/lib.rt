//! Trees made by hand: their erasure, stages, clocks and rows, and the operators on values.
#![tactic(auto)]

#[cfg(test)]
mod tests;
