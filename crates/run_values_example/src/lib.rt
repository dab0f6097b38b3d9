//! What a run writes is what the slow evaluator gives.
#![tactic(auto)]

#[cfg(test)]
mod values;
