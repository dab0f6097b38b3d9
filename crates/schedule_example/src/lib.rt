//! Cores whose equations are put in order.
#![tactic(auto)]

#[cfg(test)]
mod cores;
mod laws;
#[cfg(test)]
mod tests;

pub use laws::order_laws;
