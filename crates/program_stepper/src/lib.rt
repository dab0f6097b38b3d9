//! The stepper of a program: its last node as a plan, and what it keeps between two instants.
#![tactic(auto)]

mod stepper;

pub use stepper::Stepper;
