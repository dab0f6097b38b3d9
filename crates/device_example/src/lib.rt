//! Devices in memory and of the system, the lines and rows that are read from them, and the lines of
//! ends that are written to them.
#![tactic(auto)]

#[cfg(test)]
mod devices;
#[cfg(test)]
mod ends;
#[cfg(test)]
mod lines;
#[cfg(test)]
mod rows;
