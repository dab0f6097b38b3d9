//! Texts that are cut and read, with what they spell written out.
#![tactic(auto)]

#[cfg(test)]
mod bounds;
#[cfg(test)]
mod productions;
#[cfg(test)]
mod show;
#[cfg(test)]
mod tests;
