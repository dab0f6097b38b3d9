//! Texts of programs, read and checked by the rules of the language, with the place of what is wrong.
#![tactic(auto)]

#[cfg(test)]
mod acceptance;
#[cfg(test)]
mod choices;
#[cfg(test)]
mod clocks;
#[cfg(test)]
mod erasure;
#[cfg(test)]
mod limits;
#[cfg(test)]
mod sizes;
#[cfg(test)]
mod tests;
#[cfg(test)]
mod texts;
