use crate::instruction::{FutureInstruction, Instruction};

/// Where an argument of a call stands.
#[derive(Clone, Copy)]
pub enum Source {
    Value(u32),
    Future(u32),
}

/// An async call of a node.
#[derive(Drop)]
pub struct Offering {
    /// The values that say whether it is made and whether its scope is restarted.
    pub here: u32,
    pub again: u32,
    /// One for each input of the called node.
    pub sources: Vec<Source>,
    /// The first of its futures, one for each output.
    pub first: u32,
    pub outputs: u32,
}

/// What an instant does, in order.
#[derive(Clone, Copy)]
pub enum Action {
    /// Makes a value.
    Compute(u32, Instruction),
    /// Makes a future.
    Move(u32, FutureInstruction),
    /// Makes the futures of an async call, by its number.
    Offer(u32),
    /// Makes a value: that of a future, where another value is 1.
    Get(u32, u32, u32),
}
