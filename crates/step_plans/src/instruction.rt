/// What one value is computed from, by the numbers of values and cells.
#[derive(Clone, Copy)]
pub enum Instruction {
    Constant(u32),
    Minus(u32),
    Not(u32),
    Add(u32, u32),
    Subtract(u32, u32),
    Multiply(u32, u32),
    Or(u32, u32),
    And(u32, u32),
    Equal(u32, u32),
    Different(u32, u32),
    Less(u32, u32),
    AtMost(u32, u32),
    Greater(u32, u32),
    AtLeast(u32, u32),
    /// A quotient by a constant other than 0.
    Quotient(u32, u32),
    /// A remainder by a constant other than 0.
    Remainder(u32, u32),
    /// The third value where the first one is the second number, or else the last.
    Select(u32, u32, u32, u32),
    /// Whether the first value is 1 and the second one is this number.
    Flag(u32, u32, u32),
    /// Whether the first value is 1, or the second and the third are.
    Again(u32, u32, u32),
    Read(u32),
    /// The last number where the value is 1, or else the cell.
    ReadUnless(u32, u32, u32),
}

/// What one future is computed from, by the numbers of values, futures and cells.
#[derive(Clone, Copy)]
pub enum FutureInstruction {
    /// A future whose value is there.
    Ready(u32),
    /// The first future where the value is the number, or else the last.
    Select(u32, u32, u32, u32),
    Read(u32),
    /// A future with this value where the first value is 1, or else the cell.
    ReadUnless(u32, u32, u32),
}

/// What a cell holds after an instant, by the numbers of values. What a cell of future type takes is a future.
#[derive(Clone, Copy)]
pub enum Store {
    Always(u32),
    /// The second value where the first is 1, or else what the cell held.
    Where(u32, u32),
    /// The second value where the first is 1, or else the last number where the third value is 1, or
    /// else what the cell held.
    Unless(u32, u32, u32, u32),
}
