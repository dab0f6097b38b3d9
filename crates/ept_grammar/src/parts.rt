//! What the grammar speaks of: levels of signs, samples, what tokens do to the counts, and why a text is not read.
ghost use Rattle.std.specs.Prelude.{◌≡◌};

use hept_ast::{Memory, Name, Place, Tag};
use std::alloc::AllocError;

/// Why a text was not read.
#[derive(Clone, Copy, Debug, PartialEq, Eq)]
pub enum Fault {
    /// With so many tokens left, the next one doesn't fit.
    Unexpected(usize),
    /// With so many tokens left, the next one passes a bound.
    TooDeep(usize),
    Memory,
}

impl From<AllocError> for Fault {
    ghost use Rattle.ept_grammar.specs.declared.parts.Fault.TheVariants.{Memory};

    ghost from_gives = { λ _ e. e ≡ Memory };

    fn from(_: AllocError) -> Fault {
        Fault::Memory
    }
}

impl From<Memory> for Fault {
    ghost use Rattle.ept_grammar.specs.declared.parts.Fault.TheVariants.{Memory};

    ghost from_gives = { λ _ e. e ≡ Memory };

    fn from(_: Memory) -> Fault {
        Fault::Memory
    }
}

/// How close infix signs bind, from the loosest on.
#[derive(Clone, Copy, PartialEq, Eq)]
pub enum Level {
    Or,
    And,
    Comparison,
    Sum,
    Product,
}

/// What a `when` or a `whenot` at a place samples by.
#[derive(Drop)]
pub struct Sample {
    pub place: Place,
    pub tag: Tag,
    pub name: Name,
}

/// How many operators the expression has so far, and how many blocks are open.
#[derive(Clone, Copy)]
pub struct Counts {
    pub operators: u32,
    pub blocks: u32,
}

/// What a token does to the counts.
#[derive(Clone, Copy)]
pub enum Role {
    Plain,
    /// An operator of the expression.
    Operator,
    /// An expression comes next.
    Fresh,
    /// A block opens.
    Opens,
    /// A block opens, and an expression comes next.
    OpensFresh,
    /// A block closes.
    Closes,
    /// A block closes, and an expression comes next.
    ClosesFresh,
}
