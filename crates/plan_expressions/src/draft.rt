//! The actions of a plan as far as it is built.
ghost use Rattle.std.specs.Prelude.{IfOk};

use hept_ast::Memory;
use std::alloc::{AllocError, Global};
use step_plans::{Action, Instruction};

/// The actions of a plan as far as it is built.
#[derive(Drop)]
pub struct Draft {
    pub actions: Vec<Action>,
    /// The next value.
    pub at: u32,
}

impl Draft {
    ghost use Rattle.plan_expressions.specs.Building.{IsAdded};

    /// Adds an instruction, and answers the number of its value.
    pub fn add(&mut self, instruction: Instruction) -> Result<u32, Memory>
        ensures { IfOk result (IsAdded self.old self.new instruction) }
    {
        let at = self.at;
        if at == u32::MAX {
            return Err(Memory);
        }
        self.actions
            .push(Action::Compute(at, instruction))
            .map_err(AllocError::from)?;
        self.at = at + 1;
        Ok(at)
    }
}
