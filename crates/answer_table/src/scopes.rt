//! The expressions that paths lead to, and their scopes.
ghost use Rattle.std.specs.Prelude.{◌≡◌, IfOk};
ghost use Rattle.answer_table.specs.Tables.{IsExpressionAt, IsScopeOfPath};

use crate::answers::{Answers, copied};
use crate::paths::{Step, View, extended};
use crate::questions::Stop;
use hept_ast::{Expr, Memory};

impl<'a> Answers<'a> {
    /// The expression that a path leads to.
    #[tactic(auto, using(crate::proofs::ScopePaths::shown_expression))]
    pub fn expression(&self, path: &[Step]) -> Result<&'a Expr, Stop<'a>>
        ensures { IfOk result (λ e. IsExpressionAt self.now path.now e.now) }
    {
        match self.view(path) {
            Some(View::Expression { expr, .. }) => Ok(expr),
            _ => Err(Stop::Nothing),
        }
    }

    fn copy(&self, path: &[Step]) -> Result<Vec<Step>, Stop<'a>>
        ensures { IfOk result (λ copy. copy.items ≡ path.now) }
    {
        match copied(self.alloc, path) {
            Ok(copy) => Ok(copy),
            Err(Memory) => Err(Stop::Memory),
        }
    }

    /// The path to the scope of the expression that a path leads to.
    #[tactic(auto, using(crate::proofs::ScopePaths::weak_path))]
    pub fn scope_path(&self, path: &[Step]) -> Result<Vec<Step>, Stop<'a>>
        ensures { IfOk result (λ scope. IsScopeOfPath self.now path.now scope.items) }
    {
        let Some((last, before)) = path.split_last() else {
            return Err(Stop::Nothing);
        };
        match *last {
            Step::Operand { .. } => self.scope_path(before),
            Step::Right { .. } => self.copy(before),
            Step::On { .. } => self.copy(before),
            Step::Every { .. } => self.copy(before),
            Step::Strong { .. } => self.copy(before),
            Step::Weak {
                equation,
                state,
                ..
            } => match extended(self.alloc, before, Step::State { equation, state }) {
                Ok(scope) => Ok(scope),
                Err(Memory) => Err(Stop::Memory),
            },
            _ => Err(Stop::Nothing),
        }
    }
}
