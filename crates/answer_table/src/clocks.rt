//! Clocks of variables and of expressions.
ghost use Rattle.std.specs.Prelude.{◌≡◌, ◌++◌, ◌∷◌, [], IfOk, List};
ghost use Rattle.hept_ast.specs.ClockMaps.{clock_in};
ghost use Rattle.hept_ast.specs.declared.tree.Form.{out-Form};
ghost use Rattle.answer_table.specs.Things.{operand_clock};
ghost use Rattle.answer_table.specs.Tables.{IsOnClock, IsSeenOn, held_clock};

use crate::answers::Answers;
use crate::paths::{Held, Step, left_at};
use crate::questions::Stop;
use hept_ast::{ClockStep, Expr, Form, Name, NodeId};
use sqlite_items::at;

impl<'a> Answers<'a> {
    fn held_steps(&self, steps: &'a [ClockStep]) -> Result<Vec<Held<'a>>, Stop<'a>>
        ensures { IfOk result (λ clock. held_clock clock.items ≡ steps.now) }
    {
        let mut clock = Vec::new(self.alloc);
        for step in steps {
            let held = Held {
                tag: &step.tag,
                name: &step.name,
            };
            if clock.push(held).is_err() {
                return Err(Stop::Memory);
            }
        }
        Ok(clock)
    }

    /// The clock of a variable of a node, in the scope that declares it.
    pub fn clock_in(&self, number: usize, name: &Name) -> Result<Vec<Held<'a>>, Stop<'a>>
        ensures { IfOk result (λ clock. held_clock clock.items ≡ clock_in self.now.accepted.now.clocks number name.now) }
    {
        let Ok(number) = u32::try_from(number) else {
            return Err(Stop::Memory);
        };
        match self.accepted.clock_of(NodeId(number), name) {
            Some(path) => self.held_steps(path.steps.as_slice()),
            None => Ok(Vec::new(self.alloc)),
        }
    }

    /// The clock, in a scope, of a variable that is seen there.
    #[tactic(auto, using(crate::proofs::ClocksSeen::seen_declared, crate::proofs::ClocksSeen::seen_on_base, crate::proofs::ClocksSeen::seen_at_top))]
    fn clock_seen(&self, scope: &[Step], name: &Name) -> Result<Vec<Held<'a>>, Stop<'a>>
        ensures { IfOk result (λ clock. IsSeenOn self.now scope.now name.now (held_clock clock.items)) }
    {
        if self.declares(scope, name)? {
            let (number, _, _) = self.scope(scope)?;
            return self.clock_in(number, name);
        }
        let Some((last, outer)) = scope.split_last() else {
            return Ok(Vec::new(self.alloc));
        };
        match *last {
            Step::Body { .. } => self.clock_seen(outer, name),
            _ => Ok(Vec::new(self.alloc)),
        }
    }

    /// The clock of the right side of an equation, for a name on its left side.
    fn right_clock(
        &self,
        scope: &[Step],
        equation: usize,
        name: usize,
    ) -> Result<Vec<Held<'a>>, Stop<'a>>
        ensures { IfOk result (λ clock. (path : List Step) → path ≡ scope.now ++ Step.Right equation name ∷ [] → IsOnClock self.now path (held_clock clock.items)) }
    {
        let (_, _, block) = self.scope(scope)?;
        match left_at(block, equation, name) {
            Some(name) => self.clock_seen(scope, name),
            None => Err(Stop::Nothing),
        }
    }

    /// The clock of an operand of an expression on a clock.
    #[tactic(auto, using(crate::proofs::OperandClocks::merge_none, crate::proofs::OperandClocks::merge_some))]
    fn operand_clock(
        &self,
        expr: &'a Expr,
        operand: usize,
        mut clock: Vec<Held<'a>>,
    ) -> Result<Vec<Held<'a>>, Stop<'a>>
        ensures { IfOk result (λ inner. held_clock inner.items ≡ operand_clock (out-Form expr.now.form) operand (held_clock clock.entry.items)) }
    {
        match &expr.form {
            Form::When(_, _, _) => {
                clock.pop();
                Ok(clock)
            }
            Form::Merge(name, branches) => {
                let Some(branch) = at(branches.as_slice(), operand) else {
                    return Ok(clock);
                };
                let held = Held {
                    tag: &branch.tag,
                    name,
                };
                match clock.push(held) {
                    Ok(()) => Ok(clock),
                    Err(_) => Err(Stop::Memory),
                }
            }
            _ => Ok(clock),
        }
    }

    /// The clock of the expression that a path leads to.
    #[tactic(auto, using(crate::proofs::ClocksOf::on_clock, crate::proofs::ClocksOf::every_clock, crate::proofs::ClocksOf::strong_clock, crate::proofs::ClocksOf::weak_clock_of))]
    pub fn clock(&self, path: &[Step]) -> Result<Vec<Held<'a>>, Stop<'a>>
        ensures { IfOk result (λ clock. IsOnClock self.now path.now (held_clock clock.items)) }
    {
        let Some((last, before)) = path.split_last() else {
            return Err(Stop::Nothing);
        };
        match *last {
            Step::Operand { operand } => {
                let clock = self.clock(before)?;
                self.operand_clock(self.expression(before)?, operand, clock)
            }
            Step::Right { equation, name } => self.right_clock(before, equation, name),
            Step::On { .. } | Step::Every { .. } | Step::Strong { .. } | Step::Weak { .. } => {
                Ok(Vec::new(self.alloc))
            }
            _ => Err(Stop::Nothing),
        }
    }
}
