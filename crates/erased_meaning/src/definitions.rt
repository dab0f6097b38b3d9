//! Which equations define a variable, and what they say.
ghost use Rattle.std.specs.Prelude.{◌∷◌, ◌++◌, [], ℕ, IfOk, IfSome};
ghost use Rattle.std.specs.List.{flat_map};
ghost use Rattle.hept_ast.specs.declared.name.Place.{Place};
ghost use Rattle.hept_ast.specs.declared.tree.Expr.{Expr};
ghost use Rattle.hept_ast.specs.declared.tree.Equation.{out-Equation};
ghost use Rattle.hept_ast.specs.declared.tree.Equation.TheOpen.{Equation-F};
ghost use Rattle.answer_table.specs.Tables.{AnswerAt, IsSound};
ghost use Rattle.erased_meaning.specs.Rules.{BlockDefines, TestsDefined};
ghost use Rattle.erased_meaning.specs.Equations.{
  AreBranchesAt,
  AreStatesAt,
  EquationDefines,
  EquationGives,
  IsBranchOf,
  PartGives,
};

use crate::delays::test;
use crate::values::{position_of, tag_value};
use answer_table::{Answer, Answers, Asked, Step, Stop, equation_at, extended};
use hept_ast::{Branch, Equation, Memory, Name, State, TypeDec};

/// The position of the branch of a value.
fn branch_of(types: &[TypeDec], branches: &[Branch], value: u32) -> Option<usize>
    ensures { IfSome result (IsBranchOf types.now value branches.now) }
{
    for (position, branch) in branches.iter().enumerate() {
        if tag_value(types, &branch.tag) == value as usize {
            return Some(position);
        }
    }
    None
}

/// Whether one of the equations of a scope's block defines a variable.
fn block_defines<'a>(
    answers: &Answers<'a>,
    scope: &[Step],
    name: &'a Name,
) -> Result<bool, Stop<'a>>
    requires { IsSound answers.now }
    ensures { IfOk result (BlockDefines answers.now scope.now name.now) }
{
    let (_, _, block) = answers.scope(scope)?;
    for equation in 0..block.body.len() {
        if test(answers, scope, Asked::Defines(equation, name), 0)? {
            return Ok(true);
        }
    }
    Ok(false)
}

fn part_defines<'a>(
    answers: &Answers<'a>,
    scope: &[Step],
    step: Step,
    name: &'a Name,
) -> Result<bool, Stop<'a>>
    requires { IsSound answers.now }
    ensures { IfOk result (BlockDefines answers.now (scope.now ++ step ∷ []) name.now) }
{
    match extended(answers.alloc, scope, step) {
        Ok(part) => block_defines(answers, part.as_slice(), name),
        Err(Memory) => Err(Stop::Memory),
    }
}

fn branches_define<'a>(
    answers: &Answers<'a>,
    scope: &[Step],
    equation: usize,
    branches: &[Branch],
    name: &'a Name,
) -> Result<bool, Stop<'a>>
    requires { IsSound answers.now }
    ensures { IfOk result (λ b. AreBranchesAt answers.now scope.now equation branches.now → TestsDefined answers.now name.now (flat_map (λ p. p.block.body) branches.now) b) }
{
    for branch in 0..branches.len() {
        if part_defines(answers, scope, Step::Branch { equation, branch }, name)? {
            return Ok(true);
        }
    }
    Ok(false)
}

fn states_define<'a>(
    answers: &Answers<'a>,
    scope: &[Step],
    equation: usize,
    states: &[State],
    name: &'a Name,
) -> Result<bool, Stop<'a>>
    requires { IsSound answers.now }
    ensures { IfOk result (λ b. AreStatesAt answers.now scope.now equation states.now → TestsDefined answers.now name.now (flat_map (λ q. q.block.body) states.now) b) }
{
    for state in 0..states.len() {
        if part_defines(answers, scope, Step::State { equation, state }, name)? {
            return Ok(true);
        }
    }
    Ok(false)
}

fn equation_defines<'a>(
    answers: &Answers<'a>,
    scope: &[Step],
    equation: usize,
    at: &Equation,
    name: &'a Name,
) -> Result<bool, Stop<'a>>
    requires { IsSound answers.now }
    ensures { IfOk result (EquationDefines answers.now scope.now equation (out-Equation at.now) name.now) }
{
    match at {
        Equation::Define { left, .. } => Ok(position_of(left.as_slice(), name).is_some()),
        Equation::Switch { branches, .. } => {
            branches_define(answers, scope, equation, branches.as_slice(), name)
        }
        Equation::Reset { .. } => part_defines(answers, scope, Step::Body { equation }, name),
        Equation::Automaton { states, .. } => {
            states_define(answers, scope, equation, states.as_slice(), name)
        }
    }
}

/// Whether an equation of a scope's block defines a variable.
pub(crate) fn defines<'a>(
    answers: &Answers<'a>,
    scope: &[Step],
    equation: usize,
    name: &'a Name,
) -> Result<Answer, Stop<'a>>
    requires { IsSound answers.now }
    ensures { IfOk result (λ a. (t : ℕ) → AnswerAt answers.now scope.now (Asked.Defines equation name.entry) t a) }
{
    let (_, _, block) = answers.scope(scope)?;
    match equation_at(block, equation) {
        Some(at) => Ok(Answer::Is(equation_defines(answers, scope, equation, at, name)?)),
        None => Err(Stop::Nothing),
    }
}

/// What the first equation of the scope's block that defines a variable says.
pub(crate) fn defined<'a>(
    answers: &Answers<'a>,
    scope: &[Step],
    name: &'a Name,
    t: usize,
) -> Result<Answer, Stop<'a>>
    requires { IsSound answers.now }
    ensures { IfOk result (AnswerAt answers.now scope.now (Asked.Defined name.entry) t) }
{
    let (_, _, block) = answers.scope(scope)?;
    for (equation, at) in block.body.as_slice().iter().enumerate() {
        if test(answers, scope, Asked::Defines(equation, name), 0)? {
            return equation_gives(answers, scope, equation, at, name, t);
        }
    }
    Err(Stop::Nothing)
}

fn equation_gives<'a>(
    answers: &Answers<'a>,
    scope: &[Step],
    equation: usize,
    at: &'a Equation,
    name: &'a Name,
    t: usize,
) -> Result<Answer, Stop<'a>>
    requires { IsSound answers.now }
    ensures { IfOk result (EquationGives answers.now scope.now equation (out-Equation at.now) name.now t) }
{
    match at {
        Equation::Define { left, .. } => right(answers, scope, equation, left.as_slice(), name, t),
        Equation::Switch { branches, .. } => {
            in_branch(answers, scope, equation, branches.as_slice(), name, t)
        }
        Equation::Reset { .. } => {
            answers.ask_part(scope, Step::Body { equation }, Asked::Defined(name), t)
        }
        Equation::Automaton { states, .. } => {
            in_state(answers, scope, equation, states.as_slice(), name, t)
        }
    }
}

fn right<'a>(
    answers: &Answers<'a>,
    scope: &[Step],
    equation: usize,
    left: &[Name],
    name: &Name,
    t: usize,
) -> Result<Answer, Stop<'a>>
    requires { IsSound answers.now }
    ensures { IfOk result (λ a. (place : Place) (right : Expr) → EquationGives answers.now scope.now equation (Equation-F.Define place left.now right) name.now t a) }
{
    let Some(position) = position_of(left, name) else {
        return Err(Stop::Nothing);
    };
    let step = Step::Right {
        equation,
        name: position,
    };
    if left.len() == 1 {
        answers.ask_part(scope, step, Asked::Gives, t)
    } else {
        answers.ask_part(scope, step, Asked::Output(position), t)
    }
}

fn defined_or_last<'a>(
    answers: &Answers<'a>,
    scope: &[Step],
    step: Step,
    name: &'a Name,
    t: usize,
) -> Result<Answer, Stop<'a>>
    requires { IsSound answers.now }
    ensures { IfOk result (PartGives answers.now scope.now step name.now t) }
{
    if part_defines(answers, scope, step, name)? {
        answers.ask_part(scope, step, Asked::Defined(name), t)
    } else {
        answers.ask_here(scope, Asked::Last(name), t)
    }
}

fn in_branch<'a>(
    answers: &Answers<'a>,
    scope: &[Step],
    equation: usize,
    branches: &[Branch],
    name: &'a Name,
    t: usize,
) -> Result<Answer, Stop<'a>>
    requires { IsSound answers.now }
    ensures { IfOk result (λ a. (place : Place) (on : Expr) → EquationGives answers.now scope.now equation (Equation-F.Switch place on branches.now) name.now t a) }
{
    let value = match answers.ask_part(scope, Step::On { equation }, Asked::Gives, t)? {
        Answer::Value(value) => value,
        Answer::Nil => return Ok(Answer::Nil),
        Answer::Absent => return Ok(Answer::Absent),
        _ => return Err(Stop::Nothing),
    };
    match branch_of(answers.accepted.program().types.as_slice(), branches, value) {
        Some(branch) => defined_or_last(answers, scope, Step::Branch { equation, branch }, name, t),
        None => Err(Stop::Nothing),
    }
}

fn in_state<'a>(
    answers: &Answers<'a>,
    scope: &[Step],
    equation: usize,
    states: &[State],
    name: &'a Name,
    t: usize,
) -> Result<Answer, Stop<'a>>
    requires { IsSound answers.now }
    ensures { IfOk result (λ a. (place : Place) → EquationGives answers.now scope.now equation (Equation-F.Automaton place states.now) name.now t a) }
{
    let state = match answers.ask_here(scope, Asked::ActiveState(equation), t)? {
        Answer::StateAt(state, _) => state,
        Answer::Absent => return Ok(Answer::Absent),
        _ => return Err(Stop::Nothing),
    };
    defined_or_last(answers, scope, Step::State { equation, state }, name, t)
}
