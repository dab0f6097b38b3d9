//! The clocks of a solved node.
ghost use Rattle.std.specs.Prelude.{◌≡◌, IfOk, OnOk, map, position};
ghost use Rattle.hept_ast.specs.ClockMaps.{IsSetIn};
ghost use Rattle.hept_ast.specs.Texts.{same};
ghost use Rattle.clock_calculus.specs.Filled.{IsFilled};
ghost use Rattle.clock_calculus.specs.Numbering.{clock_path, names_of, solved_clock, step_at, step_of, steps_of};
ghost use Rattle.clock_calculus.specs.Unify.{base_path, least};

use crate::conditions::Step;
use crate::numbers::Numbers;
use crate::unify::Term;
use hept_ast::{ClockPath, ClockStep, Clocks, Memory, Name, NodeId, Tag, copy_name, copy_tag};
use sqlite_items::{Items, at};
use std::alloc::Global;

/// The steps of what an unknown is bound to; a free one is on the base clock.
#[tactic(auto, using(crate::proofs::FilledOf::bindings))]
fn steps_bound(bindings: &[Option<Term>], u: usize) -> &[usize]
    ensures { result.now ≡ least bindings.now u }
{
    match at(bindings, u) {
        Some(binding) => match binding {
            Some(term) => term.steps.as_slice(),
            None => &[],
        },
        None => &[],
    }
}

fn numbers_of<'b>(numbers: &Numbers<'_>, bindings: &'b [Option<Term>], name: &Name) -> &'b [usize]
    ensures { result.now ≡ base_path (least bindings.now) (position (same name.now) (names_of numbers.now)) }
{
    match numbers.variable(name) {
        Some(u) => steps_bound(bindings, u),
        None => &[],
    }
}

fn copy_step(alloc: Global, step: Step<'_>) -> Result<ClockStep, Memory>
    ensures { IfOk result (λ s. s ≡ step_of step.entry) }
{
    let tag = copy_tag(alloc, step.tag)?;
    let name = copy_name(alloc, step.name)?;
    Ok(ClockStep { tag, name })
}

/// The step of a number. Each number of a solution is that of a step; none stands for another.
fn numbered_step(alloc: Global, steps: &[Step<'_>], number: usize) -> Result<ClockStep, Memory>
    ensures { IfOk result (λ s. s ≡ step_at (map step_of steps.now) number) }
{
    match at(steps, number) {
        Some(step) => copy_step(alloc, *step),
        None => Ok(ClockStep {
            tag: Tag::Truth(true),
            name: Name::of(alloc, &[])?,
        }),
    }
}

fn path_of(alloc: Global, steps: &[Step<'_>], numbers: &[usize]) -> Result<ClockPath, Memory>
    ensures { IfOk result (λ p. p.steps ≡ clock_path (map step_of steps.now) numbers.now) }
{
    let mut path = Items::new(alloc);
    for number in numbers {
        let step = numbered_step(alloc, steps, *number)?;
        path.push(step)?;
    }
    Ok(ClockPath { steps: path })
}

/// Sets the clock of a variable.
#[tactic(auto, unfolding(crate::specs::Numbering::solved_clock))]
fn set_clock(
    alloc: Global,
    clocks: &mut Clocks,
    node: NodeId,
    numbers: &Numbers<'_>,
    bindings: &[Option<Term>],
    name: &Name,
) -> Result<(), Memory>
    ensures { OnOk result (IsSetIn clocks.old clocks.new node.0 name.now (record { steps = solved_clock (names_of numbers.now) (steps_of numbers.now) bindings.now name.now })) }
{
    let steps = numbers_of(numbers, bindings, name);
    let path = path_of(alloc, numbers.steps.as_slice(), steps)?;
    let name = copy_name(alloc, name)?;
    clocks.set(alloc, node, name, path)
}

/// Sets the clocks of all variables of a node.
pub(crate) fn set_clocks(
    alloc: Global,
    clocks: &mut Clocks,
    node: NodeId,
    numbers: &Numbers<'_>,
    bindings: &[Option<Term>],
) -> Result<(), Memory>
    ensures { OnOk result (IsFilled clocks.old clocks.new node.0 (names_of numbers.now) (solved_clock (names_of numbers.now) (steps_of numbers.now) bindings.now)) }
{
    for name in numbers.names.as_slice() {
        set_clock(alloc, clocks, node, numbers, bindings, name)?;
    }
    Ok(())
}
