//! Variables, expressions and steps by numbers.
ghost use Rattle.std.specs.Prelude.{◌≡◌, All, IfOk, OnOk, map, position, true};
ghost use Rattle.std.specs.List.{list_any};
ghost use Rattle.hept_ast.specs.Texts.{same};
ghost use Rattle.clock_calculus.specs.Numbering.{IsKnownToo, KnowsStep, encoded, names_of, same_step, step_number, step_of, steps_of};
ghost use Rattle.clock_calculus.specs.Unify.{IsWithin};
ghost use Rattle.clock_calculus.specs.Written.{base_term, clock_term};

use crate::conditions::{Base, Clock, Condition, Step};
use crate::unify::Term;
use hept_ast::{Memory, Name};
use node_text::{is_same, is_same_tag};
use sqlite_items::Items;
use std::alloc::Global;

/// The numbers of a node: its variables come first, then its expressions.
#[derive(Drop)]
pub(crate) struct Numbers<'a> {
    /// The variables that the node declares.
    pub names: Vec<&'a Name>,
    pub steps: Vec<Step<'a>>,
    /// How many variables and expressions there are.
    pub unknowns: usize,
}

pub(crate) fn is_same_step(step: Step<'_>, other: Step<'_>) -> bool
    ensures { result ≡ same_step (step_of step.entry) (step_of other.entry) }
{
    let same = is_same_tag(step.tag, other.tag);
    same && is_same(step.name, other.name)
}

fn index_of(name: &Name, names: &[&Name]) -> Option<usize>
    ensures { result ≡ position (λ r. same name.now r.now) names.now }
{
    names.iter().position(|other| is_same(name, other))
}

fn step_index(step: Step<'_>, steps: &[Step<'_>]) -> Option<usize>
    ensures { result ≡ position (λ t. same_step (step_of step.entry) (step_of t)) steps.now }
{
    steps.iter().position(|other| is_same_step(step, *other))
}

impl<'a> Numbers<'a> {
    /// The number of a variable, if the node declares it.
    #[tactic(auto, using(crate::proofs::Numbered::numbers))]
    pub(crate) fn variable(&self, name: &Name) -> Option<usize>
        ensures { result ≡ position (same name.now) (names_of self.now) }
    {
        index_of(name, self.names.as_slice())
    }

    #[tactic(auto, using(crate::proofs::Numbered::numbers))]
    fn step(&self, step: Step<'a>) -> usize
        ensures { result ≡ step_number (steps_of self.now) (step_of step.entry) }
    {
        step_index(step, self.steps.as_slice()).unwrap_or(0)
    }

    /// The number of what a clock stands on.
    #[tactic(auto, using(crate::proofs::Numbered::numbers), unfolding(crate::specs::Numbering::encoded))]
    pub(crate) fn base(&self, base: Base<'a>) -> Option<usize>
        requires { IsWithin self.now.unknowns (encoded (names_of self.now) (steps_of self.now) (base_term base)).base }
        ensures { result ≡ (encoded (names_of self.now) (steps_of self.now) (base_term base.entry)).base }
    {
        match base {
            Base::Empty => None,
            Base::Variable(name) => self.variable(name),
            Base::Expression(number) => {
                let unknowns = self.unknowns;
                let first = self.names.len();
                if first < unknowns {
                    Some(first + number)
                } else {
                    None
                }
            }
        }
    }

    /// A clock as a term.
    #[tactic(auto, unfolding(crate::specs::Numbering::encoded))]
    pub(crate) fn term(&self, alloc: Global, clock: Clock<'a>) -> Result<Term, Memory>
        requires { IsWithin self.now.unknowns (encoded (names_of self.now) (steps_of self.now) (clock_term clock)).base }
        ensures { IfOk result (λ t. t ≡ encoded (names_of self.now) (steps_of self.now) (clock_term clock.entry)) }
    {
        let base = self.base(clock.base);
        let mut steps = Items::new(alloc);
        if let Some(step) = clock.step {
            let number = self.step(step);
            if steps.push(number).is_err() {
                return Err(Memory);
            }
        }
        Ok(Term { base, steps })
    }
}

fn is_any_same(step: Step<'_>, steps: &[Step<'_>]) -> bool
    ensures { result ≡ list_any (λ t. same_step (step_of step.entry) (step_of t)) steps.now }
{
    steps.iter().any(|other| is_same_step(step, *other))
}

#[tactic(auto, using(crate::proofs::Numbered::numbers))]
fn is_known(step: Step<'_>, steps: &[Step<'_>]) -> bool
    ensures { result ≡ list_any (same_step (step_of step.entry)) (map step_of steps.now) }
{
    is_any_same(step, steps)
}

/// Appends a step, if it is not there.
fn note_step<'a>(steps: &mut Vec<Step<'a>>, step: Step<'a>) -> Result<(), Memory>
    ensures kept { OnOk result (IsKnownToo (map step_of steps.old.items) (map step_of steps.new.items)) }
    ensures known { OnOk result (list_any (same_step (step_of step.entry)) (map step_of steps.new.items) ≡ true) }
{
    if is_known(step, steps.as_slice()) {
        return Ok(());
    }
    match steps.push(step) {
        Ok(()) => Ok(()),
        Err(_) => Err(Memory),
    }
}

fn note_clock<'a>(steps: &mut Vec<Step<'a>>, clock: Clock<'a>) -> Result<(), Memory>
    ensures kept { OnOk result (IsKnownToo (map step_of steps.old.items) (map step_of steps.new.items)) }
    ensures known { OnOk result (KnowsStep (map step_of steps.new.items) (clock_term clock.entry)) }
{
    match clock.step {
        Some(step) => note_step(steps, step),
        None => Ok(()),
    }
}

/// The steps of some conditions, each once.
pub(crate) fn collect_steps<'a>(
    alloc: Global,
    conditions: &[Condition<'a>],
) -> Result<Vec<Step<'a>>, Memory>
    ensures { IfOk result (λ s. All (λ c. KnowsStep (map step_of s.items) (clock_term c.right)) conditions.now) }
{
    let mut steps = Vec::new(alloc);
    for condition in conditions {
        note_clock(&mut steps, condition.right)?;
    }
    Ok(steps)
}
