//! The presences of a clock.
ghost use Rattle.std.specs.Prelude.{◌≡◌, suc, IfOk, length};
ghost use Rattle.plan_equations.specs.Equations.{AreKnown, BuildsPresences, KeepsPresences};

use hept_ast::{ClockStep, Memory, Name, TypeDec};
use plan_expressions::{Draft, register_of, tag};
use std::alloc::{AllocError, Global};
use step_plans::Instruction;

/// Adds an instruction for each step of a clock whose variables have values, and answers a presence for
/// each beginning of the clock, of which `base` is the first: that of the body's base clock.
pub fn emit_presences(
    alloc: Global,
    base: u32,
    clock: &[ClockStep],
    types: &[TypeDec],
    variables: &[Name],
    registers: &[u32],
    draft: &mut Draft,
) -> Result<Vec<u32>, Memory>
    requires known { length registers.now ≡ length variables.now }
    requires among { AreKnown variables.now clock.now }
    ensures builds { IfOk result (λ presences. BuildsPresences types.now variables.now clock.now base registers.now draft.old draft.new presences.items) }
    ensures as_many { IfOk result (λ presences. length presences.items ≡ suc (length clock.now)) }
    ensures within { IfOk result (λ presences. KeepsPresences base registers.now draft.old draft.new presences.items) }
{
    let mut presences = vec![in alloc; base].map_err(AllocError::from)?;
    let mut last = base;
    for step in clock {
        let on = register_of(&step.name, variables, registers);
        let value = tag(types, &step.tag)?;
        last = draft.add(Instruction::Flag(last, on, value))?;
        presences.push(last).map_err(AllocError::from)?;
    }
    Ok(presences)
}
