//! The instructions of an equation on its clock, without resets.
ghost use Rattle.std.specs.Prelude.{◌≡◌, ◌<◌, ◌+◌, ◌^◌, IfOk, OnOk, length, suc};
ghost use Rattle.hept_ast.specs.declared.tree.Form.{out-Form};
ghost use Rattle.plan_equations.specs.Equations.{AreKnown, BuildsEquation, KeepsEquation};
ghost use Rattle.plan_equations.specs.Rights.{IsRight, right_cells};

use crate::presences::emit_presences;
use crate::rights::emit_right;
use hept_ast::{CoreEquation, Memory, Name, TypeDec};
use plan_expressions::Draft;
use std::alloc::{AllocError, Global};

/// Adds the instructions of an equation of a body, whose cells begin at this number, and the number of its
/// variable's value. `base` is the presence of the body's base clock. It answers the presence of the equation's.
pub fn emit_equation(
    alloc: Global,
    base: u32,
    e: &CoreEquation,
    types: &[TypeDec],
    variables: &[Name],
    registers: &mut Vec<u32>,
    cell: u32,
    draft: &mut Draft,
) -> Result<u32, Memory>
    requires known { length registers.old.items ≡ length variables.now }
    requires among { AreKnown variables.now e.now.clock.steps }
    requires right { IsRight types.now variables.now (suc (length e.now.clock.steps)) e.now.right }
    requires cells { cell + 1 < 2 ^ 32 }
    ensures builds { IfOk result (BuildsEquation types.now variables.now cell base e.now registers.old.items draft.old registers.new.items draft.new) }
    ensures one_more { OnOk result (length registers.new.items ≡ suc (length registers.old.items)) }
    ensures within { IfOk result (KeepsEquation (right_cells (out-Form e.now.right.form)) cell base registers.old.items draft.old registers.new.items draft.new) }
{
    let presences = emit_presences(
        alloc,
        base,
        e.clock.steps.as_slice(),
        types,
        variables,
        registers.as_slice(),
        draft,
    )?;
    let value = emit_right(
        alloc,
        &e.right,
        types,
        variables,
        registers.as_slice(),
        presences.as_slice(),
        cell,
        draft,
    )?;
    registers.push(value).map_err(AllocError::from)?;
    Ok(presences[e.clock.steps.len()])
}
