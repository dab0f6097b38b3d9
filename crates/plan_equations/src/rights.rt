//! The instructions of a right side. Its memory operators read their cells.
ghost use Rattle.std.specs.Prelude.{◌≡◌, ◌<◌, ◌+◌, ◌^◌, [], true, IfOk, length};
ghost use Rattle.hept_ast.specs.Texts.{is_in};
ghost use Rattle.hept_ast.specs.declared.tree.Form.{out-Form};
ghost use Rattle.plan_expressions.specs.Computable.{Computable};
ghost use Rattle.plan_equations.specs.Rights.{EmitsArrow, EmitsRight, EmitsStarted, IsRight, KeepsCells, right_cells};

use hept_ast::{Expr, Form, Memory, Name, TypeDec};
use plan_expressions::{Draft, emit, register_of};
use std::alloc::Global;
use step_plans::Instruction;

/// A `fby` that starts with a variable: what was kept, if anything was, or else the variable.
fn emit_started(
    x: &Name,
    variables: &[Name],
    registers: &[u32],
    cell: u32,
    draft: &mut Draft,
) -> Result<u32, Memory>
    requires known { length registers.now ≡ length variables.now }
    requires among { is_in x.now variables.now ≡ true }
    requires cells { cell + 1 < 2 ^ 32 }
    ensures emits { IfOk result (EmitsStarted variables.now registers.now cell draft.old draft.new x.now) }
    ensures within { IfOk result (KeepsCells 2 cell registers.now [] draft.old draft.new) }
{
    let first = register_of(x, variables, registers);
    let seen = draft.add(Instruction::Read(cell + 1))?;
    let left = draft.add(Instruction::Read(cell))?;
    draft.add(Instruction::Select(seen, 1, left, first))
}

/// An `->`: the second operand where there was a presence, or else the first.
fn emit_arrow(
    alloc: Global,
    a: &Expr,
    b: &Expr,
    types: &[TypeDec],
    variables: &[Name],
    registers: &[u32],
    presences: &[u32],
    cell: u32,
    draft: &mut Draft,
) -> Result<u32, Memory>
    requires known { length registers.now ≡ length variables.now }
    requires first { Computable types.now variables.now (length presences.now) a.now }
    requires later { Computable types.now variables.now (length presences.now) b.now }
    ensures emits { IfOk result (EmitsArrow types.now variables.now registers.now presences.now cell draft.old draft.new a.now b.now) }
    ensures within { IfOk result (KeepsCells 1 cell registers.now presences.now draft.old draft.new) }
{
    let seen = draft.add(Instruction::Read(cell))?;
    let first = emit(alloc, a, types, variables, registers, presences, draft)?;
    let later = emit(alloc, b, types, variables, registers, presences, draft)?;
    draft.add(Instruction::Select(seen, 1, later, first))
}

/// Adds the instructions of a right side, whose cells begin at this number, and answers the number of its value.
pub fn emit_right(
    alloc: Global,
    e: &Expr,
    types: &[TypeDec],
    variables: &[Name],
    registers: &[u32],
    presences: &[u32],
    cell: u32,
    draft: &mut Draft,
) -> Result<u32, Memory>
    requires known { length registers.now ≡ length variables.now }
    requires right { IsRight types.now variables.now (length presences.now) e.now }
    requires cells { cell + 1 < 2 ^ 32 }
    ensures emits { IfOk result (EmitsRight types.now variables.now registers.now presences.now cell draft.old draft.new e.now) }
    ensures within { IfOk result (KeepsCells (right_cells (out-Form e.now.form)) cell registers.now presences.now draft.old draft.new) }
{
    match &e.form {
        Form::Fby(a, _) => match &a.get().form {
            Form::Var(x) => emit_started(x, variables, registers, cell, draft),
            _ => draft.add(Instruction::Read(cell)),
        },
        Form::Pre(_) => draft.add(Instruction::Read(cell)),
        Form::Arrow(a, b) => emit_arrow(
            alloc,
            a.get(),
            b.get(),
            types,
            variables,
            registers,
            presences,
            cell,
            draft,
        ),
        _ => emit(alloc, e, types, variables, registers, presences, draft),
    }
}
