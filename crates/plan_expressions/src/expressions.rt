//! The instructions of an expression.
ghost use Rattle.std.specs.Prelude.{◌≡◌, ◌<◌, ◌+◌, [], ◌∷◌, ◌++◌, true, IfOk, length, slice_index};
ghost use Rattle.hept_ast.specs.Texts.{is_in, place_in};
ghost use Rattle.plan_expressions.specs.Computable.{Computable, AreComputable};
ghost use Rattle.plan_expressions.specs.Clocked.{EmitsOn, EmitsBranch, EmitsBranches, KeepsWithinOn};

use crate::constants::{constant, divisor, position, tag};
use crate::draft::Draft;
use crate::instructions::{binary, divided, is_division, unary};
use hept_ast::{Expr, Form, Memory, MergeBranch, Name, TypeDec};
use std::alloc::{AllocError, Global};
use step_plans::Instruction;

/// The number of a variable's value.
pub fn register_of(x: &Name, variables: &[Name], registers: &[u32]) -> u32
    requires known { length registers.now ≡ length variables.now }
    requires among { is_in x.now variables.now ≡ true }
    ensures { result ≡ slice_index registers.now (place_in x.now variables.now) }
{
    registers[position(variables, x)]
}

/// The presences with one more.
fn longer(alloc: Global, presences: &[u32], here: u32) -> Result<Vec<u32>, Memory>
    ensures { IfOk result (λ longer. longer.items ≡ presences.now ++ here ∷ []) }
{
    let mut longer = presences.to_vec(alloc)?;
    longer.push(here).map_err(AllocError::from)?;
    Ok(longer)
}

/// Adds the instructions of an expression over variables that have values, and answers the number of its
/// value. There is a presence for each beginning of the expression's clock, or none where neither `when` nor
/// merges stand in the expression.
#[cycle(emission)]
pub fn emit(
    alloc: Global,
    e: &Expr,
    types: &[TypeDec],
    variables: &[Name],
    registers: &[u32],
    presences: &[u32],
    draft: &mut Draft,
) -> Result<u32, Memory>
    requires known { length registers.now ≡ length variables.now }
    requires computable { Computable types.now variables.now (length presences.now) e.now }
    ensures emits { IfOk result (EmitsOn types.now variables.now registers.now presences.now draft.old draft.new e.now) }
    ensures within { IfOk result (KeepsWithinOn registers.now presences.now draft.old draft.new) }
{
    match &e.form {
        Form::Const(k) => {
            let value = constant(types, k)?;
            draft.add(Instruction::Constant(value))
        }
        Form::Var(x) => Ok(register_of(x, variables, registers)),
        Form::Unary(op, a) => {
            let a = emit(
                alloc,
                a.get(),
                types,
                variables,
                registers,
                presences,
                draft,
            )?;
            draft.add(unary(*op, a))
        }
        Form::Binary(op, a, b) => {
            let a = emit(
                alloc,
                a.get(),
                types,
                variables,
                registers,
                presences,
                draft,
            )?;
            if is_division(*op) {
                let k = divisor(types, b.get())?;
                return draft.add(divided(*op, a, k));
            }
            let b = emit(
                alloc,
                b.get(),
                types,
                variables,
                registers,
                presences,
                draft,
            )?;
            draft.add(binary(*op, a, b))
        }
        Form::If(condition, a, b) => {
            let condition = emit(
                alloc,
                condition.get(),
                types,
                variables,
                registers,
                presences,
                draft,
            )?;
            let a = emit(
                alloc,
                a.get(),
                types,
                variables,
                registers,
                presences,
                draft,
            )?;
            let b = emit(
                alloc,
                b.get(),
                types,
                variables,
                registers,
                presences,
                draft,
            )?;
            draft.add(Instruction::Select(condition, 1, a, b))
        }
        Form::When(a, _, _) => {
            let outer = &presences[..presences.len() - 1];
            emit(alloc, a.get(), types, variables, registers, outer, draft)
        }
        Form::Merge(x, branches) => {
            let branches = branches.as_slice();
            emit_branches(
                alloc, x, branches, types, variables, registers, presences, draft,
            )
        }
        _ => unreachable!(),
    }
}

/// A branch of a merge: its presence, and its value.
#[cycle(emission)]
fn emit_branch(
    alloc: Global,
    x: &Name,
    branch: &MergeBranch,
    types: &[TypeDec],
    variables: &[Name],
    registers: &[u32],
    presences: &[u32],
    draft: &mut Draft,
) -> Result<u32, Memory>
    requires known { length registers.now ≡ length variables.now }
    requires among { is_in x.now variables.now ≡ true }
    requires present { 0 < length presences.now }
    requires computable { Computable types.now variables.now (length presences.now + 1) branch.now.value }
    ensures emits { IfOk result (EmitsBranch types.now variables.now registers.now presences.now draft.old draft.new x.now branch.now) }
    ensures within { IfOk result (KeepsWithinOn registers.now presences.now draft.old draft.new) }
{
    let on = register_of(x, variables, registers);
    let value = tag(types, &branch.tag)?;
    let outer = presences[presences.len() - 1];
    let here = draft.add(Instruction::Flag(outer, on, value))?;
    let inner = longer(alloc, presences, here)?;
    emit(
        alloc,
        &branch.value,
        types,
        variables,
        registers,
        inner.as_slice(),
        draft,
    )
}

/// The branches of a merge from the last one to the first, each chosen where the variable has the value of its tag.
#[cycle(emission)]
fn emit_branches(
    alloc: Global,
    x: &Name,
    branches: &[MergeBranch],
    types: &[TypeDec],
    variables: &[Name],
    registers: &[u32],
    presences: &[u32],
    draft: &mut Draft,
) -> Result<u32, Memory>
    requires known { length registers.now ≡ length variables.now }
    requires among { is_in x.now variables.now ≡ true }
    requires present { 0 < length presences.now }
    requires some { 0 < length branches.now }
    requires computable { AreComputable types.now variables.now (length presences.now + 1) branches.now }
    ensures emits { IfOk result (EmitsBranches types.now variables.now registers.now presences.now draft.old draft.new x.now branches.now) }
    ensures within { IfOk result (KeepsWithinOn registers.now presences.now draft.old draft.new) }
{
    let on = register_of(x, variables, registers);
    let last = branches.len() - 1;
    let mut chosen = emit_branch(
        alloc,
        x,
        &branches[last],
        types,
        variables,
        registers,
        presences,
        draft,
    )?;
    for k in (0..last).rev() {
        let branch = &branches[k];
        let value = tag(types, &branch.tag)?;
        let other = emit_branch(
            alloc, x, branch, types, variables, registers, presences, draft,
        )?;
        chosen = draft.add(Instruction::Select(on, value, other, chosen))?;
    }
    Ok(chosen)
}
