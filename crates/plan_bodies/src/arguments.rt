//! The values of arguments and of outputs.
ghost use Rattle.std.specs.Prelude.{◌≡◌, true, All, IfOk, length, map, slice_index};
ghost use Rattle.hept_ast.specs.Texts.{is_in, names, place_in};
ghost use Rattle.plan_expressions.specs.Computable.{Computable};
ghost use Rattle.plan_bodies.specs.Arguments.{EmitsArguments, KeepsArguments};

use hept_ast::{Decl, Expr, Memory, Name, TypeDec};
use plan_expressions::{Draft, emit, position};
use std::alloc::{AllocError, Global};

/// Adds the instructions of arguments without `when` and merges, and answers the numbers of their values.
pub(crate) fn argument_registers(
    alloc: Global,
    args: &[Expr],
    types: &[TypeDec],
    variables: &[Name],
    registers: &[u32],
    draft: &mut Draft,
) -> Result<Vec<u32>, Memory>
    requires known { length registers.now ≡ length variables.now }
    requires computable { All (Computable types.now variables.now 0) args.now }
    ensures emits { IfOk result (λ values. EmitsArguments types.now variables.now registers.now draft.old draft.new args.now values.items) }
    ensures as_many { IfOk result (λ values. length values.items ≡ length args.now) }
    ensures within { IfOk result (λ values. KeepsArguments registers.now draft.old draft.new values.items) }
{
    let mut values = Vec::new(alloc);
    for arg in args {
        let value = emit(alloc, arg, types, variables, registers, &[], draft)?;
        values.push(value).map_err(AllocError::from)?;
    }
    Ok(values)
}

/// The values of the outputs.
pub(crate) fn output_registers(
    alloc: Global,
    outputs: &[Decl],
    variables: &[Name],
    registers: &[u32],
) -> Result<Vec<u32>, Memory>
    requires known { length registers.now ≡ length variables.now }
    requires among { All (λ x. is_in x variables.now ≡ true) (names outputs.now) }
    ensures { IfOk result (λ r. r.items ≡ map (λ d. slice_index registers.now (place_in d.name variables.now)) outputs.now) }
{
    let mut numbers = Vec::new(alloc);
    for output in outputs {
        let register = registers[position(variables, &output.name)];
        numbers.push(register).map_err(AllocError::from)?;
    }
    Ok(numbers)
}
