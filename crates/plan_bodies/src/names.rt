//! The names of a node's variables.
ghost use Rattle.std.specs.Prelude.{◌≡◌, ◌++◌, IfOk, OnOk};
ghost use Rattle.std.specs.List.{flat_map};
ghost use Rattle.hept_ast.specs.Texts.{names};
ghost use Rattle.plan_bodies.specs.Buildable.{variables_of};

use hept_ast::{CoreEquation, CoreNode, Decl, Memory, Name, copy_name};
use sqlite_items::Items;
use std::alloc::Global;

fn add_inputs(alloc: Global, inputs: &[Decl], variables: &mut Items<Name>) -> Result<(), Memory>
    ensures { OnOk result (variables.new ≡ variables.old ++ names inputs.now) }
{
    for input in inputs {
        let name = copy_name(alloc, &input.name)?;
        variables.push(name)?;
    }
    Ok(())
}

fn add_names(alloc: Global, from: &[Name], variables: &mut Items<Name>) -> Result<(), Memory>
    ensures { OnOk result (variables.new ≡ variables.old ++ from.now) }
{
    for name in from {
        let name = copy_name(alloc, name)?;
        variables.push(name)?;
    }
    Ok(())
}

fn add_left_sides(
    alloc: Global,
    equations: &[CoreEquation],
    variables: &mut Items<Name>,
) -> Result<(), Memory>
    ensures { OnOk result (variables.new ≡ variables.old ++ flat_map (λ e. e.left) equations.now) }
{
    for e in equations {
        add_names(alloc, e.left.as_slice(), variables)?;
    }
    Ok(())
}

/// The inputs, and then the left sides in the order of the equations.
pub(crate) fn variables(alloc: Global, node: &CoreNode) -> Result<Items<Name>, Memory>
    ensures { IfOk result (λ variables. variables ≡ variables_of node.now) }
{
    let mut variables = Items::new(alloc);
    add_inputs(alloc, node.inputs.as_slice(), &mut variables)?;
    add_left_sides(alloc, node.equations.as_slice(), &mut variables)?;
    Ok(variables)
}
