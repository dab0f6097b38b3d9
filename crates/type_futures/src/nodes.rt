//! What is wrong with a node.
ghost use Rattle.std.specs.Prelude.{◌≡◌, OnOk, map};
ghost use Rattle.std.specs.List.{flat_map};
ghost use Rattle.hept_ast.specs.Faults.{node_faults};
ghost use Rattle.hept_ast.specs.Limits.{earlier_of, earliest};
ghost use Rattle.type_futures.specs.NodeFaults.{all_parts_faults, kept_output, program_of};
ghost use Rattle.type_futures.specs.Walk.{around_judging, equation_faults};

use crate::seconds::note_second_variables;
use crate::walk::note_equation;
use block_definitions::note_node_block;
use declared_types::{declared_type, is_plain, note_decls};
use earliest_fault::{Found, Kind};
use expression_types::NodeScene;
use hept_ast::{Decl, Equation, Memory};
use node_text::own_declarations;
use std::alloc::Global;

fn note_kept_output(found: &mut Found, is_async: bool, output: &Decl)
    ensures { found.new ≡ earlier_of found.old (earliest (kept_output is_async output.now)) }
{
    let plain = is_plain(declared_type(&output.ty));
    found.note_if(output.place, Kind::FutureKept, !plain && is_async);
}

/// Notes each output of future type, where an async call names the node.
#[tactic(auto, using(hept_ast::proofs::Earliest::earliest_of))]
fn note_kept_outputs(found: &mut Found, is_async: bool, outputs: &[Decl])
    ensures { found.new ≡ earlier_of found.old (earliest (flat_map (kept_output is_async) outputs.now)) }
{
    for output in outputs {
        note_kept_output(found, is_async, output);
    }
}

#[tactic(auto, using(hept_ast::proofs::Earliest::earliest_of))]
fn note_equations<'a>(
    alloc: Global,
    found: &mut Found,
    around: &NodeScene<'_>,
    seen: &[&'a Decl],
    body: &'a [Equation],
) -> Result<(), Memory>
    ensures { OnOk result (found.new ≡ earlier_of found.old (earliest (flat_map (equation_faults (around_judging around.now) (map (λ r. r.now) seen.now)) body.now))) }
{
    for equation in body {
        note_equation(alloc, found, around, seen, equation)?;
    }
    Ok(())
}

/// Notes what is wrong with the parts of a node.
fn note_parts(alloc: Global, found: &mut Found, around: &NodeScene<'_>) -> Result<(), Memory>
    ensures { OnOk result (found.new ≡ earlier_of found.old (earliest (all_parts_faults (program_of around.now) around.now.node.now))) }
{
    let node = around.node;
    note_node_block(alloc, found, around.types, node)?;
    let seen = own_declarations(alloc, node)?;
    note_equations(
        alloc,
        found,
        around,
        seen.as_slice(),
        node.block.body.as_slice(),
    )
}

/// Notes what is wrong with the names and types of a node.
pub(crate) fn note_node(
    alloc: Global,
    found: &mut Found,
    around: &NodeScene<'_>,
) -> Result<(), Memory>
    ensures { OnOk result (found.new ≡ earlier_of found.old (earliest (node_faults (program_of around.now) around.now.node.now))) }
{
    note_second_variables(alloc, found, around.node)?;
    note_decls(found, around.types, around.node.inputs.as_slice());
    note_kept_outputs(found, around.is_async, around.node.outputs.as_slice());
    note_parts(alloc, found, around)
}
