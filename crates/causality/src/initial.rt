//! Which programs read no undefined value.
ghost use Rattle.std.specs.Prelude.{◌≡◌, ◌++◌, IfErr, IfOk, OnOk, MatchResult, [], length, map};
ghost use Rattle.std.specs.List.{flat_map};
ghost use Rattle.hept_ast.specs.Initial.{AreLeastGrades, IsInitialised};
ghost use Rattle.causality.specs.Demands.{grades_from, unmet_in_equation, unmet_last, unmet_parts};
ghost use Rattle.causality.specs.Initialised.{AreNoted, IsInitFault, IsNoted};
ghost use Rattle.causality.specs.Lowest.{lower, lowest};

use crate::demands::{note_decls, note_lasts, note_operands};
use crate::flows::flows_of_node;
use crate::grades::nil_variables;
use crate::parts::note_body;
use crate::unmet::Unmet;
use hept_ast::{Clocked, Memory, Name, Node, Place};
use node_text::{node_expressions, own_declarations};
use std::alloc::Global;
use thiserror::Error;

/// Why a program is not initialised.
#[derive(Debug, Drop, Error)]
pub enum InitFault {
    /// The first place that demands a defined value and may have none.
    #[error("may be nil at {}", .at.0)]
    MayBeNil { at: Place },
    #[error("out of memory")]
    Memory,
}

/// Notes what the parts of a node demand.
fn note_parts(alloc: Global, found: &mut Unmet, node: &Node, nil: &[&Name]) -> Result<(), Memory>
    ensures { OnOk result (found.new ≡ lower found.old (lowest (unmet_parts (grades_from (map (λ r. r.now) nil.now)) node.now))) }
{
    let own = own_declarations(alloc, node)?;
    note_lasts(found, node.outputs.as_slice(), nil);
    note_lasts(found, node.block.locals.as_slice(), nil);
    note_body(
        alloc,
        found,
        &[],
        own.as_slice(),
        node.block.body.as_slice(),
        nil,
    )
}

/// Notes the demands of a node that its least grades do not meet.
fn note_node(alloc: Global, found: &mut Unmet, node: &Node) -> Result<(), Memory>
    ensures { OnOk result (IsNoted found.old found.new node.now) }
{
    let flows = flows_of_node(alloc, node)?;
    let nil = nil_variables(alloc, flows.as_slice())?;
    let exprs = node_expressions(alloc, node)?;
    note_decls(found, node.outputs.as_slice(), nil.as_slice());
    note_parts(alloc, found, node, nil.as_slice())?;
    note_operands(found, exprs.as_slice(), nil.as_slice());
    Ok(())
}

fn note_nodes(alloc: Global, nodes: &[Node]) -> Result<Unmet, Memory>
    ensures { IfOk result (λ found. AreNoted nodes.now (length nodes.now) found) }
{
    let mut found = Unmet::new();
    for node in nodes {
        note_node(alloc, &mut found, node)?;
    }
    Ok(found)
}

/// Whether every demand for a defined value is met by the least grades of each node: outputs, variables
/// with `last`, what a block defines for the outside, arguments of calls, scrutinees, conditions and
/// branches, and what `pre` and `fby` keep.
pub fn check_initial(alloc: Global, clocked: &Clocked) -> Result<(), InitFault>
    ensures answer { MatchResult result (λ done. IsInitialised clocked.now.program) (IsInitFault clocked.now.program) }
    ensures exactly { IsInitialised clocked.now.program → IfErr result (λ e. e ≡ InitFault.Memory) }
{
    let found = match note_nodes(alloc, clocked.program().nodes.as_slice()) {
        Ok(found) => found,
        Err(_) => return Err(InitFault::Memory),
    };
    match found.first() {
        Some(at) => Err(InitFault::MayBeNil { at }),
        None => Ok(()),
    }
}
