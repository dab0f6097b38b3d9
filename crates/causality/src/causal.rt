//! Which programs have no cycle of reads.
ghost use Rattle.std.specs.Prelude.{◌≡◌, ◌<◌, ◌^◌, IfErr, IfOk, MatchResult, length};
ghost use Rattle.hept_ast.specs.Causal.{IsCausal};
ghost use Rattle.hept_ast.specs.ClockMaps.{clock_in};
ghost use Rattle.causality.specs.Cycles.{IsCausalFault, IsCycleAnswer};
ghost use Rattle.causality.specs.Vertices.{HasClocksOfDeclared};

use crate::flows::flows_of_node;
use crate::graph::find_cycle;
use crate::vertices::{graph_of, names_of, vertices_of};
use hept_ast::{Clocked, Memory, Name, Node, NodeId};
use sqlite_items::Items;
use std::alloc::Global;
use thiserror::Error;

/// Why a program is not causal.
#[derive(Debug, Drop, Error)]
pub enum CausalFault {
    /// Variables of a node, each reading the next and the last the first, none twice.
    #[error("cycle in node {}", .node.0)]
    Cycle { node: NodeId, vars: Items<Name> },
    #[error("out of memory")]
    Memory,
}

/// A cycle of reads of a node, if there is one.
fn cycle_of(
    alloc: Global,
    clocked: &Clocked,
    id: NodeId,
    node: &Node,
) -> Result<Option<Items<Name>>, Memory>
    requires { HasClocksOfDeclared node.now (clock_in clocked.now.clocks id.0) }
    ensures { IfOk result (IsCycleAnswer node.now (clock_in clocked.now.clocks id.0)) }
{
    let flows = flows_of_node(alloc, node)?;
    let vertices = vertices_of(alloc, node, flows.as_slice())?;
    let graph = graph_of(alloc, vertices.as_slice(), flows.as_slice(), clocked, id)?;
    match find_cycle(alloc, graph.as_slice())? {
        Some(cycle) => {
            let vars = names_of(alloc, vertices.as_slice(), cycle.as_slice())?;
            Ok(Some(vars))
        }
        None => Ok(None),
    }
}

/// Whether no variable of a node reads itself at its own instant, by way of others or not. What is kept
/// of a cycle is one of the first node that has any, beginning with its variable that is declared first.
pub fn check_causal(alloc: Global, clocked: &Clocked) -> Result<(), CausalFault>
    requires { length clocked.now.program.nodes < 2 ^ 32 }
    ensures answer { MatchResult result (λ done. IsCausal clocked.now.program (clock_in clocked.now.clocks)) (IsCausalFault clocked.now.program (clock_in clocked.now.clocks)) }
    ensures exactly { IsCausal clocked.now.program (clock_in clocked.now.clocks) → IfErr result (λ e. e ≡ CausalFault.Memory) }
{
    let nodes = clocked.program().nodes.as_slice();
    for (index, node) in nodes.iter().enumerate() {
        let id = NodeId(index as u32);
        match cycle_of(alloc, clocked, id, node) {
            Ok(Some(vars)) => return Err(CausalFault::Cycle { node: id, vars }),
            Ok(None) => {}
            Err(_) => return Err(CausalFault::Memory),
        }
    }
    Ok(())
}
