//! The order of a core's equations.
ghost use Rattle.std.specs.Prelude.{All, IfOk};
ghost use Rattle.core_rules.specs.Cores.{CoreReads, HasNoCoreCycle};
ghost use Rattle.core_rules.specs.WellFormed.{IsWellFormed};
ghost use Rattle.core_facts.specs.Static.{StaticCore};
ghost use Rattle.hept_ast.specs.Causal.{HasNoCycle};
ghost use Rattle.hept_ast.specs.Reordering.{Reordering};
ghost use Rattle.schedule.specs.Kept.{KeepsMeaning};
ghost use Rattle.core_naming.specs.Normal.{IsNormal};
ghost use Rattle.schedule.specs.Order.{AreNodesInOrder, IsNodeInOrder, IsOrdered};

use crate::equations::in_order;
use crate::ordered::Ordered;
use hept_ast::{Core, CoreNode, Memory};
use sqlite_items::Items;
use std::alloc::Global;

fn order_node(alloc: Global, node: CoreNode) -> Result<CoreNode, Memory>
    requires { HasNoCycle (CoreReads node) }
    ensures { IfOk result (λ moved. IsNodeInOrder node moved) }
{
    let CoreNode {
        name,
        inputs,
        outputs,
        locals,
        equations,
    } = node;
    let equations = in_order(alloc, equations)?;
    Ok(CoreNode {
        name,
        inputs,
        outputs,
        locals,
        equations,
    })
}

fn order_nodes(alloc: Global, nodes: Items<CoreNode>) -> Result<Items<CoreNode>, Memory>
    requires { All (λ node. HasNoCycle (CoreReads node)) nodes }
    ensures { IfOk result (λ others. AreNodesInOrder nodes others) }
{
    let mut left = nodes;
    let mut done = Items::new(alloc);
    'nodes: while !left.is_empty() {
        let node = left.remove(0);
        let node = order_node(alloc, node)?;
        done.push(node)?;
    }
    Ok(done)
}

/// The equations of each node in an order in which each stands after those that it reads: in its right
/// side at its own instant, in its clock and in its resets. Nothing else changes, so the nodes mean what
/// they meant, and keep the static facts. It fails only for want of memory, since no reads have a cycle.
pub fn order(alloc: Global, core: Core) -> Result<Ordered, Memory>
    requires well_formed { IsWellFormed core }
    requires normal { IsNormal core }
    requires acyclic { HasNoCoreCycle core }
    requires facts { StaticCore core }
    ensures ordered { IfOk result (λ other. IsOrdered other) }
    ensures facts { IfOk result (λ other. StaticCore other) }
    ensures moved { IfOk result (λ other. Reordering core other) }
    ensures meaning { IfOk result (λ other. KeepsMeaning core other) }
{
    let Core { types, nodes } = core;
    let nodes = order_nodes(alloc, nodes)?;
    Ok(Ordered::of(Core { types, nodes }))
}
