//! The plan of a node.
ghost use Rattle.std.specs.Prelude.{◌≡◌, ◌<◌, ◌+◌, ◌^◌, [], IfOk, length};
ghost use Rattle.step_plans.specs.Plans.{IsPlanOf};
ghost use Rattle.plan_equations.specs.Grounds.{ground_of};
ghost use Rattle.plan_bodies.specs.Buildable.{IsBuildable};
ghost use Rattle.node_memory.specs.Standing.{IsSound};
ghost use Rattle.plan_nodes.specs.Texts.{BuildsText, IsTextWithin};

use crate::registers::input_registers;
use crate::stores::{Cells, add_stores};
use hept_ast::{Core, CoreNode, Memory};
use plan_bodies::{Expansion, add_body};
use plan_expressions::Draft;
use std::alloc::Global;
use step_plans::NodePlan;

/// What is built of a node's expanded text.
#[derive(Drop)]
pub(crate) struct BuiltText {
    pub(crate) draft: Draft,
    pub(crate) cells: Cells,
    /// The values of the outputs.
    pub(crate) outputs: Vec<u32>,
}

/// The values of all bodies, and then the stores of their cells. Value 0 is the presence of the base clock.
fn build_text(alloc: Global, core: &Core, node: &CoreNode, inputs: u32) -> Result<BuiltText, Memory>
    requires buildable { IsBuildable core.now (length core.now.nodes) node.now }
    requires inputs { inputs ≡ length node.now.inputs }
    requires few { inputs + 1 < 2 ^ 32 }
    ensures builds { IfOk result (BuildsText core.now node.now) }
    ensures within { IfOk result (IsTextWithin inputs) }
{
    let depth = core.nodes.len();
    let registers = input_registers(alloc, inputs)?;
    let mut draft = Draft {
        actions: Vec::new(alloc),
        at: inputs + 1,
    };
    let expansion = add_body(alloc, core, node, depth, 0, registers, 0, &mut draft)?;
    let Expansion {
        bodies,
        outputs,
        ..
    } = expansion;
    let cells = add_stores(alloc, core, bodies.as_slice(), &mut draft)?;
    Ok(BuiltText {
        draft,
        cells,
        outputs,
    })
}

/// The plan of a node of equations without resets, in which the nodes that it calls are expanded; it makes no
/// async call. It fails only for want of memory, which more than 2^32 - 1 values or cells are too.
pub fn build_node(alloc: Global, core: &Core, node: &CoreNode) -> Result<NodePlan, Memory>
    requires { IsBuildable core.now (length core.now.nodes) node.now }
    ensures plan { IfOk result (IsPlanOf (ground_of core.now node.now) [] node.now) }
    ensures sound { IfOk result IsSound }
    ensures alone { IfOk result (λ plan. plan.offerings.items ≡ []) }
{
    let count = node.inputs.len();
    if count >= u32::MAX as usize {
        return Err(Memory);
    }
    let inputs = count as u32;
    let text = build_text(alloc, core, node, inputs)?;
    let BuiltText {
        draft,
        cells,
        outputs,
    } = text;
    Ok(NodePlan {
        inputs,
        actions: draft.actions,
        stores: cells.stores,
        future_stores: Vec::new(alloc),
        initial: cells.initial,
        future_initial: Vec::new(alloc),
        offerings: Vec::new(alloc),
        outputs,
        values: draft.at,
        futures: inputs,
    })
}
