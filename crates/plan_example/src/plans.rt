//! Plans made by hand.
ghost use Rattle.std.specs.Prelude.{◌≡◌, [], IfOk};
ghost use Rattle.core_rules.specs.WellFormed.{sum_node};
ghost use Rattle.node_memory.specs.Standing.{IsSound};
ghost use Rattle.step_plans.specs.Plans.{IsPlanOf};
ghost use Rattle.plan_example.specs.Example.{HasShape, chosen_ground, chosen_node, sum_ground};

use std::alloc::{AllocError, Global};
use step_plans::{Action, Instruction, NodePlan, Store};

/// The plan of a node that sums its inputs.
pub fn sum_plan(alloc: Global) -> Result<NodePlan, AllocError>
    ensures plan { IfOk result (λ plan. IsPlanOf sum_ground [] sum_node plan) }
    ensures sound { IfOk result IsSound }
    ensures shape { IfOk result (HasShape 1 1) }
{
    let actions = [
        Action::Compute(2, Instruction::Read(0)),
        Action::Compute(3, Instruction::Add(1, 2)),
    ];
    Ok(NodePlan {
        inputs: 1,
        actions: Vec::from_slice(alloc, &actions)?,
        stores: Vec::from_slice(alloc, &[Store::Always(3)])?,
        future_stores: Vec::new(alloc),
        initial: Vec::from_slice(alloc, &[0])?,
        future_initial: Vec::new(alloc),
        offerings: Vec::new(alloc),
        outputs: Vec::from_slice(alloc, &[3])?,
        values: 4,
        futures: 1,
    })
}

/// The plan of a node with two branches, whose second output is the first one delayed, since the last
/// restart.
pub fn chosen_plan(alloc: Global) -> Result<NodePlan, AllocError>
    ensures plan { IfOk result (λ plan. IsPlanOf chosen_ground [] chosen_node plan) }
    ensures sound { IfOk result IsSound }
    ensures shape { IfOk result (HasShape 2 2) }
{
    let actions = [
        Action::Compute(3, Instruction::Flag(0, 1, 1)),
        Action::Compute(4, Instruction::Flag(0, 1, 0)),
        Action::Compute(5, Instruction::Constant(5)),
        Action::Compute(6, Instruction::Select(1, 1, 2, 5)),
        Action::Compute(7, Instruction::Constant(0)),
        Action::Compute(8, Instruction::Again(7, 0, 1)),
        Action::Compute(9, Instruction::ReadUnless(8, 0, 0)),
    ];
    Ok(NodePlan {
        inputs: 2,
        actions: Vec::from_slice(alloc, &actions)?,
        stores: Vec::from_slice(alloc, &[Store::Unless(0, 6, 8, 0)])?,
        future_stores: Vec::new(alloc),
        initial: Vec::from_slice(alloc, &[0])?,
        future_initial: Vec::new(alloc),
        offerings: Vec::new(alloc),
        outputs: Vec::from_slice(alloc, &[6, 9])?,
        values: 10,
        futures: 2,
    })
}
