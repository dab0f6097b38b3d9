//! Nodes that are stepped by plans made by hand.
ghost use Rattle.std.specs.Prelude.{IfOk};
ghost use Rattle.node_memory.specs.Memories.{HoldsCellsOf, IsMemoryOf};
ghost use Rattle.node_memory.specs.Standing.{IsSound, no_calls};

use crate::plans::{chosen_plan, sum_plan};
use hept_ast::Memory;
use node_memory::{NodeMemory, is_sound, step_node};
use std::alloc::{AllocError, Global};
use std::test::Fail;
use step_cells::Cell;
use step_plans::NodePlan;

fn memory_of(alloc: Global, plan: &NodePlan) -> Result<NodeMemory, AllocError>
    requires { IsSound plan.now }
    ensures of { IfOk result (IsMemoryOf plan.now) }
    ensures alone { IfOk result (HoldsCellsOf no_calls) }
{
    match NodeMemory::new(alloc, plan) {
        Ok(memory) => Ok(memory),
        Err(Memory) => Err(AllocError),
    }
}

#[test]
fn sums_up_to_a_restart(rt: HostRuntime) -> Result<(), Fail> {
    let plan = sum_plan(rt.alloc())?;
    let mut memory = memory_of(rt.alloc(), &plan)?;
    let mut out = [Cell::Value(0)];
    step_node(&plan, &mut memory, &[Cell::Value(1)], &mut out);
    assert_eq!(rt; out[0], Cell::Value(1));
    step_node(&plan, &mut memory, &[Cell::Value(2)], &mut out);
    assert_eq!(rt; out[0], Cell::Value(3));
    memory.restart();
    step_node(&plan, &mut memory, &[Cell::Value(5)], &mut out);
    assert_eq!(rt; out[0], Cell::Value(5));
    Ok(())
}

#[test]
fn chooses_a_branch_and_restarts(rt: HostRuntime) -> Result<(), Fail> {
    let plan = chosen_plan(rt.alloc())?;
    assert!(rt; is_sound(&plan));
    let mut memory = memory_of(rt.alloc(), &plan)?;
    let mut out = [Cell::Value(0), Cell::Value(0)];
    step_node(
        &plan,
        &mut memory,
        &[Cell::Value(0), Cell::Value(7)],
        &mut out,
    );
    assert_eq!(rt; out, [Cell::Value(5), Cell::Value(0)]);
    step_node(
        &plan,
        &mut memory,
        &[Cell::Value(0), Cell::Value(8)],
        &mut out,
    );
    assert_eq!(rt; out, [Cell::Value(5), Cell::Value(5)]);
    step_node(
        &plan,
        &mut memory,
        &[Cell::Value(1), Cell::Value(3)],
        &mut out,
    );
    assert_eq!(rt; out, [Cell::Value(3), Cell::Value(0)]);
    step_node(
        &plan,
        &mut memory,
        &[Cell::Value(0), Cell::Value(9)],
        &mut out,
    );
    assert_eq!(rt; out, [Cell::Value(5), Cell::Value(3)]);
    Ok(())
}
