//! The stepper: the plan of the node that is run, what it keeps between two instants, and an instant.
ghost use Rattle.std.specs.Prelude.{◌≡◌, ◌≢◌, ℕ, ◌<◌, ◌++◌, ◌∷◌, [], List, Some, IfOk, length, slice_get};
ghost use Rattle.hept_ast.specs.Stages.{ClockedProgram};
ghost use Rattle.hept_ast.specs.declared.tree.Node.{Node};
ghost use Rattle.accepted_meaning.specs.Ranges.{IsInRange};
ghost use Rattle.node_memory.specs.Standing.{IsSound};
ghost use Rattle.served_programs.specs.Served.{IsServed};
ghost use Rattle.step_objects.specs.Shapes.{FitsShape};
ghost use Rattle.step_objects.specs.Interfaces.{input_shape, output_shape};
ghost use Rattle.step_cells.specs.Cells.{row_of};
ghost use Rattle.program_stepper.specs.Stepping.{CanStep, GivesLast, GivesRows, IsPlanFor, IsReady, Stands, input_count, output_count};

use accepted_meaning::accepted_laws;
use buildable_cores::buildable_law;
use core_making::make_core;
use flat_cores::flat_laws;
use hept_ast::{Accepted, Memory};
use node_memory::{NodeMemory, step_node};
use plan_nodes::build_node;
use ready_nodes::ready_law;
use std::alloc::Global;
use step_objects::Cell;
use step_plans::NodePlan;

/// The plan of a node of a served program.
fn plan_of(alloc: Global, accepted: &Accepted, number: usize) -> Result<NodePlan, Memory>
    requires number { number < length accepted.now.program.nodes }
    requires range { IsInRange accepted.now.program }
    requires served { IsServed accepted.now.program }
    ensures plan { (node : Node) → slice_get accepted.now.program.nodes number ≡ Some node → IfOk result (IsPlanFor accepted.now number node) }
    ensures sound { IfOk result IsSound }
    ensures alone { IfOk result (λ plan. plan.offerings.items ≡ []) }
{
    flat_laws();
    buildable_law();
    ready_law();
    let made = make_core(alloc, accepted)?;
    let core = made.core();
    let node = &core.nodes.as_slice()[number];
    build_node(alloc, core, node)
}

/// A program with what it keeps between two instants.
#[derive(Drop)]
pub struct Stepper {
    plan: NodePlan,
    memory: NodeMemory,
}

impl Stepper {
    /// The stepper of a program, before its first instant.
    pub fn new(alloc: Global, accepted: &Accepted) -> Result<Stepper, Memory>
        requires main { accepted.now.program.nodes ≢ [] }
        requires range { IsInRange accepted.now.program }
        requires served { IsServed accepted.now.program }
        ensures stands { IfOk result (λ s. Stands accepted.now [] s) }
        ensures rows { GivesRows accepted.now [] [] }
    {
        let last = accepted.program().nodes.len() - 1;
        let plan = plan_of(alloc, accepted, last)?;
        let memory = NodeMemory::new(alloc, &plan)?;
        Ok(Stepper { plan, memory })
    }

    /// How many values a row has.
    pub fn inputs(&self) -> usize
        ensures { result ≡ input_count self.now }
    {
        self.plan.inputs as usize
    }

    /// How many output values an instant has.
    pub fn outputs(&self) -> usize
        ensures { result ≡ output_count self.now }
    {
        self.plan.outputs.len()
    }

    /// Does the instant of a row.
    pub fn instant(&mut self, row: &[Cell], out: &mut [Cell])
        requires ready { IsReady self.old }
        requires stands { CanStep self.old row.now }
        requires out { length out.old ≡ output_count self.old }
        ensures ready { IsReady self.new }
        ensures inputs { input_count self.new ≡ input_count self.old }
        ensures outputs { output_count self.new ≡ output_count self.old }
        ensures steps { (c : ClockedProgram) (rows : List (List ℕ)) → Stands c rows self.old → FitsShape (input_shape c.program) row.now →
            GivesLast c rows (row_of row.now) (row_of out.new) × Stands c (rows ++ row_of row.now ∷ []) self.new }
        ensures rows { (c : ClockedProgram) (rows outs : List (List ℕ)) → Stands c rows self.old → FitsShape (input_shape c.program) row.now → GivesRows c rows outs →
            GivesRows c (rows ++ row_of row.now ∷ []) (outs ++ row_of out.new ∷ []) }
        ensures fits { (c : ClockedProgram) (rows : List (List ℕ)) → Stands c rows self.old → FitsShape (input_shape c.program) row.now → FitsShape (output_shape c.program) out.new }
    {
        accepted_laws();
        step_node(&self.plan, &mut self.memory, row, out);
    }
}
