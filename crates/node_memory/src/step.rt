ghost use Rattle.std.specs.Prelude.{◌≡◌, [], All, length, map};
ghost use Rattle.step_cells.specs.Cells.{cells_of, row_of, value_in};
ghost use Rattle.step_plans.specs.Books.{IsNoHandle};
ghost use Rattle.node_memory.specs.Standing.{IsSound, no_calls};
ghost use Rattle.node_memory.specs.Memories.{HoldsCellsOf, IsMemoryOf, MakesCall};

use crate::memory::NodeMemory;
use step_cells::Cell;
use step_engine::ZeroOffers;
use step_plans::NodePlan;

/// One call of a node whose text, with those of the nodes that it calls, has no async call.
pub fn step_node(plan: &NodePlan, memory: &mut NodeMemory, inputs: &[Cell], outputs: &mut [Cell])
    requires sound { IsSound plan.now }
    requires no_async { plan.now.offerings.items ≡ [] }
    requires of { IsMemoryOf plan.now memory.old }
    requires alone { HoldsCellsOf no_calls memory.old }
    requires inputs_fit { length inputs.now ≡ plan.now.inputs }
    requires outputs_fit { length outputs.old ≡ length plan.now.outputs.items }
    requires no_handles { All IsNoHandle inputs.now }
    ensures of { IsMemoryOf plan.now memory.new }
    ensures alone { HoldsCellsOf no_calls memory.new }
    ensures values { outputs.new ≡ cells_of (row_of outputs.new) }
    ensures call { MakesCall plan.now inputs.now (map value_in outputs.new) memory.old memory.new }
{
    memory.serve(plan, &mut ZeroOffers {}, inputs, outputs);
}
