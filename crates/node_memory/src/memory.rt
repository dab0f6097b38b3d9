ghost use Rattle.std.specs.Prelude.{◌≡◌, ◌≤◌, All, IfOk, List, length, map};
ghost use Rattle.step_cells.specs.Cells.{cells_of, row_of, value_in};
ghost use Rattle.step_plans.specs.Books.{Book, IsCellOf, IsNoHandle};
ghost use Rattle.step_engine.specs.Actions.{IsOwned, TakesAll};
ghost use Rattle.step_engine.specs.Instant.{CallsGoOn};
ghost use Rattle.node_memory.specs.Standing.{IsSound};

use crate::room::{filled, make_ready, most_sources, raise};
use hept_ast::Memory;
use std::alloc::Global;
use step_cells::Cell;
use step_engine::{Offers, serve_instant};
use step_plans::NodePlan;

/// What a node keeps between two calls, and the room that a call needs.
#[derive(Drop)]
pub struct NodeMemory {
    cells: Vec<u32>,
    /// What the cells hold at first.
    initial: Vec<u32>,
    /// The cells of future type, and after them the futures of a call.
    futures: Vec<Cell>,
    future_initial: Vec<u32>,
    /// Of each async call of the node whether its scope was restarted since it was made last.
    marks: Vec<u32>,
    values: Vec<u32>,
    input: Vec<Cell>,
    ghost cells_fit: { length cells.items ≡ length initial.items },
    ghost futures_fit: { length future_initial.items ≤ length futures.items },
}

impl NodeMemory {
    ghost use Rattle.node_memory.specs.Memories.{HoldsCellsOf, IsMemoryOf, MayStandAgain, ServesCall, StandsAgain, StandsForNone, futures_of};

    /// A memory for the node of a plan, before its first call.
    pub fn new(alloc: Global, plan: &NodePlan) -> Result<NodeMemory, Memory>
        requires { IsSound plan.now }
        ensures of { IfOk result (IsMemoryOf plan.now) }
        ensures named { (book : Book) → IfOk result (HoldsCellsOf book) }
        ensures stands { IfOk result (StandsForNone plan.now) }
    {
        let cells = Vec::from_slice(alloc, plan.initial.as_slice())?;
        let initial = Vec::from_slice(alloc, plan.initial.as_slice())?;
        let future_initial = Vec::from_slice(alloc, plan.future_initial.as_slice())?;
        let mut futures = filled(alloc, Cell::Ready(0), plan.futures as usize)?;
        make_ready(future_initial.as_slice(), futures.as_mut_slice());
        let marks = filled(alloc, 0, plan.offerings.len())?;
        let values = filled(alloc, 0, plan.values as usize)?;
        let most = most_sources(plan.offerings.as_slice());
        let input = filled(alloc, Cell::Ready(0), most)?;
        Ok(NodeMemory {
            cells,
            initial,
            futures,
            future_initial,
            marks,
            values,
            input,
        })
    }

    /// The next call is a marked one.
    pub fn restart(&mut self)
        ensures of { (plan : NodePlan) → IsMemoryOf plan self.old → IsMemoryOf plan self.new }
        ensures named { (book : Book) → HoldsCellsOf book self.old → HoldsCellsOf book self.new }
        ensures stands { StandsAgain self.old self.new }
        ensures none { (plan : NodePlan) → IsMemoryOf plan self.old → MayStandAgain plan self.new }
    {
        let cells = self.cells.as_mut_slice();
        cells.copy_from_slice(self.initial.as_slice());
        make_ready(self.future_initial.as_slice(), self.futures.as_mut_slice());
        raise(self.marks.as_mut_slice());
    }

    /// One call of the node, which makes its own async calls by the service.
    pub fn serve<C: Offers>(
        &mut self,
        plan: &NodePlan,
        calls: &mut C,
        inputs: &[Cell],
        outputs: &mut [Cell],
    )
        requires sound { IsSound plan.now }
        requires of { IsMemoryOf plan.now self.old }
        requires inputs_fit { length inputs.now ≡ plan.now.inputs }
        requires outputs_fit { length outputs.old ≡ length plan.now.outputs.items }
        requires no_handles { All IsNoHandle inputs.now }
        requires book { (book : Book) × C.stands calls.old book × IsOwned plan.now.offerings.items book (futures_of self.old) }
        requires takes { TakesAll C.stands C.takes plan.now.offerings.items }
        ensures of { IsMemoryOf plan.now self.new }
        ensures values { outputs.new ≡ cells_of (row_of outputs.new) }
        ensures served { (book : Book) → C.stands calls.old book → IsOwned plan.now.offerings.items book (futures_of self.old) →
            (later : Book) × C.stands calls.new later × IsOwned plan.now.offerings.items later (futures_of self.new) × CallsGoOn plan.now.offerings.items book later ×
            ServesCall plan.now inputs.now (map value_in outputs.new) self.old self.new book later }
    {
        serve_instant(
            plan,
            self.cells.as_mut_slice(),
            self.marks.as_mut_slice(),
            self.values.as_mut_slice(),
            self.futures.as_mut_slice(),
            self.input.as_mut_slice(),
            calls,
            inputs,
            outputs,
        );
    }
}
