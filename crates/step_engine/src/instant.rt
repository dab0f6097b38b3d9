ghost use Rattle.std.specs.Prelude.{◌≡◌, All, length, map};
ghost use Rattle.step_cells.specs.Cells.{cells_of, row_of, value_in};
ghost use Rattle.step_plans.specs.Books.{Book, IsNoHandle};
ghost use Rattle.step_plans.specs.Instants.{ServesInstant};
ghost use Rattle.step_engine.specs.Actions.{IsOwned, TakesAll};
ghost use Rattle.step_engine.specs.Instant.{CallsGoOn, IsRunnable};

use crate::acting::serve;
use crate::offers::Offers;
use crate::storing::{give, mark, put, put_futures, store, store_futures};
use step_cells::Cell;
use step_plans::NodePlan;

/// One instant of a node.
pub fn serve_instant<C: Offers>(
    plan: &NodePlan,
    cells: &mut [u32],
    marks: &mut [u32],
    values: &mut [u32],
    futures: &mut [Cell],
    input: &mut [Cell],
    calls: &mut C,
    inputs: &[Cell],
    outputs: &mut [Cell],
)
    requires runnable { IsRunnable plan.now (length values.old) (length cells.old) (length futures.old) (length marks.old) (length input.old) (length inputs.now) (length outputs.old) }
    requires no_handles { All IsNoHandle inputs.now }
    requires book { (book : Book) × C.stands calls.old book × IsOwned plan.now.offerings.items book futures.old }
    requires takes { TakesAll C.stands C.takes plan.now.offerings.items }
    ensures values { outputs.new ≡ cells_of (row_of outputs.new) }
    ensures served { (book : Book) → C.stands calls.old book → IsOwned plan.now.offerings.items book futures.old → (later : Book) × C.stands calls.new later × IsOwned plan.now.offerings.items later futures.new × CallsGoOn plan.now.offerings.items book later ×
        ServesInstant plan.now inputs.now (map value_in outputs.new) (record { cells = cells.old; futures = futures.old; marks = marks.old }) (record { cells = cells.new; futures = futures.new; marks = marks.new }) book later }
{
    put(inputs, values);
    put_futures(inputs, plan.future_stores.len(), futures);
    serve(
        plan.actions.as_slice(),
        plan.offerings.as_slice(),
        cells,
        marks,
        values,
        futures,
        input,
        calls,
    );
    store(plan.stores.as_slice(), values, cells);
    store_futures(plan.future_stores.as_slice(), values, futures);
    mark(plan.offerings.as_slice(), values, marks);
    give(plan.outputs.as_slice(), values, outputs);
}
