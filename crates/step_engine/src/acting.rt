ghost use Rattle.std.specs.Prelude.{◌≡◌, ◌≢◌, ◌+◌, ◌<◌, ◌≤◌, All, List, None, Some, length, map, slice_index, take};
ghost use Rattle.step_cells.specs.declared.cell.Cell.{Cell};
ghost use Rattle.step_cells.specs.declared.cell.Handle.{Handle};
ghost use Rattle.step_plans.specs.Books.{Book, IsCellOf, IsOffered, IsSameBook, worth};
ghost use Rattle.step_plans.specs.Operations.{cell_of as source_cell};
ghost use Rattle.step_engine.specs.Running.{IsSourceWithin};
ghost use Rattle.step_engine.specs.Actions.{AreDone, IsActionWithin, IsOfferOf, IsOfferingWithin, IsOwned, IsStep, TakesAll, TakesNow, input_of, reset_of, with_futures};

use crate::offers::Offers;
use crate::operating::{cell_of, value_of};
use step_cells::{Cell, Handle};
use step_plans::{Action, Offering, Source};

/// The input of a call.
fn collect(sources: &[Source], values: &[u32], futures: &[Cell], input: &mut [Cell])
    requires room { length sources.now ≤ length input.old }
    requires within { All (IsSourceWithin (length values.now) (length futures.now)) sources.now }
    ensures { take (length sources.now) input.new ≡ map (source_cell values.now futures.now) sources.now }
{
    for (i, source) in sources.iter().enumerate() {
        let cell = match source {
            Source::Value(r) => Cell::Value(values[*r as usize]),
            Source::Future(f) => futures[*f as usize],
        };
        input[i] = cell;
    }
}

/// Makes the futures of a call, one for each output.
fn hold(futures: &mut [Cell], first: usize, outputs: u32, handle: Handle)
    requires { first + outputs ≤ length futures.old }
    ensures { futures.new ≡ with_futures futures.old first outputs (Some handle) }
{
    for j in 0..outputs {
        futures[first + j as usize] = Cell::Held(Handle {
            slot: handle.slot,
            component: j,
            generation: handle.generation,
        });
    }
}

/// The futures of a call that is not made.
fn clear(futures: &mut [Cell], first: usize, outputs: u32)
    requires { first + outputs ≤ length futures.old }
    ensures { futures.new ≡ with_futures futures.old first outputs None }
{
    for j in 0..outputs {
        futures[first + j as usize] = Cell::Ready(0);
    }
}

/// Makes a call where it is present.
fn offered<C: Offers>(
    k: u32,
    o: &Offering,
    marks: &[u32],
    values: &[u32],
    futures: &mut [Cell],
    input: &mut [Cell],
    calls: &mut C,
)
    requires within { IsOfferingWithin (length values.now) (length futures.old) (length input.old) o.now }
    requires mark { k < length marks.now }
    requires takes { (given names : List Cell) → IsOfferOf futures.old o.now given names → C.takes calls.old k given names }
    ensures not_here { slice_index values.now o.now.here ≢ 1 → (futures.new ≡ with_futures futures.old o.now.first o.now.outputs None) × (calls.new ≡ calls.old) }
    ensures here { slice_index values.now o.now.here ≡ 1 → (handle : Handle) × (futures.new ≡ with_futures futures.old o.now.first o.now.outputs (Some handle)) ×
        ((book : Book) → C.stands calls.old book → (later : Book) × C.stands calls.new later × IsOffered book later k (reset_of marks.now values.now k o.now) (input_of values.now futures.old o.now) handle) }
{
    let first = o.first as usize;
    if values[o.here as usize] == 1 {
        let reset = marks[k as usize] == 1 || values[o.again as usize] == 1;
        let sources = o.sources.as_slice();
        collect(sources, values, futures, input);
        let handle = calls.offer(k, reset, &input[..sources.len()], &futures[..first]);
        hold(futures, first, o.outputs, handle);
    } else {
        clear(futures, first, o.outputs);
    }
}

/// The value of a future where the number is 1.
fn got<C: Offers>(here: u32, future: Cell, calls: &mut C) -> u32
    requires { (book : Book) × C.stands calls.old book × IsCellOf book future }
    ensures { (book : Book) → C.stands calls.old book → IsCellOf book future → (here ≡ 1 → result ≡ worth book.reply future) × (later : Book) × C.stands calls.new later × IsSameBook book later }
{
    if here == 1 {
        match future {
            Cell::Value(value) => value,
            Cell::Ready(value) => value,
            Cell::Held(handle) => calls.get(handle),
        }
    } else {
        0
    }
}

fn act<C: Offers>(
    action: &Action,
    offerings: &[Offering],
    cells: &[u32],
    marks: &[u32],
    values: &mut [u32],
    futures: &mut [Cell],
    input: &mut [Cell],
    calls: &mut C,
)
    requires within { IsActionWithin (length values.old) (length cells.now) (length futures.old) (length offerings.now) action.now }
    requires offerings { All (IsOfferingWithin (length values.old) (length futures.old) (length input.old)) offerings.now }
    requires marks { length marks.now ≡ length offerings.now }
    requires book { (book : Book) × C.stands calls.old book × IsOwned offerings.now book futures.old }
    requires takes { TakesNow (C.takes calls.old) offerings.now futures.old }
    ensures { (book : Book) → C.stands calls.old book → IsOwned offerings.now book futures.old → (later : Book) × C.stands calls.new later × IsOwned offerings.now later futures.new ×
        IsStep offerings.now cells.now marks.now action.now (record { values = values.old; futures = futures.old; book = book }) (record { values = values.new; futures = futures.new; book = later }) }
{
    match action {
        Action::Compute(to, instruction) => {
            let value = value_of(instruction, cells, values);
            values[*to as usize] = value;
        }
        Action::Move(to, instruction) => {
            let future = cell_of(instruction, values, futures);
            futures[*to as usize] = future;
        }
        Action::Offer(k) => {
            let offering = &offerings[*k as usize];
            offered(*k, offering, marks, values, futures, input, calls);
        }
        Action::Get(to, here, future) => {
            let value = got(values[*here as usize], futures[*future as usize], calls);
            values[*to as usize] = value;
        }
    }
}

/// Does the actions in their order.
pub(crate) fn serve<C: Offers>(
    actions: &[Action],
    offerings: &[Offering],
    cells: &[u32],
    marks: &[u32],
    values: &mut [u32],
    futures: &mut [Cell],
    input: &mut [Cell],
    calls: &mut C,
)
    requires within { All (IsActionWithin (length values.old) (length cells.now) (length futures.old) (length offerings.now)) actions.now }
    requires offerings { All (IsOfferingWithin (length values.old) (length futures.old) (length input.old)) offerings.now }
    requires marks { length marks.now ≡ length offerings.now }
    requires book { (book : Book) × C.stands calls.old book × IsOwned offerings.now book futures.old }
    requires takes { TakesAll C.stands C.takes offerings.now }
    ensures { (book : Book) → C.stands calls.old book → IsOwned offerings.now book futures.old → (later : Book) × C.stands calls.new later × IsOwned offerings.now later futures.new ×
        AreDone offerings.now cells.now marks.now actions.now (record { values = values.old; futures = futures.old; book = book }) (record { values = values.new; futures = futures.new; book = later }) }
{
    for action in actions {
        act(
            action, offerings, cells, marks, values, futures, input, calls,
        );
    }
}
