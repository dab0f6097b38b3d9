ghost use Rattle.std.specs.Prelude.{◌≡◌, ℕ, ◌+◌, ◌<◌, ◌≤◌, All, EachIndex, length, slice_index, slice_index_or};
ghost use Rattle.step_cells.specs.Cells.{value_in};
ghost use Rattle.step_plans.specs.Operations.{among, no_future, stored, storing_of};
ghost use Rattle.step_plans.specs.Books.{Book, IsCellOf, IsNoHandle};
ghost use Rattle.step_engine.specs.Running.{AreIn, IsAfter, IsStoreWithin};
ghost use Rattle.step_engine.specs.Actions.{AreFuturesAfter, IsFutureStoreWithin, stored_future};
ghost use Rattle.step_engine.specs.Instant.{AreMarked, IsMarkWithin};

use step_cells::Cell;
use step_plans::{Offering, Store};

fn stored_value(store: &Store, values: &[u32], old: u32) -> u32
    requires { IsStoreWithin (length values.now) store.now }
    ensures { result ≡ stored (among values.now) (storing_of store.now) old }
{
    match store {
        Store::Always(a) => values[*a as usize],
        Store::Where(h, a) => {
            if values[*h as usize] == 1 {
                values[*a as usize]
            } else {
                old
            }
        }
        Store::Unless(h, a, g, k) => {
            if values[*h as usize] == 1 {
                values[*a as usize]
            } else if values[*g as usize] == 1 {
                *k
            } else {
                old
            }
        }
    }
}

/// Gives each cell what it keeps.
pub(crate) fn store(stores: &[Store], values: &[u32], cells: &mut [u32])
    requires as_many { length cells.old ≡ length stores.now }
    requires within { All (IsStoreWithin (length values.now)) stores.now }
    ensures { IsAfter stores.now values.now cells.old cells.new }
{
    for (i, store) in stores.iter().enumerate() {
        let value = stored_value(store, values, cells[i]);
        cells[i] = value;
    }
}

fn stored_cell(store: &Store, values: &[u32], futures: &[Cell], old: Cell) -> Cell
    requires { (cells : ℕ) × IsFutureStoreWithin (length values.now) cells (length futures.now) store.now }
    ensures { result ≡ stored_future values.now futures.now store.now old }
{
    match store {
        Store::Always(a) => futures[*a as usize],
        Store::Where(h, a) => {
            if values[*h as usize] == 1 {
                futures[*a as usize]
            } else {
                old
            }
        }
        Store::Unless(h, a, g, value) => {
            if values[*h as usize] == 1 {
                futures[*a as usize]
            } else if values[*g as usize] == 1 {
                Cell::Ready(*value)
            } else {
                old
            }
        }
    }
}

/// Gives each cell of future type what it keeps.
pub(crate) fn store_futures(stores: &[Store], values: &[u32], futures: &mut [Cell])
    requires room { length stores.now ≤ length futures.old }
    requires within { All (IsFutureStoreWithin (length values.now) (length stores.now) (length futures.old)) stores.now }
    ensures stored { AreFuturesAfter stores.now values.now futures.old futures.new }
    ensures named { (book : Book) → All (IsCellOf book) futures.old → All (IsCellOf book) futures.new }
{
    for (i, store) in stores.iter().enumerate() {
        let future = stored_cell(store, values, futures, futures[i]);
        futures[i] = future;
    }
}

/// Sets and clears the marks of async calls.
pub(crate) fn mark(offerings: &[Offering], values: &[u32], marks: &mut [u32])
    requires as_many { length marks.old ≡ length offerings.now }
    requires within { All (IsMarkWithin (length values.now)) offerings.now }
    ensures { AreMarked offerings.now values.now marks.old marks.new }
{
    for (i, offering) in offerings.iter().enumerate() {
        if values[offering.here as usize] == 1 {
            marks[i] = 0;
        } else if values[offering.again as usize] == 1 {
            marks[i] = 1;
        }
    }
}

/// Makes the first values: 1, and then those of the inputs.
pub(crate) fn put(inputs: &[Cell], values: &mut [u32])
    requires { length inputs.now + 1 ≤ length values.old }
    ensures base { slice_index values.new 0 ≡ 1 }
    ensures inputs { EachIndex inputs.now (λ k. slice_index values.new (k + 1) ≡ value_in (slice_index_or inputs.now k no_future)) }
{
    values[0] = 1;
    for (i, cell) in inputs.iter().enumerate() {
        values[i + 1] = cell.value();
    }
}

/// Makes the futures of the inputs, from this one on.
pub(crate) fn put_futures(inputs: &[Cell], first: usize, futures: &mut [Cell])
    requires { first + length inputs.now ≤ length futures.old }
    ensures inputs { EachIndex inputs.now (λ k. slice_index_or futures.new (first + k) no_future ≡ slice_index_or inputs.now k no_future) }
    ensures before { EachIndex futures.old (λ k. k < first → slice_index_or futures.new k no_future ≡ slice_index_or futures.old k no_future) }
    ensures named { (book : Book) → All (IsCellOf book) futures.old → All IsNoHandle inputs.now → All (IsCellOf book) futures.new }
{
    for (i, cell) in inputs.iter().enumerate() {
        futures[first + i] = *cell;
    }
}

/// Answers the values of these numbers.
pub(crate) fn give(registers: &[u32], values: &[u32], outputs: &mut [Cell])
    requires as_many { length outputs.old ≡ length registers.now }
    requires within { All (λ r. r < length values.now) registers.now }
    ensures { AreIn registers.now values.now outputs.new }
{
    for (i, register) in registers.iter().enumerate() {
        outputs[i] = Cell::Value(values[*register as usize]);
    }
}
