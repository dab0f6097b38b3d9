ghost use Rattle.std.specs.Prelude.{◌≡◌, ◌≤◌, All, EachIndex, IfOk, List, length, replicate, slice_index, slice_index_or};
ghost use Rattle.step_cells.specs.declared.cell.Cell.TheVariants as cell;
ghost use Rattle.step_plans.specs.Books.{Book, IsCellOf};
ghost use Rattle.step_plans.specs.Operations.{no_future};
ghost use Rattle.node_memory.specs.Standing.{HasFewSources};

use hept_ast::Memory;
use std::alloc::{AllocError, Global};
use step_cells::Cell;
use step_plans::Offering;

pub(crate) fn filled<T: Copy>(alloc: Global, item: T, count: usize) -> Result<Vec<T>, Memory>
    ensures { IfOk result (λ v. v.items ≡ replicate count item) }
{
    let mut all = Vec::with_capacity(alloc, count)?;
    for _ in 0..count {
        all.push(item).map_err(AllocError::from)?;
    }
    Ok(all)
}

/// The greatest number of arguments of a call.
pub(crate) fn most_sources(offerings: &[Offering]) -> usize
    ensures { All (HasFewSources result) offerings.now }
{
    let mut most = 0;
    for offering in offerings {
        most = offering.sources.len().max(most);
    }
    most
}

/// Gives the first futures these values.
pub(crate) fn make_ready(values: &[u32], futures: &mut [Cell])
    requires { length values.now ≤ length futures.old }
    ensures ready { EachIndex values.now (λ k. slice_index_or futures.new k no_future ≡ cell.Ready (slice_index values.now k)) }
    ensures named { (book : Book) → All (IsCellOf book) futures.old → All (IsCellOf book) futures.new }
{
    for (i, value) in values.iter().enumerate() {
        futures[i] = Cell::Ready(*value);
    }
}

pub(crate) fn raise(marks: &mut [u32])
    ensures { EachIndex marks.old (λ k. slice_index marks.new k ≡ 1) }
{
    for i in 0..marks.len() {
        marks[i] = 1;
    }
}
