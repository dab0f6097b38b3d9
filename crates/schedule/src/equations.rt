//! The order of a node's equations.
ghost use Rattle.std.specs.Prelude.{◌≡◌, ◌≢◌, ◌<◌, [], true, false, IfOk, MatchOption, All, Some, length, slice_get};
ghost use Rattle.schedule.specs.Order.{HaveNoCycle, InOrder, IsReady, waits};

use crate::waits::waits;
use hept_ast::{CoreEquation, Memory};
use sqlite_items::Items;
use std::alloc::Global;

/// The first equation that reads no left side of those that are left.
pub fn first_ready(left: &[CoreEquation]) -> Option<usize>
    ensures { MatchOption result (All (λ e. waits e left.now ≡ true) left.now) (λ k. IsReady left.now k) }
{
    for (k, e) in left.iter().enumerate() {
        if !waits(e, left) {
            return Some(k);
        }
    }
    None
}

/// The same, which there is since no reads have a cycle.
fn next_ready(left: &[CoreEquation]) -> usize
    requires some { left.now ≢ [] }
    requires acyclic { HaveNoCycle left.now }
    ensures { IsReady left.now result }
{
    match first_ready(left) {
        Some(k) => k,
        None => unreachable!(),
    }
}

/// The equations in an order in which each stands after those that it reads.
pub(crate) fn in_order(
    alloc: Global,
    equations: Items<CoreEquation>,
) -> Result<Items<CoreEquation>, Memory>
    requires { HaveNoCycle equations }
    ensures { IfOk result (λ others. InOrder equations others) }
{
    let mut left = equations;
    let mut taken = Items::new(alloc);
    while !left.is_empty() {
        let k = next_ready(left.as_slice());
        let e = left.remove(k);
        taken.push(e)?;
    }
    Ok(taken)
}
