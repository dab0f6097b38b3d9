//! The clocks of nodes.
ghost use Rattle.std.specs.Prelude.{◌≡◌, IfOk};
ghost use Rattle.clock_calculus.specs.Noted.{IsSolvedNode};

use crate::conditions::Collected;
use crate::numbers::{Numbers, collect_steps};
use crate::solve::{Solution, solve};
use crate::walk::collect;
use hept_ast::{Memory, Node};
use std::alloc::Global;

/// The conditions of a node, solved.
#[derive(Drop)]
pub(crate) struct SolvedNode<'a> {
    pub numbers: Numbers<'a>,
    pub solution: Solution,
}

pub(crate) fn solve_node<'a>(alloc: Global, node: &'a Node) -> Result<SolvedNode<'a>, Memory>
    ensures { IfOk result (IsSolvedNode node.now) }
{
    let Collected {
        mut conditions,
        expressions,
        variables,
    } = collect(alloc, node)?;
    let steps = collect_steps(alloc, conditions.as_slice())?;
    let Some(unknowns) = variables.len().checked_add(expressions) else {
        return Err(Memory);
    };
    let numbers = Numbers {
        names: variables,
        steps,
        unknowns,
    };
    let solution = solve(alloc, &numbers, conditions.as_mut_slice())?;
    Ok(SolvedNode { numbers, solution })
}
