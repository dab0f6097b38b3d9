//! The clocks of a program.
ghost use Rattle.std.specs.Prelude.{◌≡◌, [], IfErr, IfOk, length};
ghost use Rattle.clock_calculus.specs.Noted.{IsNoted, IsProgress, earlier_place};
ghost use Rattle.clock_calculus.specs.Checked.{IsClockFault};
ghost use Rattle.hept_ast.specs.Stages.{HasLeastClocks};

use crate::filling::set_clocks;
use crate::nodes::{SolvedNode, solve_node};
use crate::solve::Solution;
use hept_ast::{Clocked, Clocks, Memory, Node, NodeId, Place, Typed};
use std::alloc::Global;
use thiserror::Error;

/// Why a program has no clocks.
#[derive(Debug, Drop, Error)]
pub enum ClockFault {
    /// The least place such that the conditions of that place and all before it cannot be met.
    #[error("no clock at {}", .at.0)]
    NoClock { at: Place },
    #[error("out of memory")]
    Memory,
}

/// The earlier of two places, where there are two.
fn earlier(first: Option<Place>, place: Place) -> Place
    ensures { result ≡ earlier_place first place }
{
    match first {
        Some(other) => { if place.0 < other.0 { place } else { other } }
        None => place,
    }
}

/// Notes the clocks of a node, or the place of its clash.
fn note_node(
    alloc: Global,
    clocks: &mut Clocks,
    first: Option<Place>,
    id: NodeId,
    node: SolvedNode<'_>,
) -> Result<Option<Place>, Memory>
    ensures { IfOk result (λ next. IsNoted node.entry id.0 clocks.old first clocks.new next) }
{
    let SolvedNode { numbers, solution } = node;
    match solution {
        Solution::Clash(place) => Ok(Some(earlier(first, place))),
        Solution::Solved(bindings) => match first {
            Some(place) => Ok(Some(place)),
            None => {
                set_clocks(alloc, clocks, id, &numbers, bindings.as_slice())?;
                Ok(None)
            }
        },
    }
}

fn node_id(index: usize) -> Result<NodeId, Memory>
    ensures { IfOk result (λ id. id.0 ≡ index) }
{
    match u32::try_from(index) {
        Ok(index) => Ok(NodeId(index)),
        Err(_) => Err(Memory),
    }
}

/// Notes the clocks of all nodes, or the earliest place of their clashes.
pub(crate) fn note_nodes(
    alloc: Global,
    clocks: &mut Clocks,
    nodes: &[Node],
) -> Result<Option<Place>, Memory>
    requires { clocks.old ≡ [] }
    ensures { IfOk result (IsProgress nodes.now (length nodes.now) clocks.new) }
{
    let mut first = None;
    for (index, node) in nodes.iter().enumerate() {
        let id = node_id(index)?;
        let solved = solve_node(alloc, node)?;
        first = note_node(alloc, clocks, first, id, solved)?;
    }
    Ok(first)
}

/// The clocks of a program: the least ones that meet the conditions of its text.
pub fn check_clocks(alloc: Global, typed: Typed) -> Result<Clocked, ClockFault>
    ensures program { IfOk result (λ c. c.program ≡ typed) }
    ensures clocks { IfOk result (λ c. HasLeastClocks typed c.clocks) }
    ensures fault { IfErr result (IsClockFault typed) }
{
    let mut clocks = Clocks::new(alloc);
    match note_nodes(alloc, &mut clocks, typed.program().nodes.as_slice()) {
        Ok(None) => Ok(Clocked::of(typed, clocks)),
        Ok(Some(at)) => Err(ClockFault::NoClock { at }),
        Err(Memory) => Err(ClockFault::Memory),
    }
}
