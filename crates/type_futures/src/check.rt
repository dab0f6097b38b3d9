//! The rules of names, types, futures and limits as a whole.
ghost use Rattle.std.specs.Prelude.{◌≡◌, [], IfErr, IfOk, IfSome, IsTrue, OnOk, map};
ghost use Rattle.std.specs.List.{flat_map};
ghost use Rattle.std.specs.Option.{option_map};
ghost use Rattle.hept_ast.specs.Faults as faults_;
ghost use Rattle.hept_ast.specs.Faults.{faults, node_faults};
ghost use Rattle.hept_ast.specs.Limits.{all_faults, earlier_of, earliest};
ghost use Rattle.hept_ast.specs.Texts.{is_in};
ghost use Rattle.type_futures.specs.Checked.{IsTypeFault, answered, said_earliest};
ghost use Rattle.call_graph.specs.Graph.{IsGraphOf};
ghost use Rattle.earliest_fault.specs.Noted.{fault_of};

use crate::nodes::note_node;
use crate::seconds::note_second_declarations;
use call_graph::{CallGraph, leading_to};
use earliest_fault::{Fault, Found, Kind};
use expression_types::NodeScene;
use hept_ast::{Memory, Node, Place, Program, TypeDec, Typed};
use std::alloc::Global;
use text_limits::note_limits;
use thiserror::Error;

/// What is wrong with a program.
#[derive(Debug, Drop, Error)]
pub enum TypeFault {
    /// A type, a constructor, a variable, a node or a target state that isn't declared or not seen.
    #[error("unknown name at {}", .at.0)]
    UnknownName { at: Place },
    /// A second declaration, definition, tag or state, or a definition of an input.
    #[error("duplicate at {}", .at.0)]
    Duplicate { at: Place },
    /// Types that don't fit.
    #[error("mismatch at {}", .at.0)]
    Mismatch { at: Place },
    /// A divisor that is no constant other than 0.
    #[error("zero divisor at {}", .at.0)]
    ZeroDivisor { at: Place },
    /// A call from which calls lead back to its node.
    #[error("recursive at {}", .at.0)]
    Recursive { at: Place },
    /// A variable, a branch, a state or a tag that lacks its definition.
    #[error("not defined at {}", .at.0)]
    NotDefined { at: Place },
    /// A future that a node called by `async` gives, or reads other than by `!`.
    #[error("future kept at {}", .at.0)]
    FutureKept { at: Place },
    /// An async call in a node that async calls lead to.
    #[error("nested async at {}", .at.0)]
    NestedAsync { at: Place },
    /// A count above its limit.
    #[error("limit at {}: {kept} of {limit}", .at.0)]
    Limit { at: Place, kept: u32, limit: u32 },
    #[error("out of memory")]
    Memory,
}

/// Notes what is wrong with a node of a program.
fn note_node_of(
    alloc: Global,
    found: &mut Found,
    types: &[TypeDec],
    nodes: &[Node],
    graph: &CallGraph<'_>,
    node: &Node,
) -> Result<(), Memory>
    requires graph { IsGraphOf nodes.now graph.now }
    requires among { IsTrue (is_in node.now.name (map (λ n. n.name) nodes.now)) }
    ensures { OnOk result (found.new ≡ earlier_of found.old (earliest (node_faults (record { types = types.now; nodes = nodes.now }) node.now))) }
{
    let leading = leading_to(alloc, graph, nodes, node)?;
    let around = NodeScene {
        types,
        nodes,
        node,
        leads: leading.leads.as_slice(),
        is_async: leading.is_async,
        is_nested: leading.is_nested,
    };
    note_node(alloc, found, &around)
}

#[tactic(auto, using(hept_ast::proofs::Earliest::earliest_of))]
fn note_nodes(
    alloc: Global,
    found: &mut Found,
    types: &[TypeDec],
    nodes: &[Node],
) -> Result<(), Memory>
    ensures { OnOk result (found.new ≡ earlier_of found.old (earliest (flat_map (node_faults (record { types = types.now; nodes = nodes.now })) nodes.now))) }
{
    let graph = CallGraph::new(alloc, nodes)?;
    for node in nodes {
        note_node_of(alloc, found, types, nodes, &graph, node)?;
    }
    Ok(())
}

/// Notes what is wrong with the names and types of a program.
fn note_faults(alloc: Global, found: &mut Found, program: &Program) -> Result<(), Memory>
    ensures { OnOk result (found.new ≡ earlier_of found.old (earliest (faults program.now))) }
{
    note_second_declarations(alloc, found, program)?;
    note_nodes(
        alloc,
        found,
        program.types.as_slice(),
        program.nodes.as_slice(),
    )
}

/// The earliest fault of a program.
#[tactic(auto, using(hept_ast::proofs::Earliest::earliest_of))]
fn first_fault(alloc: Global, program: &Program) -> Result<Option<Fault>, Memory>
    ensures { IfOk result (λ f. option_map fault_of f ≡ earliest (all_faults program.now)) }
{
    let mut found = Found::new();
    note_faults(alloc, &mut found, program)?;
    note_limits(alloc, &mut found, program)?;
    Ok(found.first())
}

fn limit_fault(at: Place, kept: usize, limit: usize) -> TypeFault
    ensures { IfSome (answered result) (λ f. f ≡ record { place = at.0; kind = faults_.Limit kept limit }) }
{
    match (u32::try_from(kept), u32::try_from(limit)) {
        (Ok(kept), Ok(limit)) => TypeFault::Limit { at, kept, limit },
        _ => TypeFault::Memory,
    }
}

/// The answer to a fault. A count that no `u32` holds is answered like want of memory.
fn answer(fault: Fault) -> TypeFault
    ensures { IfSome (answered result) (λ f. f ≡ fault_of fault) }
{
    let at = fault.place;
    match fault.kind {
        Kind::UnknownName => TypeFault::UnknownName { at },
        Kind::Duplicate => TypeFault::Duplicate { at },
        Kind::Mismatch => TypeFault::Mismatch { at },
        Kind::ZeroDivisor => TypeFault::ZeroDivisor { at },
        Kind::Recursive => TypeFault::Recursive { at },
        Kind::NotDefined => TypeFault::NotDefined { at },
        Kind::FutureKept => TypeFault::FutureKept { at },
        Kind::NestedAsync => TypeFault::NestedAsync { at },
        Kind::Limit { kept, limit } => limit_fault(at, kept, limit),
    }
}

/// Checks names, types, futures and limits. The program is given back as it was exactly where nothing
/// is wrong with it; else the fault of least place is answered, and at one place the one of least number.
/// `Memory` is answered for want of memory, and for a first fault with a count of 2^32 or more.
pub fn check_types(alloc: Global, program: Program) -> Result<Typed, TypeFault>
    ensures same { IfOk result (λ typed. typed ≡ program) }
    ensures clean { OnOk result (all_faults program ≡ []) }
    ensures refused { IfErr result (IsTypeFault program) }
    ensures faults { IfSome (said_earliest result) (λ f. f ≡ earliest (all_faults program)) }
{
    match first_fault(alloc, &program) {
        Ok(None) => Ok(Typed::of(program)),
        Ok(Some(fault)) => Err(answer(fault)),
        Err(Memory) => Err(TypeFault::Memory),
    }
}
