//! The node that a program is run from.
ghost use Rattle.std.specs.Prelude.{◌≡◌, ◌<◌, ◌≤◌, ◌^◌, MatchResult, None, Some, length, not, position};
ghost use Rattle.std.specs.List.{find};
ghost use Rattle.std.specs.Option.{option_copied, option_map};
ghost use Rattle.hept_ast.specs.Texts.{same};
ghost use Rattle.hept_ast.specs.Types.{is_plain};
ghost use Rattle.type_futures.specs.Chosen.{IsChosen, IsFutureAt, IsTopFault, future_at, future_in, future_interface};

use hept_ast::{Decl, Node, NodeId, Place, Ty, Typed};
use thiserror::Error;

/// Why a program can't be run from a node.
#[derive(Debug, Drop, Error)]
pub enum TopFault {
    #[error("no node")]
    NoNode,
    /// The first input or output of future type.
    #[error("future interface at {}", .at.0)]
    FutureInterface { at: Place },
}

/// The node of this name, or the last one where no name is given.
pub fn choose(typed: &Typed, name: Option<&str>) -> Result<NodeId, TopFault>
    requires { length typed.now.nodes < 2 ^ 32 }
    ensures { MatchResult result (λ id. IsChosen typed.now.nodes (option_map (λ s. s.now) name.entry) id.0) (IsTopFault typed.now.nodes (option_map (λ s. s.now) name.entry)) }
{
    let nodes = typed.program().nodes.as_slice();
    match name {
        Some(name) => named(nodes, name.as_bytes()),
        None => last(nodes),
    }
}

fn named(nodes: &[Node], name: &[u8]) -> Result<NodeId, TopFault>
    requires { length nodes.now < 2 ^ 32 }
    ensures { MatchResult result (λ id. IsChosen nodes.now (Some name.now) id.0) (IsTopFault nodes.now (Some name.now)) }
{
    match position_of(nodes, name) {
        Some(index) => with_plain_interface(nodes, index),
        None => Err(TopFault::NoNode),
    }
}

fn position_of(nodes: &[Node], name: &[u8]) -> Option<usize>
    ensures { result ≡ position (λ n. same n.name name.now) nodes.now }
{
    nodes.iter().position(|node| is_named(node, name))
}

fn is_named(node: &Node, name: &[u8]) -> bool
    ensures { result ≡ same node.now.name name.now }
{
    node.name.bytes() == name
}

fn last(nodes: &[Node]) -> Result<NodeId, TopFault>
    requires { length nodes.now < 2 ^ 32 }
    ensures { MatchResult result (λ id. IsChosen nodes.now None id.0) (IsTopFault nodes.now None) }
{
    match nodes {
        [] => Err(TopFault::NoNode),
        [_, rest @ ..] => with_plain_interface(nodes, rest.len()),
    }
}

fn with_plain_interface(nodes: &[Node], index: usize) -> Result<NodeId, TopFault>
    requires within { index < length nodes.now }
    requires counted { length nodes.now < 2 ^ 32 }
    ensures { MatchResult result (λ id. (id.0 ≡ index) × (future_at nodes.now index ≡ None)) (λ e. IsFutureAt nodes.now index e) }
{
    match future_interface(&nodes[index]) {
        Some(at) => Err(TopFault::FutureInterface { at }),
        None => Ok(NodeId(index as u32)),
    }
}

fn future_interface(node: &Node) -> Option<Place>
    ensures { option_map (λ p. p.0) result ≡ future_interface node.now }
{
    match future_in(node.inputs.as_slice()) {
        Some(at) => Some(at),
        None => future_in(node.outputs.as_slice()),
    }
}

fn future_in(decls: &[Decl]) -> Option<Place>
    ensures { option_map (λ p. p.0) result ≡ future_in decls.now }
{
    match decls.iter().find(|decl| is_future(&decl.ty)) {
        Some(decl) => Some(decl.place),
        None => None,
    }
}

fn is_future(ty: &Ty) -> bool
    ensures { result ≡ not (is_plain ty.now) }
{
    match ty {
        Ty::Plain(_) => false,
        Ty::Future(_) => true,
    }
}
