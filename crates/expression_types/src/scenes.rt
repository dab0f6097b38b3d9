//! What expressions are judged by.
ghost use Rattle.std.specs.Prelude.{◌≡◌, length};
ghost use Rattle.std.specs.List.{list_any};
ghost use Rattle.hept_ast.specs.Faults.{async_nodes, calls_lead};
ghost use Rattle.hept_ast.specs.Texts.{is_in};
ghost use Rattle.call_graph.specs.CallGraph.{leading};

use hept_ast::{Decl, Node, TypeDec};

/// A node, and what it is judged by besides its own text.
#[derive(Clone, Copy)]
pub struct NodeScene<'a> {
    pub types: &'a [TypeDec],
    pub nodes: &'a [Node],
    pub node: &'a Node,
    /// Of each node, whether calls lead from it to this one.
    pub leads: &'a [bool],
    /// Whether an async call names this node.
    pub is_async: bool,
    /// Whether an async call names this node or one from which calls lead to it.
    pub is_nested: bool,
    pub ghost led: { leads.now ≡ leading nodes.now (length nodes.now) node.now.name },
    pub ghost named: { is_async ≡ is_in node.now.name (async_nodes nodes.now) },
    pub ghost nested: { is_nested ≡ list_any (λ f. calls_lead nodes.now f node.now.name) (async_nodes nodes.now) },
}

/// What an expression is judged by.
#[derive(Clone, Copy)]
pub struct Scene<'a> {
    pub around: NodeScene<'a>,
    /// The variables that are seen.
    pub seen: &'a [&'a Decl],
    /// Whether it stands in a strong condition.
    pub strong: bool,
}
