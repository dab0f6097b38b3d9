//! Sizes in a table by the positions of nodes: each is found once those of the callees are known.
ghost use Rattle.std.specs.Prelude.{◌≡◌, ℕ, ◌<◌, ◌++◌, ◌∷◌, [], IfOk, MatchOption, OnOk, length, map, slice_index, slice_index_or};
ghost use Rattle.hept_ast.specs.Faults.{IsTyped};
ghost use Rattle.hept_ast.specs.Parts.{expressions};
ghost use Rattle.expanded_size.specs.Sizes.{HasSize, kept};
ghost use Rattle.expanded_size.specs.Tables.{HasNoSize, IsNext, IsSettled, IsUnknown, callee_lists, known, with_callees};

use call_graph::CallGraph;
use hept_ast::{Memory, Node, NodeId, Program};
use node_text::node_expressions;
use std::alloc::Global;

/// The number of expressions of a node's text.
fn expression_count(alloc: Global, node: &Node) -> Result<u32, Memory>
    ensures { IfOk result (λ n. n ≡ kept (length (expressions node.now))) }
{
    let exprs = node_expressions(alloc, node)?;
    Ok(exprs.len().min(4_294_967_295) as u32)
}

fn push_count(counts: &mut Vec<u32>, count: u32) -> Result<(), Memory>
    ensures { OnOk result (counts.new.items ≡ counts.old.items ++ count ∷ []) }
{
    match counts.push(count) {
        Ok(()) => Ok(()),
        Err(_) => Err(Memory),
    }
}

/// The number of expressions of each node.
fn counts_of(alloc: Global, nodes: &[Node]) -> Result<Vec<u32>, Memory>
    ensures { IfOk result (λ v. v.items ≡ map (λ n. kept (length (expressions n))) nodes.now) }
{
    let mut counts = Vec::new(alloc);
    for node in nodes {
        let count = expression_count(alloc, node)?;
        push_count(&mut counts, count)?;
    }
    Ok(counts)
}

fn count_at(counts: &[u32], place: usize) -> u32
    ensures { result ≡ slice_index counts.now place }
{
    match counts.get(place) {
        Some(count) => *count,
        None => 0,
    }
}

fn callees_at<'a>(graph: &'a CallGraph<'_>, place: usize) -> &'a [usize]
    ensures { result.now ≡ slice_index_or (callee_lists graph.now) place [] }
{
    match graph.rows.get(place) {
        Some(row) => row.callees.as_slice(),
        None => &[],
    }
}

fn known(sizes: &[Option<u32>], place: usize) -> Option<u32>
    ensures { result ≡ known sizes.now place }
{
    match sizes.get(place) {
        Some(size) => *size,
        None => None,
    }
}

/// A size and those of some callees together, where all of these are known.
fn with_callees(sizes: &[Option<u32>], own: u32, callees: &[usize]) -> Option<u32>
    ensures { result ≡ with_callees sizes.now own callees.now }
{
    let mut size = own;
    for callee in callees {
        size = size.saturating_add(known(sizes, *callee)?);
    }
    Some(size)
}

/// The size of a node where it isn't known yet, but those of its callees are.
fn new_size(
    counts: &[u32],
    graph: &CallGraph<'_>,
    sizes: &[Option<u32>],
    place: usize,
) -> Option<u32>
    ensures { MatchOption result
        (HasNoSize counts.now (callee_lists graph.now) sizes.now place)
        (IsNext counts.now (callee_lists graph.now) sizes.now place) }
{
    match known(sizes, place) {
        Some(_) => None,
        None => with_callees(sizes, count_at(counts, place), callees_at(graph, place)),
    }
}

/// A node whose size isn't known yet, but those of its callees are, and its size.
fn next_size(counts: &[u32], graph: &CallGraph<'_>, sizes: &[Option<u32>]) -> Option<(usize, u32)>
    ensures { MatchOption result
        ((place : ℕ) → place < length graph.now.rows.items → HasNoSize counts.now (callee_lists graph.now) sizes.now place)
        (λ next. (next.0 < length graph.now.rows.items) × IsNext counts.now (callee_lists graph.now) sizes.now next.0 next.1) }
{
    for place in 0..graph.rows.len() {
        if let Some(size) = new_size(counts, graph, sizes, place) {
            return Some((place, size));
        }
    }
    None
}

/// A table in which no size is known.
fn unknown(alloc: Global, count: usize) -> Result<Vec<Option<u32>>, Memory>
    ensures { IfOk result (λ v. IsUnknown count v.items) }
{
    let mut sizes = Vec::new(alloc);
    for _ in 0..count {
        if sizes.push(None).is_err() {
            return Err(Memory);
        }
    }
    Ok(sizes)
}

/// The sizes of all nodes whose callees have sizes.
fn settle(alloc: Global, counts: &[u32], graph: &CallGraph<'_>) -> Result<Vec<Option<u32>>, Memory>
    ensures { IfOk result (λ v. IsSettled counts.now (callee_lists graph.now) v.items) }
{
    let mut sizes = unknown(alloc, graph.rows.len())?;
    while let Some((place, size)) = next_size(counts, graph, &sizes) {
        sizes[place] = Some(size);
    }
    Ok(sizes)
}

/// The expanded size of a node of a program, or 4,294,967,295 where it is greater. No expanded text is
/// walked: the size of each node is found once.
pub fn expanded_size(alloc: Global, program: &Program, node: NodeId) -> Result<u32, Memory>
    requires typed { IsTyped program.now }
    requires within { node.0 < length program.now.nodes }
    ensures { IfOk result (λ size. (n : ℕ) × HasSize program.now.nodes node.0 n × (size ≡ kept n)) }
{
    let nodes = program.nodes.as_slice();
    let graph = CallGraph::new(alloc, nodes)?;
    let counts = counts_of(alloc, nodes)?;
    let sizes = settle(alloc, &counts, &graph)?;
    match known(&sizes, node.0 as usize) {
        Some(size) => Ok(size),
        None => unreachable!(),
    }
}
