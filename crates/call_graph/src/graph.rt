//! Which nodes lead to which by calls.
ghost use Rattle.std.specs.Prelude.{◌≡◌, ◌++◌, ◌∷◌, [], ◌↔◌, ◌||◌, IfOk, IsTrue, OnOk, length, map};
ghost use Rattle.std.specs.List.{flat_map, list_any};
ghost use Rattle.std.specs.Option.{option_copied};
ghost use Rattle.hept_ast.specs.Faults.{async_nodes, called, called_async, calls_lead, calls_of, node_named};
ghost use Rattle.hept_ast.specs.Parts.{expressions};
ghost use Rattle.hept_ast.specs.Texts.{is_in, same};
ghost use Rattle.call_graph.specs.CallGraph.{leading};
ghost use Rattle.call_graph.specs.Graph.{IsGraphOf, as_list, edges, is_marked, marks_after, next_marks, node_place, places_of, row_in};

use hept_ast::{Expr, Form, Memory, Name, Node};
use node_text::{is_listed, is_same, node_expressions, push_name};
use std::alloc::Global;

/// A node's name, and the positions of the nodes that it calls.
#[derive(Drop)]
pub struct Row<'a> {
    pub name: &'a Name,
    pub callees: Vec<usize>,
}

/// The calls of some nodes.
#[derive(Drop)]
pub struct CallGraph<'a> {
    pub rows: Vec<Row<'a>>,
    /// The nodes that async calls name, and their positions.
    pub async_names: Vec<&'a Name>,
    pub async_places: Vec<usize>,
}

/// How calls lead to a node.
#[derive(Drop)]
pub struct Leading {
    /// Of each node, whether calls lead from it.
    pub leads: Vec<bool>,
    /// Whether an async call names it.
    pub is_async: bool,
    /// Whether an async call names it or a node from which calls lead to it.
    pub is_nested: bool,
}

/// The position of the node of a name.
fn node_place(nodes: &[Node], name: &Name) -> Option<usize>
    ensures { result ≡ node_place name.now nodes.now }
{
    for (index, node) in nodes.iter().enumerate() {
        if is_same(name, &node.name) {
            return Some(index);
        }
    }
    None
}

fn push_place(places: &mut Vec<usize>, nodes: &[Node], name: &Name) -> Result<(), Memory>
    ensures { OnOk result (places.new.items ≡ places.old.items ++ as_list (node_place name.now nodes.now)) }
{
    match node_place(nodes, name) {
        Some(place) => match places.push(place) {
            Ok(()) => Ok(()),
            Err(_) => Err(Memory),
        },
        None => Ok(()),
    }
}

fn push_places(places: &mut Vec<usize>, nodes: &[Node], names: &[&Name]) -> Result<(), Memory>
    ensures { OnOk result (places.new.items ≡ places.old.items ++ places_of nodes.now (map (λ r. r.now) names.now)) }
{
    for name in names {
        push_place(places, nodes, name)?;
    }
    Ok(())
}

/// The node that an expression calls.
#[tactic(auto, using(hept_ast::proofs::CalledForms::calls_of_forms))]
fn called(form: &Form) -> Option<&Name>
    ensures { as_list (option_copied result) ≡ called form.now }
{
    match form {
        Form::Const(_) => None,
        Form::Var(_) => None,
        Form::Last(_) => None,
        Form::Unary(_, _) => None,
        Form::Binary(_, _, _) => None,
        Form::If(_, _, _) => None,
        Form::Fby(_, _) => None,
        Form::Pre(_) => None,
        Form::Arrow(_, _) => None,
        Form::When(_, _, _) => None,
        Form::Merge(_, _) => None,
        Form::Call(name, _) => Some(name),
        Form::AsyncCall(_, name, _) => Some(name),
        Form::AsyncConst(_) => None,
        Form::Get(_) => None,
    }
}

/// The node that an expression calls by `async`.
#[tactic(auto, using(hept_ast::proofs::CalledForms::async_calls_of_forms))]
fn called_async(form: &Form) -> Option<&Name>
    ensures { as_list (option_copied result) ≡ called_async form.now }
{
    match form {
        Form::Const(_) => None,
        Form::Var(_) => None,
        Form::Last(_) => None,
        Form::Unary(_, _) => None,
        Form::Binary(_, _, _) => None,
        Form::If(_, _, _) => None,
        Form::Fby(_, _) => None,
        Form::Pre(_) => None,
        Form::Arrow(_, _) => None,
        Form::When(_, _, _) => None,
        Form::Merge(_, _) => None,
        Form::Call(_, _) => None,
        Form::AsyncCall(_, name, _) => Some(name),
        Form::AsyncConst(_) => None,
        Form::Get(_) => None,
    }
}

fn push_callee(places: &mut Vec<usize>, nodes: &[Node], e: &Expr) -> Result<(), Memory>
    ensures { OnOk result (places.new.items ≡ places.old.items ++ places_of nodes.now (called e.now.form)) }
{
    match called(&e.form) {
        Some(name) => push_place(places, nodes, name),
        None => Ok(()),
    }
}

fn push_callees(places: &mut Vec<usize>, nodes: &[Node], exprs: &[&Expr]) -> Result<(), Memory>
    ensures { OnOk result (places.new.items ≡ places.old.items ++ places_of nodes.now (flat_map (λ e. called e.form) (map (λ r. r.now) exprs.now))) }
{
    for e in exprs {
        push_callee(places, nodes, e)?;
    }
    Ok(())
}

fn named<'a>(nodes: &'a [Node], name: &Name) -> Option<&'a Node>
    ensures { option_copied result ≡ node_named nodes.now name.now }
{
    nodes.iter().find(|node| is_same(name, &node.name))
}

/// The positions of the nodes that the node of a name calls.
fn callees(alloc: Global, nodes: &[Node], name: &Name) -> Result<Vec<usize>, Memory>
    ensures { IfOk result (λ v. v.items ≡ places_of nodes.now (calls_of (node_named nodes.now name.now))) }
{
    let mut places = Vec::new(alloc);
    if let Some(node) = named(nodes, name) {
        let exprs = node_expressions(alloc, node)?;
        push_callees(&mut places, nodes, &exprs)?;
    }
    Ok(places)
}

fn push_row<'a>(rows: &mut Vec<Row<'a>>, row: Row<'a>) -> Result<(), Memory>
    ensures { OnOk result (map row_in rows.new.items ≡ map row_in rows.old.items ++ row_in row.entry ∷ []) }
{
    match rows.push(row) {
        Ok(()) => Ok(()),
        Err(_) => Err(Memory),
    }
}

fn rows_of(alloc: Global, nodes: &[Node]) -> Result<Vec<Row<'_>>, Memory>
    ensures { IfOk result (λ v. map row_in v.items ≡ edges nodes.now) }
{
    let mut rows = Vec::new(alloc);
    for node in nodes {
        let name = &node.name;
        let callees = callees(alloc, nodes, name)?;
        push_row(&mut rows, Row { name, callees })?;
    }
    Ok(rows)
}

fn push_async_name<'a>(names: &mut Vec<&'a Name>, e: &'a Expr) -> Result<(), Memory>
    ensures { OnOk result (map (λ r. r.now) names.new.items ≡ map (λ r. r.now) names.old.items ++ called_async e.now.form) }
{
    match called_async(&e.form) {
        Some(name) => push_name(names, name),
        None => Ok(()),
    }
}

/// Appends the nodes that async calls among these expressions name.
fn push_async_names<'a>(names: &mut Vec<&'a Name>, exprs: &[&'a Expr]) -> Result<(), Memory>
    ensures { OnOk result (map (λ r. r.now) names.new.items ≡ map (λ r. r.now) names.old.items ++ flat_map (λ e. called_async e.form) (map (λ r. r.now) exprs.now)) }
{
    for e in exprs {
        push_async_name(names, e)?;
    }
    Ok(())
}

fn push_async_of<'a>(alloc: Global, names: &mut Vec<&'a Name>, node: &'a Node) -> Result<(), Memory>
    ensures { OnOk result (map (λ r. r.now) names.new.items ≡ map (λ r. r.now) names.old.items ++ flat_map (λ e. called_async e.form) (expressions node.now)) }
{
    let exprs = node_expressions(alloc, node)?;
    push_async_names(names, &exprs)
}

fn async_names(alloc: Global, nodes: &[Node]) -> Result<Vec<&Name>, Memory>
    ensures { IfOk result (λ v. map (λ r. r.now) v.items ≡ async_nodes nodes.now) }
{
    let mut names = Vec::new(alloc);
    for node in nodes {
        push_async_of(alloc, &mut names, node)?;
    }
    Ok(names)
}

impl<'a> CallGraph<'a> {
    pub fn new(alloc: Global, nodes: &'a [Node]) -> Result<CallGraph<'a>, Memory>
        ensures { IfOk result (λ graph. IsGraphOf nodes.now graph) }
    {
        let rows = rows_of(alloc, nodes)?;
        let async_names = async_names(alloc, nodes)?;
        let mut async_places = Vec::new(alloc);
        push_places(&mut async_places, nodes, async_names.as_slice())?;
        Ok(CallGraph {
            rows,
            async_names,
            async_places,
        })
    }
}

fn is_marked(marks: &[bool], place: usize) -> bool
    ensures { result ≡ is_marked marks.now place }
{
    match marks.get(place) {
        Some(mark) => *mark,
        None => false,
    }
}

fn is_any_marked(marks: &[bool], places: &[usize]) -> bool
    ensures { result ≡ list_any (is_marked marks.now) places.now }
{
    places.iter().any(|place| is_marked(marks, *place))
}

fn push_mark(marks: &mut Vec<bool>, mark: bool) -> Result<(), Memory>
    ensures { OnOk result (marks.new.items ≡ marks.old.items ++ mark ∷ []) }
{
    match marks.push(mark) {
        Ok(()) => Ok(()),
        Err(_) => Err(Memory),
    }
}

/// The nodes of a name.
fn first_marks(alloc: Global, rows: &[Row<'_>], to: &Name) -> Result<Vec<bool>, Memory>
    ensures { IfOk result (λ v. v.items ≡ map (λ r. same r.0 to.now) (map row_in rows.now)) }
{
    let mut marks = Vec::new(alloc);
    for row in rows {
        let mark = is_same(row.name, to);
        push_mark(&mut marks, mark)?;
    }
    Ok(marks)
}

/// The nodes of a name, and those that call a marked one.
fn next_marks(
    alloc: Global,
    rows: &[Row<'_>],
    to: &Name,
    marks: &[bool],
) -> Result<Vec<bool>, Memory>
    ensures { IfOk result (λ v. v.items ≡ next_marks (map row_in rows.now) to.now marks.now) }
{
    let mut next = Vec::new(alloc);
    for row in rows {
        let mark = is_same(row.name, to) || is_any_marked(marks, row.callees.as_slice());
        push_mark(&mut next, mark)?;
    }
    Ok(next)
}

fn are_equal(marks: &[bool], others: &[bool]) -> bool
    ensures { IsTrue result ↔ (marks.now ≡ others.now) }
{
    marks == others
}

/// The nodes from which calls lead to those of a name. Once a round changes nothing, no later one does.
fn all_marks(alloc: Global, rows: &[Row<'_>], to: &Name) -> Result<Vec<bool>, Memory>
    ensures { IfOk result (λ v. v.items ≡ marks_after (map row_in rows.now) to.now (length rows.now)) }
{
    let mut marks = first_marks(alloc, rows, to)?;
    for _round in 0..rows.len() {
        let next = next_marks(alloc, rows, to, marks.as_slice())?;
        if are_equal(marks.as_slice(), next.as_slice()) {
            return Ok(marks);
        }
        marks = next;
    }
    Ok(marks)
}

/// How calls lead to a node, one of those of the graph.
pub fn leading_to(
    alloc: Global,
    graph: &CallGraph<'_>,
    nodes: &[Node],
    node: &Node,
) -> Result<Leading, Memory>
    requires graph { IsGraphOf nodes.now graph.now }
    requires among { IsTrue (is_in node.now.name (map (λ n. n.name) nodes.now)) }
    ensures leads { IfOk result (λ l. l.leads.items ≡ leading nodes.now (length nodes.now) node.now.name) }
    ensures named { IfOk result (λ l. l.is_async ≡ is_in node.now.name (async_nodes nodes.now)) }
    ensures nested { IfOk result (λ l. l.is_nested ≡ list_any (λ f. calls_lead nodes.now f node.now.name) (async_nodes nodes.now)) }
{
    let leads = all_marks(alloc, graph.rows.as_slice(), &node.name)?;
    let is_async = is_listed(&node.name, graph.async_names.as_slice());
    let is_nested = is_any_marked(leads.as_slice(), graph.async_places.as_slice());
    Ok(Leading {
        leads,
        is_async,
        is_nested,
    })
}
