//! The variables of a node as numbers, and what they read as a graph.
ghost use Rattle.std.specs.Prelude.{◌≡◌, ◌++◌, ◌∷◌, ◌<◌, IfOk, OnOk, if◌then◌else◌, All, [], length, map};
ghost use Rattle.hept_ast.specs.ClockMaps.{clock_in};
ghost use Rattle.hept_ast.specs.Texts.{is_in, place_in};
ghost use Rattle.causality.specs.Flows.{flow_of, node_flows};
ghost use Rattle.causality.specs.Vertices.{clock_reads, flow_reads, graph_by, lefts, name_of, number_in, numbers, vertices};

use crate::flows::Flow;
use hept_ast::{Clocked, Memory, Name, Node, NodeId, copy_name};
use node_text::{is_among, is_same, node_variables, push_listed, push_name, push_names};
use sqlite_items::Items;
use std::alloc::Global;

fn push_lefts<'a>(names: &mut Vec<&'a Name>, flows: &[Flow<'a>]) -> Result<(), Memory>
    ensures { OnOk result (map (λ r. r.now) names.new.items ≡ map (λ r. r.now) names.old.items ++ lefts (map flow_of flows.now)) }
{
    for flow in flows {
        push_names(names, flow.left)?;
    }
    Ok(())
}

/// The variables of a node, and what its equations define.
pub(crate) fn vertices_of<'a>(
    alloc: Global,
    node: &'a Node,
    flows: &[Flow<'a>],
) -> Result<Vec<&'a Name>, Memory>
    requires { map flow_of flows.now ≡ node_flows node.now }
    ensures { IfOk result (λ v. map (λ r. r.now) v.items ≡ vertices node.now) }
{
    let mut names = node_variables(alloc, node)?;
    push_lefts(&mut names, flows)?;
    Ok(names)
}

/// The position of a name among some, or their number.
fn number_of(vertices: &[&Name], x: &Name) -> usize
    ensures { result ≡ place_in x.now (map (λ r. r.now) vertices.now) }
{
    for (index, vertex) in vertices.iter().enumerate() {
        if is_same(x, vertex) {
            return index;
        }
    }
    vertices.len()
}

fn push_number(row: &mut Items<usize>, vertices: &[&Name], x: &Name) -> Result<(), Memory>
    ensures { OnOk result (row.new ≡ row.old ++ number_in (map (λ r. r.now) vertices.now) x.now) }
{
    let number = number_of(vertices, x);
    if number < vertices.len() {
        row.push(number)?;
    }
    Ok(())
}

fn push_numbers(row: &mut Items<usize>, vertices: &[&Name], names: &[&Name]) -> Result<(), Memory>
    ensures { OnOk result (row.new ≡ row.old ++ numbers (map (λ r. r.now) vertices.now) (map (λ r. r.now) names.now)) }
{
    for x in names {
        push_number(row, vertices, x)?;
    }
    Ok(())
}

/// Appends what an equation reads, where it defines a variable.
fn push_if_defined<'a>(names: &mut Vec<&'a Name>, flow: &Flow<'a>, x: &Name) -> Result<(), Memory>
    ensures { OnOk result (map (λ r. r.now) names.new.items ≡ map (λ r. r.now) names.old.items ++ (if is_in x.now (flow_of flow.now).left then (flow_of flow.now).reads else [])) }
{
    if is_among(x, flow.left) {
        push_listed(names, flow.reads.as_slice())
    } else {
        Ok(())
    }
}

fn push_flow_reads<'a>(
    names: &mut Vec<&'a Name>,
    flows: &[Flow<'a>],
    x: &Name,
) -> Result<(), Memory>
    ensures { OnOk result (map (λ r. r.now) names.new.items ≡ map (λ r. r.now) names.old.items ++ flow_reads (map flow_of flows.now) x.now) }
{
    for flow in flows {
        push_if_defined(names, flow, x)?;
    }
    Ok(())
}

/// Appends the variables of a variable's clock.
fn push_clock<'a>(
    names: &mut Vec<&'a Name>,
    clocked: &'a Clocked,
    node: NodeId,
    x: &Name,
) -> Result<(), Memory>
    ensures { OnOk result (map (λ r. r.now) names.new.items ≡ map (λ r. r.now) names.old.items ++ clock_reads (clock_in clocked.now.clocks node.0) x.now) }
{
    match clocked.clock_of(node, x) {
        Some(path) => {
            for step in path.steps.as_slice() {
                push_name(names, &step.name)?;
            }
            Ok(())
        }
        None => Ok(()),
    }
}

/// The numbers of what a variable reads.
fn row_of<'a>(
    alloc: Global,
    vertices: &[&'a Name],
    flows: &[Flow<'a>],
    clocked: &'a Clocked,
    node: NodeId,
    x: &Name,
) -> Result<Items<usize>, Memory>
    ensures { IfOk result (λ row. row ≡ numbers (map (λ r. r.now) vertices.now) (flow_reads (map flow_of flows.now) x.now ++ clock_reads (clock_in clocked.now.clocks node.0) x.now)) }
{
    let mut names = Vec::new(alloc);
    push_flow_reads(&mut names, flows, x)?;
    push_clock(&mut names, clocked, node, x)?;
    let mut row = Items::new(alloc);
    push_numbers(&mut row, vertices, names.as_slice())?;
    Ok(row)
}

fn push_row(graph: &mut Vec<Items<usize>>, row: Items<usize>) -> Result<(), Memory>
    ensures { OnOk result (graph.new.items ≡ graph.old.items ++ row ∷ []) }
{
    match graph.push(row) {
        Ok(()) => Ok(()),
        Err(_) => Err(Memory),
    }
}

/// For each variable the numbers of those that it reads.
pub(crate) fn graph_of<'a>(
    alloc: Global,
    vertices: &[&'a Name],
    flows: &[Flow<'a>],
    clocked: &'a Clocked,
    node: NodeId,
) -> Result<Vec<Items<usize>>, Memory>
    ensures { IfOk result (λ g. g.items ≡ graph_by (map (λ r. r.now) vertices.now) (map flow_of flows.now) (clock_in clocked.now.clocks node.0)) }
{
    let mut graph = Vec::new(alloc);
    for x in vertices {
        let row = row_of(alloc, vertices, flows, clocked, node, x)?;
        push_row(&mut graph, row)?;
    }
    Ok(graph)
}

fn name_at(alloc: Global, vertices: &[&Name], number: usize) -> Result<Name, Memory>
    requires { number < length vertices.now }
    ensures { IfOk result (λ x. x ≡ name_of (map (λ r. r.now) vertices.now) number) }
{
    copy_name(alloc, vertices[number])
}

/// The names of numbers.
pub(crate) fn names_of(
    alloc: Global,
    vertices: &[&Name],
    numbers: &[usize],
) -> Result<Items<Name>, Memory>
    requires { All (λ k. k < length vertices.now) numbers.now }
    ensures { IfOk result (λ names. names ≡ map (name_of (map (λ r. r.now) vertices.now)) numbers.now) }
{
    let mut names = Items::new(alloc);
    for number in numbers {
        let name = name_at(alloc, vertices, *number)?;
        names.push(name)?;
    }
    Ok(names)
}
