//! The plain equations of a node, with what stands around them.
ghost use Rattle.std.specs.Prelude.{◌≡◌, ◌++◌, ◌∷◌, [], IfOk, OnOk, map};
ghost use Rattle.std.specs.List.{flat_map};
ghost use Rattle.hept_ast.specs.Causal.{reads};
ghost use Rattle.causality.specs.Flows.{flow_of, flows_of, flows_of_all, node_flows, strong_reads};

use crate::reads::push_reads;
use hept_ast::{Branch, Equation, Escape, Expr, Memory, Name, Node, State};
use node_text::push_listed;
use std::alloc::Global;

/// A plain equation: what it defines, by which expression, and what it reads at its own instant, with
/// what the blocks around it read.
#[derive(Drop)]
pub(crate) struct Flow<'a> {
    pub left: &'a [Name],
    pub right: &'a Expr,
    pub reads: Vec<&'a Name>,
}

fn push_flow<'a>(flows: &mut Vec<Flow<'a>>, flow: Flow<'a>) -> Result<(), Memory>
    ensures { OnOk result (map flow_of flows.new.items ≡ map flow_of flows.old.items ++ flow_of flow.entry ∷ []) }
{
    match flows.push(flow) {
        Ok(()) => Ok(()),
        Err(_) => Err(Memory),
    }
}

/// What an expression reads, before what is read around it.
fn reads_before<'a>(
    alloc: Global,
    e: &'a Expr,
    around: &[&'a Name],
) -> Result<Vec<&'a Name>, Memory>
    ensures { IfOk result (λ v. map (λ r. r.now) v.items ≡ reads e.now.form ++ map (λ r. r.now) around.now) }
{
    let mut names = Vec::new(alloc);
    push_reads(&mut names, e)?;
    push_listed(&mut names, around)?;
    Ok(names)
}

fn push_strong<'a>(names: &mut Vec<&'a Name>, escapes: &'a [Escape]) -> Result<(), Memory>
    ensures { OnOk result (map (λ r. r.now) names.new.items ≡ map (λ r. r.now) names.old.items ++ flat_map (λ e. reads e.condition.form) escapes.now) }
{
    for escape in escapes {
        push_reads(names, &escape.condition)?;
    }
    Ok(())
}

fn push_states_strong<'a>(names: &mut Vec<&'a Name>, states: &'a [State]) -> Result<(), Memory>
    ensures { OnOk result (map (λ r. r.now) names.new.items ≡ map (λ r. r.now) names.old.items ++ flat_map (λ q. flat_map (λ e. reads e.condition.form) q.strong) states.now) }
{
    for state in states {
        push_strong(names, state.strong.as_slice())?;
    }
    Ok(())
}

/// What the strong conditions of an automaton read, before what is read around it.
#[tactic(auto, using(crate::proofs::FlowsOf::strong_of))]
fn strong_before<'a>(
    alloc: Global,
    states: &'a [State],
    around: &[&'a Name],
) -> Result<Vec<&'a Name>, Memory>
    ensures { IfOk result (λ v. map (λ r. r.now) v.items ≡ strong_reads states.now ++ map (λ r. r.now) around.now) }
{
    let mut names = Vec::new(alloc);
    push_states_strong(&mut names, states)?;
    push_listed(&mut names, around)?;
    Ok(names)
}

/// Appends the plain equations inside an equation, where the blocks around it read these.
#[cycle(flows)]
#[tactic(auto, using(crate::proofs::FlowsOf::flows_by_form))]
fn push_equation<'a>(
    alloc: Global,
    flows: &mut Vec<Flow<'a>>,
    equation: &'a Equation,
    around: &[&'a Name],
) -> Result<(), Memory>
    ensures { OnOk result (map flow_of flows.new.items ≡ map flow_of flows.old.items ++ flows_of (map (λ r. r.now) around.now) equation.now) }
{
    match equation {
        Equation::Define { left, right, .. } => {
            let reads = reads_before(alloc, right, around)?;
            push_flow(
                flows,
                Flow {
                    left: left.as_slice(),
                    right,
                    reads,
                },
            )
        }
        Equation::Switch { on, branches, .. } => {
            let inner = reads_before(alloc, on, around)?;
            push_branches(alloc, flows, branches.as_slice(), inner.as_slice())
        }
        Equation::Reset { block, every, .. } => {
            let inner = reads_before(alloc, every, around)?;
            push_body(alloc, flows, block.get().body.as_slice(), inner.as_slice())
        }
        Equation::Automaton { states, .. } => {
            let inner = strong_before(alloc, states.as_slice(), around)?;
            push_states(alloc, flows, states.as_slice(), inner.as_slice())
        }
    }
}

#[cycle(flows)]
#[tactic(auto, using(crate::proofs::FlowsOf::flows_by_form))]
fn push_body<'a>(
    alloc: Global,
    flows: &mut Vec<Flow<'a>>,
    body: &'a [Equation],
    around: &[&'a Name],
) -> Result<(), Memory>
    ensures { OnOk result (map flow_of flows.new.items ≡ map flow_of flows.old.items ++ flows_of_all (map (λ r. r.now) around.now) body.now) }
{
    for equation in body {
        push_equation(alloc, flows, equation, around)?;
    }
    Ok(())
}

#[cycle(flows)]
#[tactic(auto, using(crate::proofs::FlowsOf::flows_by_form))]
fn push_branches<'a>(
    alloc: Global,
    flows: &mut Vec<Flow<'a>>,
    branches: &'a [Branch],
    around: &[&'a Name],
) -> Result<(), Memory>
    ensures { OnOk result (map flow_of flows.new.items ≡ map flow_of flows.old.items ++ flat_map (λ b. flows_of_all (map (λ r. r.now) around.now) b.block.body) branches.now) }
{
    for branch in branches {
        push_body(alloc, flows, branch.block.body.as_slice(), around)?;
    }
    Ok(())
}

#[cycle(flows)]
#[tactic(auto, using(crate::proofs::FlowsOf::flows_by_form))]
fn push_states<'a>(
    alloc: Global,
    flows: &mut Vec<Flow<'a>>,
    states: &'a [State],
    around: &[&'a Name],
) -> Result<(), Memory>
    ensures { OnOk result (map flow_of flows.new.items ≡ map flow_of flows.old.items ++ flat_map (λ q. flows_of_all (map (λ r. r.now) around.now) q.block.body) states.now) }
{
    for state in states {
        push_body(alloc, flows, state.block.body.as_slice(), around)?;
    }
    Ok(())
}

/// The plain equations of a node, in the order of the text.
pub(crate) fn flows_of_node<'a>(alloc: Global, node: &'a Node) -> Result<Vec<Flow<'a>>, Memory>
    ensures { IfOk result (λ v. map flow_of v.items ≡ node_flows node.now) }
{
    let mut flows = Vec::new(alloc);
    push_body(alloc, &mut flows, node.block.body.as_slice(), &[])?;
    Ok(flows)
}
