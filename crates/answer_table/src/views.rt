//! What a path leads to.
ghost use Rattle.std.specs.Prelude.{◌≡◌, IfSome};
ghost use Rattle.std.specs.Option.{option_copied, option_map};
ghost use Rattle.hept_ast.specs.Scopes.{Clock, Scope, Written, block_of, text_of};
ghost use Rattle.hept_ast.specs.Settings.{written_node};
ghost use Rattle.answer_table.specs.Parts.{inner_of, root_of};
ghost use Rattle.answer_table.specs.Things.{At, In, Shows, Thing, part, setting_of, thing_at};

use crate::paths::{
    Step, View, body_at, branch_at, called, every_at, left_at, on_at, operand, right_at, state_at,
    strong_at, weak_at,
};
use hept_ast::{Accepted, Block, Expr, Name, Node};
use sqlite_items::at;

/// The node of a name, with its position.
fn node_named<'a>(nodes: &'a [Node], name: &Name) -> Option<(usize, &'a Node)>
    ensures { option_map (λ found. Written found.0 found.1.now) result ≡ written_node nodes.now 0 name.now }
{
    for (number, node) in nodes.iter().enumerate() {
        if name.bytes() == node.name.bytes() {
            return Some((number, node));
        }
    }
    None
}

/// The block that a step leads to from a block.
fn inner(block: &Block, step: Step) -> Option<&Block>
    ensures { option_copied result ≡ inner_of block.now step }
{
    match step {
        Step::Branch { equation, branch } => match branch_at(block, equation, branch) {
            Some(branch) => Some(&branch.block),
            None => None,
        },
        Step::Body { equation } => body_at(block, equation),
        Step::State { equation, state } => match state_at(block, equation, state) {
            Some(state) => Some(&state.block),
            None => None,
        },
        _ => None,
    }
}

/// The expression that a step leads to from a block.
fn root(block: &Block, step: Step) -> Option<&Expr>
    ensures { option_copied result ≡ root_of block.now step }
{
    match step {
        Step::Right { equation, name } => match left_at(block, equation, name) {
            Some(_) => right_at(block, equation),
            None => None,
        },
        Step::On { equation } => on_at(block, equation),
        Step::Every { equation } => every_at(block, equation),
        Step::Strong {
            equation,
            state,
            escape,
        } => match strong_at(block, equation, state, escape) {
            Some(escape) => Some(&escape.condition),
            None => None,
        },
        Step::Weak {
            equation,
            state,
            escape,
        } => match weak_at(block, equation, state, escape) {
            Some(escape) => Some(&escape.condition),
            None => None,
        },
        _ => None,
    }
}

/// What a step leads to from a scope.
#[tactic(auto, using(crate::proofs::Shown::inner_shows, crate::proofs::Shown::root_shows))]
fn into_scope<'a>(
    accepted: &'a Accepted,
    number: usize,
    node: &'a Node,
    block: &'a Block,
    step: Step,
) -> Option<View<'a>>
    ensures { (s : Scope) → text_of s ≡ Written number node.now → block_of s ≡ block.now → IfSome result (Shows (part (setting_of accepted.now) (In s) step)) }
{
    match inner(block, step) {
        Some(block) => Some(View::Scope {
            number,
            node,
            block,
        }),
        None => match root(block, step) {
            Some(expr) => Some(View::Expression { number, node, expr }),
            None => None,
        },
    }
}

/// The body of the node that an expression calls.
#[tactic(auto, using(crate::proofs::Shown::callee_shows))]
fn callee<'a>(accepted: &'a Accepted, expr: &'a Expr) -> Option<View<'a>>
    ensures { (clock : Clock) (s : Scope) → IfSome result (Shows (part (setting_of accepted.now) (At expr.now clock s) Step.Callee)) }
{
    let Some(name) = called(expr) else {
        return None;
    };
    match node_named(accepted.program().nodes.as_slice(), name) {
        Some((number, node)) => Some(View::Scope {
            number,
            node,
            block: &node.block,
        }),
        None => None,
    }
}

/// What a step leads to from an expression.
#[tactic(auto, using(crate::proofs::Shown::operand_shows))]
fn into_expression<'a>(
    accepted: &'a Accepted,
    number: usize,
    node: &'a Node,
    expr: &'a Expr,
    step: Step,
) -> Option<View<'a>>
    ensures { (clock : Clock) (s : Scope) → text_of s ≡ Written number node.now → IfSome result (Shows (part (setting_of accepted.now) (At expr.now clock s) step)) }
{
    match step {
        Step::Operand { operand: position } => match operand(expr, position) {
            Some(expr) => Some(View::Expression { number, node, expr }),
            None => None,
        },
        Step::Callee => callee(accepted, expr),
        _ => None,
    }
}

/// What a step leads to.
fn into<'a>(accepted: &'a Accepted, from: View<'a>, step: Step) -> Option<View<'a>>
    ensures { (thing : Thing) → Shows thing from.entry → IfSome result (Shows (part (setting_of accepted.now) thing step)) }
{
    match from {
        View::Scope {
            number,
            node,
            block,
        } => into_scope(accepted, number, node, block, step),
        View::Expression { number, node, expr } => {
            into_expression(accepted, number, node, expr, step)
        }
    }
}

/// What a path leads to from the body of a node.
#[tactic(auto, using(crate::proofs::Shown::view_goes))]
pub fn view<'a>(accepted: &'a Accepted, top: usize, path: &[Step]) -> Option<View<'a>>
    ensures { IfSome result (Shows (thing_at accepted.now top path.now)) }
{
    match path.split_last() {
        None => match at(accepted.program().nodes.as_slice(), top) {
            Some(node) => Some(View::Scope {
                number: top,
                node,
                block: &node.block,
            }),
            None => None,
        },
        Some((last, before)) => match view(accepted, top, before) {
            Some(from) => into(accepted, from, *last),
            None => None,
        },
    }
}
