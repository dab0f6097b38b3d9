//! Limits of counts and of names.
ghost use Rattle.std.specs.Prelude.{◌≡◌, OnOk, map};
ghost use Rattle.std.specs.List.{flat_map};
ghost use Rattle.hept_ast.specs.Limits.{earlier_of, earliest, limits, name_limit, node_limits, over, queue_limit, state_limits, type_limits};
ghost use Rattle.hept_ast.specs.Parts.{expressions, parts, state_case, variables};
ghost use Rattle.node_text.specs.Pieces.{piece_of};
ghost use Rattle.text_limits.specs.NodeLimits.{automaton_limits, variable_limits};

use crate::queues::note_queues;
use earliest_fault::{Found, Kind};
use hept_ast::{Decl, Memory, Name, Node, Place, Program, State, TypeDec};
use node_text::{Piece, node_declarations, node_expressions, push_equations};
use std::alloc::Global;

/// Notes the first variable too many.
fn note_over(found: &mut Found, limit: usize, listed: &[&Decl])
    ensures { found.new ≡ earlier_of found.old (earliest (over limit (λ d. d.place.0) (map (λ r. r.now) listed.now))) }
{
    if let Some(decl) = listed.get(limit) {
        let kept = listed.len();
        found.note(decl.place, Kind::Limit { kept, limit });
    }
}

fn note_over_decls(found: &mut Found, limit: usize, decls: &[Decl])
    ensures { found.new ≡ earlier_of found.old (earliest (over limit (λ d. d.place.0) decls.now)) }
{
    if let Some(decl) = decls.get(limit) {
        let kept = decls.len();
        found.note(decl.place, Kind::Limit { kept, limit });
    }
}

fn note_over_types(found: &mut Found, limit: usize, types: &[TypeDec])
    ensures { found.new ≡ earlier_of found.old (earliest (over limit (λ t. t.place.0) types.now)) }
{
    if let Some(declared) = types.get(limit) {
        let kept = types.len();
        found.note(declared.place, Kind::Limit { kept, limit });
    }
}

fn note_over_nodes(found: &mut Found, limit: usize, nodes: &[Node])
    ensures { found.new ≡ earlier_of found.old (earliest (over limit (λ n. n.place.0) nodes.now)) }
{
    if let Some(node) = nodes.get(limit) {
        let kept = nodes.len();
        found.note(node.place, Kind::Limit { kept, limit });
    }
}

fn note_over_names(found: &mut Found, limit: usize, place: Place, names: &[Name])
    ensures { found.new ≡ earlier_of found.old (earliest (over limit (λ c. place.0) names.now)) }
{
    if let Some(_) = names.get(limit) {
        let kept = names.len();
        found.note(place, Kind::Limit { kept, limit });
    }
}

fn note_over_states(found: &mut Found, limit: usize, states: &[State])
    ensures { found.new ≡ earlier_of found.old (earliest (over limit (λ c. c.place) (map state_case states.now))) }
{
    if let Some(state) = states.get(limit) {
        let kept = states.len();
        found.note(state.place, Kind::Limit { kept, limit });
    }
}

/// Notes a name of more than 255 bytes.
fn note_long(found: &mut Found, place: Place, name: &Name)
    ensures { found.new ≡ earlier_of found.old (earliest (name_limit place.0 name.now)) }
{
    let kept = name.bytes().len();
    let limit = 255;
    found.note_if(place, Kind::Limit { kept, limit }, limit < kept);
}

#[tactic(auto, using(hept_ast::proofs::Earliest::earliest_of))]
fn note_all_long(found: &mut Found, listed: &[&Decl])
    ensures { found.new ≡ earlier_of found.old (earliest (flat_map (λ d. name_limit d.place.0 d.name) (map (λ r. r.now) listed.now))) }
{
    for decl in listed {
        note_long(found, decl.place, &decl.name);
    }
}

#[tactic(auto, using(hept_ast::proofs::Earliest::earliest_of))]
fn note_long_names(found: &mut Found, place: Place, names: &[Name])
    ensures { found.new ≡ earlier_of found.old (earliest (flat_map (name_limit place.0) names.now)) }
{
    for name in names {
        note_long(found, place, name);
    }
}

#[tactic(auto, using(hept_ast::proofs::Earliest::earliest_of))]
fn note_long_states(found: &mut Found, states: &[State])
    ensures { found.new ≡ earlier_of found.old (earliest (flat_map (λ c. name_limit c.place c.label) (map state_case states.now))) }
{
    for state in states {
        note_long(found, state.place, &state.name);
    }
}

/// Notes what passes the limits of a type declaration.
#[tactic(auto, using(hept_ast::proofs::Earliest::earliest_of))]
fn note_type_limits(found: &mut Found, declared: &TypeDec)
    ensures { found.new ≡ earlier_of found.old (earliest (type_limits declared.now)) }
{
    note_long(found, declared.place, &declared.name);
    note_over_names(found, 256, declared.place, declared.constructors.as_slice());
    note_long_names(found, declared.place, declared.constructors.as_slice());
}

#[tactic(auto, using(hept_ast::proofs::Earliest::earliest_of))]
fn note_state_limits(found: &mut Found, states: &[State])
    ensures { found.new ≡ earlier_of found.old (earliest (automaton_limits (map state_case states.now))) }
{
    note_over_states(found, 256, states);
    note_long_states(found, states);
}

#[tactic(auto, using(hept_ast::proofs::Earliest::earliest_of))]
fn note_piece_limits(found: &mut Found, piece: Piece<'_>)
    ensures { found.new ≡ earlier_of found.old (earliest (state_limits (piece_of piece.entry))) }
{
    match piece {
        Piece::Block(_, _) => {}
        Piece::Plain(_, _, _) => {}
        Piece::Switch(_, _, _) => {}
        Piece::Reset(_, _, _) => {}
        Piece::Automaton(_, states) => note_state_limits(found, states),
        Piece::Transition(_, _, _) => {}
    }
}

#[tactic(auto, using(hept_ast::proofs::Earliest::earliest_of))]
fn note_all_pieces(found: &mut Found, pieces: &[Piece<'_>])
    ensures { found.new ≡ earlier_of found.old (earliest (flat_map state_limits (map piece_of pieces.now))) }
{
    for piece in pieces {
        note_piece_limits(found, *piece);
    }
}

/// Notes what passes the limits of a node's variables.
#[tactic(auto, using(hept_ast::proofs::Earliest::earliest_of))]
fn note_variable_limits(alloc: Global, found: &mut Found, node: &Node) -> Result<(), Memory>
    ensures { OnOk result (found.new ≡ earlier_of found.old (earliest (variable_limits (variables node.now)))) }
{
    let listed = node_declarations(alloc, node)?;
    note_over(found, 4096, &listed);
    note_all_long(found, &listed);
    Ok(())
}

fn note_node_queues(alloc: Global, found: &mut Found, node: &Node) -> Result<(), Memory>
    ensures { OnOk result (found.new ≡ earlier_of found.old (earliest (flat_map (λ e. queue_limit e.place.0 e.form) (expressions node.now)))) }
{
    let exprs = node_expressions(alloc, node)?;
    note_queues(found, &exprs);
    Ok(())
}

#[tactic(auto, using(hept_ast::proofs::WholeNode::all_state_limits))]
fn note_automata(alloc: Global, found: &mut Found, node: &Node) -> Result<(), Memory>
    ensures { OnOk result (found.new ≡ earlier_of found.old (earliest (flat_map (λ q. state_limits q.part) (parts node.now)))) }
{
    let mut pieces = Vec::new(alloc);
    push_equations(&mut pieces, node.block.body.as_slice())?;
    note_all_pieces(found, &pieces);
    Ok(())
}

/// Notes what passes the limits of a node.
#[tactic(auto, using(hept_ast::proofs::Earliest::earliest_of))]
fn note_node_limits(alloc: Global, found: &mut Found, node: &Node) -> Result<(), Memory>
    ensures { OnOk result (found.new ≡ earlier_of found.old (earliest (node_limits node.now))) }
{
    note_long(found, node.place, &node.name);
    note_over_decls(found, 64, node.inputs.as_slice());
    note_over_decls(found, 64, node.outputs.as_slice());
    note_variable_limits(alloc, found, node)?;
    note_node_queues(alloc, found, node)?;
    note_automata(alloc, found, node)?;
    Ok(())
}

#[tactic(auto, using(hept_ast::proofs::Earliest::earliest_of))]
fn note_all_type_limits(found: &mut Found, types: &[TypeDec])
    ensures { found.new ≡ earlier_of found.old (earliest (flat_map type_limits types.now)) }
{
    for declared in types {
        note_type_limits(found, declared);
    }
}

#[tactic(auto, using(hept_ast::proofs::Earliest::earliest_of))]
fn note_all_node_limits(alloc: Global, found: &mut Found, nodes: &[Node]) -> Result<(), Memory>
    ensures { OnOk result (found.new ≡ earlier_of found.old (earliest (flat_map node_limits nodes.now))) }
{
    for node in nodes {
        note_node_limits(alloc, found, node)?;
    }
    Ok(())
}

/// Notes what passes the limits of a program.
#[tactic(auto, using(hept_ast::proofs::Earliest::earliest_of))]
pub fn note_limits(alloc: Global, found: &mut Found, program: &Program) -> Result<(), Memory>
    ensures { OnOk result (found.new ≡ earlier_of found.old (earliest (limits program.now))) }
{
    let types = program.types.as_slice();
    let nodes = program.nodes.as_slice();
    note_over_types(found, 256, types);
    note_all_type_limits(found, types);
    note_over_nodes(found, 1024, nodes);
    note_all_node_limits(alloc, found, nodes)
}
