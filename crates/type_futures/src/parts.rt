//! What is wrong with each part of a node's text.
ghost use Rattle.std.specs.Prelude.{◌≡◌, OnOk, map, true};
ghost use Rattle.std.specs.Option.{option_map, option_map_or};
ghost use Rattle.hept_ast.specs.InnerParts.{state_names};
ghost use Rattle.hept_ast.specs.Limits.{earlier_of, earliest};
ghost use Rattle.hept_ast.specs.Parts as part;
ghost use Rattle.hept_ast.specs.Parts.{block_sets, branch_case, equation_case, state_case};
ghost use Rattle.hept_ast.specs.Types.{bool, same_types};
ghost use Rattle.type_futures.specs.Demands.{has_branches, only_of};
ghost use Rattle.declared_types.specs.Types.{type_in, types_in};
ghost use Rattle.type_futures.specs.Walk.{around_judging, faults_at};

use block_definitions::{
    note_block, note_branch_gaps, note_left_side, note_second_states, note_second_tags,
    note_state_gaps, note_target,
};
use declared_types::{PlainType, Type, Types, fit_names, has_tags, note_lacking, note_tags};
use earliest_fault::{Found, Kind, note_second_names};
use expression_types::{NodeScene, Scene, is_one, judge_expr};
use hept_ast::{Block, Branch, Decl, Equation, Escape, Expr, Memory, Name, Place, State};
use std::alloc::Global;

/// The one type that an expression gives.
fn only_type(types: Option<Types<'_>>) -> Option<Type<'_>>
    ensures { option_map type_in result ≡ only_of (option_map types_in types.entry) }
{
    match types {
        Some(types) => types.only(),
        None => None,
    }
}

/// Whether an expression has no type or one with tags.
fn has_branches(types: Option<Types<'_>>) -> bool
    ensures { result ≡ option_map_or has_branches (option_map types_in types.entry) true }
{
    match types {
        None => true,
        Some(types) => has_only_tags(types),
    }
}

fn has_only_tags(types: Types<'_>) -> bool
    ensures { result ≡ has_branches (types_in types.entry) }
{
    match types.only() {
        Some(held) => has_tags(held),
        None => false,
    }
}

/// Whether an expression has no type or is bool.
fn is_condition(types: Option<Types<'_>>) -> bool
    ensures { result ≡ option_map_or (same_types bool) (option_map types_in types.entry) true }
{
    match types {
        None => true,
        Some(types) => is_one(Type::Plain(PlainType::Bool), types),
    }
}

/// Notes what is wrong with a plain equation.
pub(crate) fn note_plain(
    alloc: Global,
    found: &mut Found,
    around: &NodeScene<'_>,
    seen: &[&Decl],
    place: Place,
    left: &[Name],
    right: &Expr,
) -> Result<(), Memory>
    ensures { OnOk result (found.new ≡ earlier_of found.old (earliest (faults_at (around_judging around.now) (map (λ r. r.now) seen.now) (part.Plain place.0 left.now right.now)))) }
{
    let scene = Scene {
        around: *around,
        seen,
        strong: false,
    };
    note_left_side(found, around.node.inputs.as_slice(), seen, place, left);
    note_second_names(alloc, found, place, left)?;
    let types = judge_expr(found, &scene, right);
    let fits = fit_names(seen, left, types);
    found.note_if(place, Kind::Mismatch, !fits);
    Ok(())
}

/// Notes what is wrong with a switch, without what is inside its branches.
pub(crate) fn note_switch(
    alloc: Global,
    found: &mut Found,
    around: &NodeScene<'_>,
    seen: &[&Decl],
    place: Place,
    on: &Expr,
    branches: &[Branch],
) -> Result<(), Memory>
    ensures { OnOk result (found.new ≡ earlier_of found.old (earliest (faults_at (around_judging around.now) (map (λ r. r.now) seen.now) (part.Switch place.0 on.now (map branch_case branches.now))))) }
{
    let scene = Scene {
        around: *around,
        seen,
        strong: false,
    };
    let types = judge_expr(found, &scene, on);
    let fits = has_branches(types);
    found.note_if(place, Kind::Mismatch, !fits);
    let held = only_type(types);
    note_tags(found, around.types, held, branches);
    note_second_tags(found, branches);
    note_lacking(found, around.types, place, held, branches);
    note_branch_gaps(alloc, found, seen, branches)
}

/// Notes what is wrong with the condition of a reset.
pub(crate) fn note_reset(
    found: &mut Found,
    around: &NodeScene<'_>,
    seen: &[&Decl],
    place: Place,
    every: &Expr,
    block: &Block,
)
    ensures { found.new ≡ earlier_of found.old (earliest (faults_at (around_judging around.now) (map (λ r. r.now) seen.now) (part.Reset place.0 every.now (block_sets block.now)))) }
{
    let scene = Scene {
        around: *around,
        seen,
        strong: false,
    };
    let types = judge_expr(found, &scene, every);
    let fits = is_condition(types);
    found.note_if(place, Kind::Mismatch, !fits);
}

/// Notes what is wrong with an automaton, without what is inside its states.
pub(crate) fn note_automaton(
    alloc: Global,
    found: &mut Found,
    around: &NodeScene<'_>,
    seen: &[&Decl],
    place: Place,
    states: &[State],
) -> Result<(), Memory>
    ensures { OnOk result (found.new ≡ earlier_of found.old (earliest (faults_at (around_judging around.now) (map (λ r. r.now) seen.now) (part.Automaton place.0 (map state_case states.now))))) }
{
    note_second_states(alloc, found, states)?;
    note_state_gaps(alloc, found, seen, states)
}

/// Notes what is wrong with a transition.
pub(crate) fn note_transition(
    found: &mut Found,
    around: &NodeScene<'_>,
    seen: &[&Decl],
    strong: bool,
    states: &[State],
    escape: &Escape,
)
    ensures { found.new ≡ earlier_of found.old (earliest (faults_at (around_judging around.now) (map (λ r. r.now) seen.now) (part.Transition strong (state_names states.now) escape.now))) }
{
    let scene = Scene {
        around: *around,
        seen,
        strong,
    };
    let types = judge_expr(found, &scene, &escape.condition);
    let fits = is_condition(types);
    found.note_if(escape.place, Kind::Mismatch, !fits);
    note_target(found, states, escape);
}

/// Notes what is wrong with what a block declares and defines.
pub(crate) fn note_own_block(
    alloc: Global,
    found: &mut Found,
    around: &NodeScene<'_>,
    seen: &[&Decl],
    decls: &[Decl],
    body: &[Equation],
) -> Result<(), Memory>
    ensures { OnOk result (found.new ≡ earlier_of found.old (earliest (faults_at (around_judging around.now) (map (λ r. r.now) seen.now) (part.Block decls.now (map equation_case body.now))))) }
{
    note_block(alloc, found, around.types, decls, body)
}
