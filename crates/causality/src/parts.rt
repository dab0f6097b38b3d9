//! What the parts of a node demand.
ghost use Rattle.std.specs.Prelude.{◌≡◌, ◌++◌, OnOk, [], map};
ghost use Rattle.std.specs.List.{flat_map};
ghost use Rattle.hept_ast.specs.Initial.{unmet_expr, unmet_outside};
ghost use Rattle.hept_ast.specs.Parts.{block_sets, declaration};
ghost use Rattle.hept_ast.specs.SeenParts.{seen_block, seen_parts, seen_state};
ghost use Rattle.causality.specs.Demands.{grades_from, unmet_declared, unmet_in_block, unmet_in_equation, unmet_in_state};
ghost use Rattle.causality.specs.Lowest.{lower, lowest};

use crate::demands::{note_decl, note_expr, note_lasts};
use crate::unmet::Unmet;
use hept_ast::{Block, Branch, Decl, Equation, Escape, Expr, Memory, Name, State};
use node_text::{
    declaration_at, declared_inside, push_block_sets, push_branch_sets, push_state_sets,
};
use std::alloc::Global;

/// Notes a variable by its name, where it is declared among what is seen.
#[tactic(auto, using(crate::proofs::LowestOf::lowest_of))]
fn note_declared(found: &mut Unmet, inner: &[&Decl], own: &[&Decl], name: &Name, nil: &[&Name])
    ensures { found.new ≡ lower found.old (lowest (unmet_declared (grades_from (map (λ r. r.now) nil.now)) (declaration (map (λ r. r.now) inner.now ++ map (λ r. r.now) own.now) name.now))) }
{
    match declaration_at(inner, own, name) {
        Some(decl) => note_decl(found, decl, nil),
        None => {}
    }
}

#[tactic(auto, using(crate::proofs::LowestOf::lowest_of))]
fn note_each_declared(
    found: &mut Unmet,
    inner: &[&Decl],
    own: &[&Decl],
    sets: &[&Name],
    nil: &[&Name],
)
    ensures { found.new ≡ lower found.old (lowest (flat_map (λ x. unmet_declared (grades_from (map (λ r. r.now) nil.now)) (declaration (map (λ r. r.now) inner.now ++ map (λ r. r.now) own.now) x)) (map (λ r. r.now) sets.now))) }
{
    for name in sets {
        note_declared(found, inner, own, name, nil);
    }
}

/// Notes the variables from outside that a part defines.
#[tactic(auto, using(crate::proofs::SeenDemands::outside_of))]
fn note_outside(found: &mut Unmet, inner: &[&Decl], own: &[&Decl], sets: &[&Name], nil: &[&Name])
    ensures { found.new ≡ lower found.old (lowest (unmet_outside (grades_from (map (λ r. r.now) nil.now)) (map (λ r. r.now) inner.now ++ map (λ r. r.now) own.now) (map (λ r. r.now) sets.now))) }
{
    note_each_declared(found, inner, own, sets, nil);
}

/// Notes the conditions of transitions.
#[tactic(auto, using(crate::proofs::LowestOf::lowest_of))]
fn note_escapes(found: &mut Unmet, escapes: &[Escape], nil: &[&Name])
    ensures { found.new ≡ lower found.old (lowest (flat_map (λ e. unmet_expr (grades_from (map (λ r. r.now) nil.now)) e.condition) escapes.now)) }
{
    for escape in escapes {
        note_expr(found, &escape.condition, nil);
    }
}

fn note_branch_sets(
    alloc: Global,
    found: &mut Unmet,
    inner: &[&Decl],
    own: &[&Decl],
    branches: &[Branch],
    nil: &[&Name],
) -> Result<(), Memory>
    ensures { OnOk result (found.new ≡ lower found.old (lowest (unmet_outside (grades_from (map (λ r. r.now) nil.now)) (map (λ r. r.now) inner.now ++ map (λ r. r.now) own.now) (flat_map (λ b. block_sets b.block) branches.now)))) }
{
    let mut sets = Vec::new(alloc);
    push_branch_sets(alloc, &mut sets, branches)?;
    note_outside(found, inner, own, sets.as_slice(), nil);
    Ok(())
}

fn note_state_sets(
    alloc: Global,
    found: &mut Unmet,
    inner: &[&Decl],
    own: &[&Decl],
    states: &[State],
    nil: &[&Name],
) -> Result<(), Memory>
    ensures { OnOk result (found.new ≡ lower found.old (lowest (unmet_outside (grades_from (map (λ r. r.now) nil.now)) (map (λ r. r.now) inner.now ++ map (λ r. r.now) own.now) (flat_map (λ q. block_sets q.block) states.now)))) }
{
    let mut sets = Vec::new(alloc);
    push_state_sets(alloc, &mut sets, states)?;
    note_outside(found, inner, own, sets.as_slice(), nil);
    Ok(())
}

fn note_block_sets(
    alloc: Global,
    found: &mut Unmet,
    inner: &[&Decl],
    own: &[&Decl],
    block: &Block,
    nil: &[&Name],
) -> Result<(), Memory>
    ensures { OnOk result (found.new ≡ lower found.old (lowest (unmet_outside (grades_from (map (λ r. r.now) nil.now)) (map (λ r. r.now) inner.now ++ map (λ r. r.now) own.now) (block_sets block.now)))) }
{
    let mut sets = Vec::new(alloc);
    push_block_sets(alloc, &mut sets, block)?;
    note_outside(found, inner, own, sets.as_slice(), nil);
    Ok(())
}

/// Notes what the parts inside equations demand, where the blocks around declare these.
#[cycle(demands)]
#[tactic(auto, using(crate::proofs::LowestOf::lowest_of))]
pub(crate) fn note_body<'a>(
    alloc: Global,
    found: &mut Unmet,
    inner: &[&'a Decl],
    own: &[&'a Decl],
    body: &'a [Equation],
    nil: &[&Name],
) -> Result<(), Memory>
    ensures { OnOk result (found.new ≡ lower found.old (lowest (flat_map (unmet_in_equation (grades_from (map (λ r. r.now) nil.now)) (map (λ r. r.now) own.now) (map (λ r. r.now) inner.now)) body.now))) }
{
    for equation in body {
        note_equation(alloc, found, inner, own, equation, nil)?;
    }
    Ok(())
}

#[cycle(demands)]
fn note_equation<'a>(
    alloc: Global,
    found: &mut Unmet,
    inner: &[&'a Decl],
    own: &[&'a Decl],
    equation: &'a Equation,
    nil: &[&Name],
) -> Result<(), Memory>
    ensures { OnOk result (found.new ≡ lower found.old (lowest (unmet_in_equation (grades_from (map (λ r. r.now) nil.now)) (map (λ r. r.now) own.now) (map (λ r. r.now) inner.now) equation.now))) }
{
    match equation {
        Equation::Define { .. } => Ok(()),
        Equation::Switch { on, branches, .. } => {
            note_expr(found, on, nil);
            note_branch_sets(alloc, found, inner, own, branches.as_slice(), nil)?;
            note_branches(alloc, found, inner, own, branches.as_slice(), nil)
        }
        Equation::Reset { block, every, .. } => {
            note_expr(found, every, nil);
            note_block_sets(alloc, found, inner, own, block.get(), nil)?;
            note_block(alloc, found, inner, own, block.get(), nil)
        }
        Equation::Automaton { states, .. } => {
            note_state_sets(alloc, found, inner, own, states.as_slice(), nil)?;
            note_states(alloc, found, inner, own, states.as_slice(), nil)
        }
    }
}

#[cycle(demands)]
fn note_block<'a>(
    alloc: Global,
    found: &mut Unmet,
    inner: &[&'a Decl],
    own: &[&'a Decl],
    block: &'a Block,
    nil: &[&Name],
) -> Result<(), Memory>
    ensures { OnOk result (found.new ≡ lower found.old (lowest (unmet_in_block (grades_from (map (λ r. r.now) nil.now)) (map (λ r. r.now) own.now) (map (λ r. r.now) inner.now) block.now))) }
{
    note_lasts(found, block.locals.as_slice(), nil);
    let inside = declared_inside(alloc, block.locals.as_slice(), inner)?;
    note_body(
        alloc,
        found,
        inside.as_slice(),
        own,
        block.body.as_slice(),
        nil,
    )
}

#[cycle(demands)]
#[tactic(auto, using(crate::proofs::LowestOf::lowest_of))]
fn note_branches<'a>(
    alloc: Global,
    found: &mut Unmet,
    inner: &[&'a Decl],
    own: &[&'a Decl],
    branches: &'a [Branch],
    nil: &[&Name],
) -> Result<(), Memory>
    ensures { OnOk result (found.new ≡ lower found.old (lowest (flat_map (λ b. unmet_in_block (grades_from (map (λ r. r.now) nil.now)) (map (λ r. r.now) own.now) (map (λ r. r.now) inner.now) b.block) branches.now))) }
{
    for branch in branches {
        note_block(alloc, found, inner, own, &branch.block, nil)?;
    }
    Ok(())
}

#[cycle(demands)]
#[tactic(auto, using(crate::proofs::LowestOf::lowest_of))]
fn note_states<'a>(
    alloc: Global,
    found: &mut Unmet,
    inner: &[&'a Decl],
    own: &[&'a Decl],
    states: &'a [State],
    nil: &[&Name],
) -> Result<(), Memory>
    ensures { OnOk result (found.new ≡ lower found.old (lowest (flat_map (unmet_in_state (grades_from (map (λ r. r.now) nil.now)) (map (λ r. r.now) own.now) (map (λ r. r.now) inner.now) states.now) states.now))) }
{
    for state in states {
        note_state(alloc, found, inner, own, state, states, nil)?;
    }
    Ok(())
}

#[cycle(demands)]
fn note_state<'a>(
    alloc: Global,
    found: &mut Unmet,
    inner: &[&'a Decl],
    own: &[&'a Decl],
    state: &'a State,
    states: &'a [State],
    nil: &[&Name],
) -> Result<(), Memory>
    ensures { OnOk result (found.new ≡ lower found.old (lowest (unmet_in_state (grades_from (map (λ r. r.now) nil.now)) (map (λ r. r.now) own.now) (map (λ r. r.now) inner.now) states.now state.now))) }
{
    note_block(alloc, found, inner, own, &state.block, nil)?;
    note_escapes(found, state.weak.as_slice(), nil);
    note_escapes(found, state.strong.as_slice(), nil);
    Ok(())
}
