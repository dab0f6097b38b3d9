//! The walk over the parts of a node's text, with what is seen at each.
ghost use Rattle.std.specs.Prelude.{◌≡◌, ◌++◌, IfOk, OnOk, false, map, true};
ghost use Rattle.std.specs.List.{flat_map};
ghost use Rattle.hept_ast.specs.Limits.{earlier_of, earliest};
ghost use Rattle.type_futures.specs.Walk.{around_judging, branch_faults, equation_faults, escape_faults, inner_faults, state_faults};

use crate::parts::{
    note_automaton, note_own_block, note_plain, note_reset, note_switch, note_transition,
};
use earliest_fault::Found;
use expression_types::NodeScene;
use hept_ast::{Block, Branch, Decl, Equation, Escape, Memory, State};
use node_text::declared_inside;
use std::alloc::Global;

/// What is seen inside a block: what it declares, and then what is seen around it.
fn seen_inside<'a>(
    alloc: Global,
    outer: &[&'a Decl],
    block: &'a Block,
) -> Result<Vec<&'a Decl>, Memory>
    ensures { IfOk result (λ seen. map (λ r. r.now) seen.items ≡ block.now.locals ++ map (λ r. r.now) outer.now) }
{
    declared_inside(alloc, block.locals.as_slice(), outer)
}

/// Notes what is wrong with the transitions of a state.
#[tactic(auto, using(hept_ast::proofs::Earliest::earliest_of, crate::proofs::Walks::walks))]
fn note_escapes(
    found: &mut Found,
    around: &NodeScene<'_>,
    seen: &[&Decl],
    strong: bool,
    states: &[State],
    escapes: &[Escape],
)
    ensures { found.new ≡ earlier_of found.old (earliest (escape_faults (around_judging around.now) (map (λ r. r.now) seen.now) strong states.now escapes.now)) }
{
    for escape in escapes {
        note_transition(found, around, seen, strong, states, escape);
    }
}

/// Notes what is wrong with an equation and with all parts inside it, where these variables are seen.
#[cycle(walk)]
#[tactic(auto, using(hept_ast::proofs::Earliest::earliest_of, crate::proofs::Walks::walks))]
pub(crate) fn note_equation<'a>(
    alloc: Global,
    found: &mut Found,
    around: &NodeScene<'_>,
    seen: &[&'a Decl],
    equation: &'a Equation,
) -> Result<(), Memory>
    ensures { OnOk result (found.new ≡ earlier_of found.old (earliest (equation_faults (around_judging around.now) (map (λ r. r.now) seen.now) equation.now))) }
{
    match equation {
        Equation::Define { place, left, right } => {
            note_plain(alloc, found, around, seen, *place, left.as_slice(), right)
        }
        Equation::Switch {
            place,
            on,
            branches,
        } => {
            note_switch(alloc, found, around, seen, *place, on, branches.as_slice())?;
            note_branches(alloc, found, around, seen, branches.as_slice())
        }
        Equation::Reset {
            place,
            block,
            every,
        } => {
            note_reset(found, around, seen, *place, every, block.get());
            note_inner(alloc, found, around, seen, block.get())
        }
        Equation::Automaton { place, states } => {
            note_automaton(alloc, found, around, seen, *place, states.as_slice())?;
            note_states(alloc, found, around, seen, states.as_slice())
        }
    }
}

/// Notes what is wrong with a block and with all parts inside it.
#[cycle(walk)]
#[tactic(auto, using(hept_ast::proofs::Earliest::earliest_of, crate::proofs::Walks::walks))]
fn note_inner<'a>(
    alloc: Global,
    found: &mut Found,
    around: &NodeScene<'_>,
    seen: &[&'a Decl],
    block: &'a Block,
) -> Result<(), Memory>
    ensures { OnOk result (found.new ≡ earlier_of found.old (earliest (inner_faults (around_judging around.now) (map (λ r. r.now) seen.now) block.now))) }
{
    let inside = seen_inside(alloc, seen, block)?;
    note_own_block(
        alloc,
        found,
        around,
        &inside,
        block.locals.as_slice(),
        block.body.as_slice(),
    )?;
    for equation in block.body.as_slice() {
        note_equation(alloc, found, around, &inside, equation)?;
    }
    Ok(())
}

#[cycle(walk)]
#[tactic(auto, using(hept_ast::proofs::Earliest::earliest_of, crate::proofs::Walks::walks))]
fn note_branches<'a>(
    alloc: Global,
    found: &mut Found,
    around: &NodeScene<'_>,
    seen: &[&'a Decl],
    branches: &'a [Branch],
) -> Result<(), Memory>
    ensures { OnOk result (found.new ≡ earlier_of found.old (earliest (flat_map (branch_faults (around_judging around.now) (map (λ r. r.now) seen.now)) branches.now))) }
{
    for branch in branches {
        note_inner(alloc, found, around, seen, &branch.block)?;
    }
    Ok(())
}

#[cycle(walk)]
#[tactic(auto, using(hept_ast::proofs::Earliest::earliest_of, crate::proofs::Walks::walks))]
fn note_states<'a>(
    alloc: Global,
    found: &mut Found,
    around: &NodeScene<'_>,
    seen: &[&'a Decl],
    states: &'a [State],
) -> Result<(), Memory>
    ensures { OnOk result (found.new ≡ earlier_of found.old (earliest (flat_map (state_faults (around_judging around.now) (map (λ r. r.now) seen.now) states.now) states.now))) }
{
    for state in states {
        note_state(alloc, found, around, seen, state, states)?;
    }
    Ok(())
}

/// Notes what is wrong with a state of an automaton with these states, and with all parts inside it.
#[cycle(walk)]
#[tactic(auto, using(hept_ast::proofs::Earliest::earliest_of, crate::proofs::Walks::walks))]
fn note_state<'a>(
    alloc: Global,
    found: &mut Found,
    around: &NodeScene<'_>,
    seen: &[&'a Decl],
    state: &'a State,
    states: &[State],
) -> Result<(), Memory>
    ensures { OnOk result (found.new ≡ earlier_of found.old (earliest (state_faults (around_judging around.now) (map (λ r. r.now) seen.now) states.now state.now))) }
{
    note_inner(alloc, found, around, seen, &state.block)?;
    let inside = seen_inside(alloc, seen, &state.block)?;
    note_escapes(found, around, &inside, false, states, state.weak.as_slice());
    note_escapes(found, around, seen, true, states, state.strong.as_slice());
    Ok(())
}
