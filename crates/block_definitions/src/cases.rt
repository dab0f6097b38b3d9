//! Branches of switches, states of automata, and transitions.
ghost use Rattle.std.specs.Prelude.{◌≡◌, ◌++◌, OnOk, [], not, map};
ghost use Rattle.std.specs.List.{flat_map, list_any};
ghost use Rattle.hept_ast.specs.Faults.{UnknownName, fault, labels, seconds};
ghost use Rattle.hept_ast.specs.InnerParts.{state_names};
ghost use Rattle.hept_ast.specs.Limits.{earlier_of, earliest};
ghost use Rattle.hept_ast.specs.Parts.{block_sets, branch_case, state_case};
ghost use Rattle.hept_ast.specs.Texts.{is_in, same};
ghost use Rattle.hept_ast.specs.Types.{same_tag};
ghost use Rattle.earliest_fault.specs.Labels.{label_of};
ghost use Rattle.block_definitions.specs.Defined.{block_gap, gaps_in, is_gap, state_label, tag_label};

use crate::definitions::has_last;
use earliest_fault::{Found, Kind, Label, note_seconds, push_label};
use hept_ast::{Block, Branch, Decl, Escape, Memory, Name, Place, State, Tag};
use node_text::{
    is_listed, is_same, is_same_tag, push_block_sets, push_branch_sets, push_state_sets,
};
use std::alloc::Global;

fn is_tag_of(tag: &Tag, branches: &[Branch]) -> bool
    ensures { result ≡ list_any (λ b. same_tag tag.now b.tag) branches.now }
{
    branches.iter().any(|branch| is_same_tag(tag, &branch.tag))
}

/// Notes each branch of a switch whose tag an earlier one has.
#[tactic(auto, using(hept_ast::proofs::Earliest::earliest_of))]
pub fn note_second_tags(found: &mut Found, branches: &[Branch])
    ensures { found.new ≡ earlier_of found.old (earliest (seconds same_tag [] (map tag_label branches.now))) }
{
    for (index, branch) in branches.iter().enumerate() {
        let again = is_tag_of(&branch.tag, &branches[..index]);
        found.note_if(branch.place, Kind::Duplicate, again);
    }
}

fn push_state_labels<'a>(labels: &mut Vec<Label<'a>>, states: &'a [State]) -> Result<(), Memory>
    ensures { OnOk result (map label_of labels.new.items ≡ map label_of labels.old.items ++ map state_label states.now) }
{
    for state in states {
        push_label(labels, state.place, &state.name)?;
    }
    Ok(())
}

/// Notes each state whose name an earlier one has.
#[tactic(auto, using(crate::proofs::CaseLists::case_labels))]
pub fn note_second_states(alloc: Global, found: &mut Found, states: &[State]) -> Result<(), Memory>
    ensures { OnOk result (found.new ≡ earlier_of found.old (earliest (seconds same [] (labels (map state_case states.now))))) }
{
    let mut names = Vec::new(alloc);
    push_state_labels(&mut names, states)?;
    note_seconds(alloc, found, names.as_slice())
}

fn is_gap(seen: &[&Decl], own: &[&Name], name: &Name) -> bool
    ensures { result ≡ is_gap (map (λ r. r.now) seen.now) (map (λ r. r.now) own.now) name.now }
{
    let defined = is_listed(name, own);
    !defined && !has_last(seen, name)
}

fn is_any_gap(seen: &[&Decl], own: &[&Name], all: &[&Name]) -> bool
    ensures { result ≡ list_any (λ r. is_gap (map (λ r. r.now) seen.now) (map (λ r. r.now) own.now) r.now) all.now }
{
    all.iter().any(|name| is_gap(seen, own, name))
}

fn has_gap(seen: &[&Decl], own: &[&Name], all: &[&Name]) -> bool
    ensures { result ≡ list_any (is_gap (map (λ r. r.now) seen.now) (map (λ r. r.now) own.now)) (map (λ r. r.now) all.now) }
{
    is_any_gap(seen, own, all)
}

fn note_gap(
    alloc: Global,
    found: &mut Found,
    seen: &[&Decl],
    all: &[&Name],
    place: Place,
    block: &Block,
) -> Result<(), Memory>
    ensures { OnOk result (found.new ≡ earlier_of found.old (earliest (block_gap (map (λ r. r.now) seen.now) (map (λ r. r.now) all.now) place.0 (block_sets block.now)))) }
{
    let mut own = Vec::new(alloc);
    push_block_sets(alloc, &mut own, block)?;
    let gap = has_gap(seen, own.as_slice(), all);
    found.note_if(place, Kind::NotDefined, gap);
    Ok(())
}

#[tactic(auto, using(hept_ast::proofs::Earliest::earliest_of))]
fn note_each_branch(
    alloc: Global,
    found: &mut Found,
    seen: &[&Decl],
    all: &[&Name],
    branches: &[Branch],
) -> Result<(), Memory>
    ensures { OnOk result (found.new ≡ earlier_of found.old (earliest (flat_map (λ b. block_gap (map (λ r. r.now) seen.now) (map (λ r. r.now) all.now) b.place.0 (block_sets b.block)) branches.now))) }
{
    for branch in branches {
        note_gap(alloc, found, seen, all, branch.place, &branch.block)?;
    }
    Ok(())
}

#[tactic(auto, using(hept_ast::proofs::Earliest::earliest_of))]
fn note_each_state(
    alloc: Global,
    found: &mut Found,
    seen: &[&Decl],
    all: &[&Name],
    states: &[State],
) -> Result<(), Memory>
    ensures { OnOk result (found.new ≡ earlier_of found.old (earliest (flat_map (λ q. block_gap (map (λ r. r.now) seen.now) (map (λ r. r.now) all.now) q.place.0 (block_sets q.block)) states.now))) }
{
    for state in states {
        note_gap(alloc, found, seen, all, state.place, &state.block)?;
    }
    Ok(())
}

/// Notes each branch that doesn't define what another does, where that has no `last`.
pub fn note_branch_gaps(
    alloc: Global,
    found: &mut Found,
    seen: &[&Decl],
    branches: &[Branch],
) -> Result<(), Memory>
    ensures { OnOk result (found.new ≡ earlier_of found.old (earliest (gaps_in (map (λ r. r.now) seen.now) (map branch_case branches.now)))) }
{
    let mut all = Vec::new(alloc);
    push_branch_sets(alloc, &mut all, branches)?;
    note_each_branch(alloc, found, seen, all.as_slice(), branches)
}

/// Notes each state that doesn't define what another does, where that has no `last`.
pub fn note_state_gaps(
    alloc: Global,
    found: &mut Found,
    seen: &[&Decl],
    states: &[State],
) -> Result<(), Memory>
    ensures { OnOk result (found.new ≡ earlier_of found.old (earliest (gaps_in (map (λ r. r.now) seen.now) (map state_case states.now)))) }
{
    let mut all = Vec::new(alloc);
    push_state_sets(alloc, &mut all, states)?;
    note_each_state(alloc, found, seen, all.as_slice(), states)
}

fn is_name_of_state(name: &Name, states: &[State]) -> bool
    ensures { result ≡ list_any (λ q. same name.now q.name) states.now }
{
    states.iter().any(|state| is_same(name, &state.name))
}

fn is_state(name: &Name, states: &[State]) -> bool
    ensures { result ≡ is_in name.now (state_names states.now) }
{
    is_name_of_state(name, states)
}

/// Notes a transition to a state that the automaton doesn't have.
pub fn note_target(found: &mut Found, states: &[State], escape: &Escape)
    ensures { found.new ≡ earlier_of found.old (earliest (fault escape.now.place.0 UnknownName (not (is_in escape.now.target (state_names states.now))))) }
{
    let known = is_state(&escape.target, states);
    found.note_if(escape.place, Kind::UnknownName, !known);
}
