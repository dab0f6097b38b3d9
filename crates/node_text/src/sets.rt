//! The variables that equations define for the block that they stand in.
ghost use Rattle.std.specs.Prelude.{◌≡◌, ◌++◌, ◌∷◌, [], OnOk, if◌then◌else◌, map};
ghost use Rattle.std.specs.List.{flat_map, list_any};
ghost use Rattle.hept_ast.specs.Parts.{block_sets, from_outside, sets_of};
ghost use Rattle.hept_ast.specs.Texts.{is_in, names, same};

use crate::names::{is_same, push_name, push_names};
use hept_ast::{Block, Branch, Decl, Equation, Memory, Name, State};
use std::alloc::Global;

fn is_name_of_any(name: &Name, decls: &[Decl]) -> bool
    ensures { result ≡ list_any (λ d. same name.now d.name) decls.now }
{
    decls.iter().any(|decl| is_same(name, &decl.name))
}

/// Whether a name is one of those that are declared.
pub fn is_declared_in(name: &Name, decls: &[Decl]) -> bool
    ensures { result ≡ is_in name.now (names decls.now) }
{
    is_name_of_any(name, decls)
}

fn push_where<'a>(names: &mut Vec<&'a Name>, name: &'a Name, test: bool) -> Result<(), Memory>
    ensures { OnOk result (map (λ r. r.now) names.new.items ≡ map (λ r. r.now) names.old.items ++ (if test then name.now ∷ [] else [])) }
{
    if test { push_name(names, name) } else { Ok(()) }
}

/// Appends the names without those that a block declares.
fn push_outside<'a>(
    names: &mut Vec<&'a Name>,
    locals: &[Decl],
    inner: &[&'a Name],
) -> Result<(), Memory>
    ensures { OnOk result (map (λ r. r.now) names.new.items ≡ map (λ r. r.now) names.old.items ++ from_outside locals.now (map (λ r. r.now) inner.now)) }
{
    for name in inner {
        let outside = !is_declared_in(name, locals);
        push_where(names, name, outside)?;
    }
    Ok(())
}

/// Appends what an equation defines.
#[cycle(sets)]
#[tactic(auto, using(hept_ast::proofs::PartsOf::sets_of_each))]
pub fn push_sets<'a>(
    alloc: Global,
    names: &mut Vec<&'a Name>,
    equation: &'a Equation,
) -> Result<(), Memory>
    ensures { OnOk result (map (λ r. r.now) names.new.items ≡ map (λ r. r.now) names.old.items ++ sets_of equation.now) }
{
    match equation {
        Equation::Define { left, .. } => push_names(names, left.as_slice()),
        Equation::Switch { branches, .. } => push_branch_sets(alloc, names, branches.as_slice()),
        Equation::Reset { block, .. } => push_block_sets(alloc, names, block.get()),
        Equation::Automaton { states, .. } => push_state_sets(alloc, names, states.as_slice()),
    }
}

/// Appends the variables from outside that a block defines.
#[cycle(sets)]
#[tactic(auto, using(hept_ast::proofs::PartsOf::sets_of_each))]
pub fn push_block_sets<'a>(
    alloc: Global,
    names: &mut Vec<&'a Name>,
    block: &'a Block,
) -> Result<(), Memory>
    ensures { OnOk result (map (λ r. r.now) names.new.items ≡ map (λ r. r.now) names.old.items ++ block_sets block.now) }
{
    let mut inner = Vec::new(alloc);
    for equation in block.body.as_slice() {
        push_sets(alloc, &mut inner, equation)?;
    }
    push_outside(names, block.locals.as_slice(), inner.as_slice())
}

#[cycle(sets)]
#[tactic(auto, using(hept_ast::proofs::PartsOf::sets_of_each))]
pub fn push_branch_sets<'a>(
    alloc: Global,
    names: &mut Vec<&'a Name>,
    branches: &'a [Branch],
) -> Result<(), Memory>
    ensures { OnOk result (map (λ r. r.now) names.new.items ≡ map (λ r. r.now) names.old.items ++ flat_map (λ b. block_sets b.block) branches.now) }
{
    for branch in branches {
        push_block_sets(alloc, names, &branch.block)?;
    }
    Ok(())
}

#[cycle(sets)]
#[tactic(auto, using(hept_ast::proofs::PartsOf::sets_of_each))]
pub fn push_state_sets<'a>(
    alloc: Global,
    names: &mut Vec<&'a Name>,
    states: &'a [State],
) -> Result<(), Memory>
    ensures { OnOk result (map (λ r. r.now) names.new.items ≡ map (λ r. r.now) names.old.items ++ flat_map (λ q. block_sets q.block) states.now) }
{
    for state in states {
        push_block_sets(alloc, names, &state.block)?;
    }
    Ok(())
}
