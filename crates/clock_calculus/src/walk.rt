//! The conditions of the parts of a node's text.
ghost use Rattle.std.specs.Prelude.{◌≡◌, ◌∷◌, IfOk, OnOk, fold, map};
ghost use Rattle.std.specs.List.{flat_map};
ghost use Rattle.hept_ast.specs.Clocks.{Base, conditions};
ghost use Rattle.hept_ast.specs.InnerParts.{state_names};
ghost use Rattle.hept_ast.specs.Parts.{Branch_of, block_parts, block_sets, parts_of, state_parts, strong_of_all};
ghost use Rattle.clock_calculus.specs.Collecting.{after_condition, after_declared, after_defined, after_last, after_on_base, after_part, after_plain, after_set, collection, of_node};
ghost use Rattle.clock_calculus.specs.Sites.{own_of, seen_of, site_of};
ghost use Rattle.clock_calculus.specs.Written.{base_term};

use crate::conditions::{Base, Collected};
use crate::expressions::{base_of, push_expected, push_expression};
use crate::scope::{Around, Scope};
use hept_ast::{Block, Branch, Decl, Equation, Escape, Expr, Memory, Name, Node, Place, State};
use node_text::{push_branch_sets, push_state_sets};
use std::alloc::Global;

/// A variable that is on the base clock by its declaration.
fn push_declared<'a>(out: &mut Collected<'a>, decl: &'a Decl) -> Result<(), Memory>
    ensures { OnOk result (collection out.new ≡ after_declared (collection out.old) decl.now) }
{
    out.equal(decl.place, Base::Variable(&decl.name), Base::Empty.bare())
}

fn push_all_declared<'a>(out: &mut Collected<'a>, decls: &'a [Decl]) -> Result<(), Memory>
    ensures { OnOk result (collection out.new ≡ fold after_declared (collection out.old) decls.now) }
{
    for decl in decls {
        push_declared(out, decl)?;
    }
    Ok(())
}

#[tactic(auto, unfolding(crate::specs::Collecting::after_last))]
fn push_last<'a>(out: &mut Collected<'a>, decl: &'a Decl) -> Result<(), Memory>
    ensures { OnOk result (collection out.new ≡ after_last (collection out.old) decl.now) }
{
    if decl.init.is_some() {
        push_declared(out, decl)
    } else {
        Ok(())
    }
}

/// Variables with `last` are on the base clock.
fn push_lasts<'a>(out: &mut Collected<'a>, decls: &'a [Decl]) -> Result<(), Memory>
    ensures { OnOk result (collection out.new ≡ fold after_last (collection out.old) decls.now) }
{
    for decl in decls {
        push_last(out, decl)?;
    }
    Ok(())
}

/// A variable that a block equation defines is on the base clock.
#[tactic(auto, using(crate::proofs::Walked::sets))]
fn push_set<'a>(out: &mut Collected<'a>, scope: &Scope<'a>, name: &'a Name) -> Result<(), Memory>
    ensures { OnOk result (collection out.new ≡ after_set (seen_of scope.now) (collection out.old) name.now) }
{
    match scope.declaration(name) {
        Some(decl) => out.equal(decl.place, Base::Variable(name), Base::Empty.bare()),
        None => Ok(()),
    }
}

fn push_sets<'a>(
    out: &mut Collected<'a>,
    scope: &Scope<'a>,
    names: &[&'a Name],
) -> Result<(), Memory>
    ensures { OnOk result (collection out.new ≡ fold (after_set (seen_of scope.now)) (collection out.old) (map (λ r. r.now) names.now)) }
{
    for name in names {
        push_set(out, scope, name)?;
    }
    Ok(())
}

/// An expression that has to be on the base clock.
fn push_on_base<'a>(out: &mut Collected<'a>, scope: &Scope<'a>, e: &'a Expr) -> Result<(), Memory>
    ensures { OnOk result (collection out.new ≡ after_on_base (own_of scope.now) (collection out.old) e.now) }
{
    push_expected(out, scope, e.place, Base::Empty.bare(), e)?;
    push_expression(out, scope, e)
}

/// Transitions: their conditions are on the base clock.
#[tactic(auto, unfolding(crate::specs::Collecting::after_condition))]
fn push_escapes<'a>(
    out: &mut Collected<'a>,
    scope: &Scope<'a>,
    escapes: &'a [Escape],
) -> Result<(), Memory>
    ensures { OnOk result (collection out.new ≡ fold (after_condition (own_of scope.now)) (collection out.old) escapes.now) }
{
    for escape in escapes {
        push_on_base(out, scope, &escape.condition)?;
    }
    Ok(())
}

/// A variable that a plain equation defines is on the clock of its right side.
#[tactic(auto, using(crate::proofs::Walked::definitions))]
fn push_defined<'a>(
    out: &mut Collected<'a>,
    scope: &Scope<'a>,
    place: Place,
    right: Base<'a>,
    name: &'a Name,
) -> Result<(), Memory>
    ensures { OnOk result (collection out.new ≡ after_defined (own_of scope.now) place.0 (base_term right.entry) (collection out.old) name.now) }
{
    if scope.declares(name) {
        return out.equal(place, Base::Variable(name), right.bare());
    }
    out.equal(place, Base::Variable(name), Base::Empty.bare())?;
    out.equal(place, right, Base::Empty.bare())
}

fn push_left<'a>(
    out: &mut Collected<'a>,
    scope: &Scope<'a>,
    place: Place,
    right: Base<'a>,
    left: &'a [Name],
) -> Result<(), Memory>
    ensures { OnOk result (collection out.new ≡ fold (after_defined (own_of scope.now) place.0 (base_term right.entry)) (collection out.old) left.now) }
{
    for name in left {
        push_defined(out, scope, place, right, name)?;
    }
    Ok(())
}

#[tactic(auto, unfolding(crate::specs::Collecting::after_plain))]
fn push_plain<'a>(
    out: &mut Collected<'a>,
    scope: &Scope<'a>,
    place: Place,
    left: &'a [Name],
    right: &'a Expr,
) -> Result<(), Memory>
    ensures { OnOk result (collection out.new ≡ after_plain (own_of scope.now) place.0 left.now right.now (collection out.old)) }
{
    let base = base_of(scope, out.expressions, &right.form);
    push_left(out, scope, place, base, left)?;
    push_expression(out, scope, right)
}

/// The variables that a switch defines, and its scrutinee.
fn push_switch<'a>(
    alloc: Global,
    out: &mut Collected<'a>,
    scope: &Scope<'a>,
    on: &'a Expr,
    branches: &'a [Branch],
) -> Result<(), Memory>
    ensures { OnOk result (collection out.new ≡ after_on_base (own_of scope.now) (fold (after_set (seen_of scope.now)) (collection out.old) (flat_map (λ b. block_sets b.block) branches.now)) on.now) }
{
    let mut sets = Vec::new(alloc);
    push_branch_sets(alloc, &mut sets, branches)?;
    push_sets(out, scope, sets.as_slice())?;
    push_on_base(out, scope, on)
}

/// The variables that an automaton defines.
fn push_automaton<'a>(
    alloc: Global,
    out: &mut Collected<'a>,
    scope: &Scope<'a>,
    states: &'a [State],
) -> Result<(), Memory>
    ensures { OnOk result (collection out.new ≡ fold (after_set (seen_of scope.now)) (collection out.old) (flat_map (λ q. block_sets q.block) states.now)) }
{
    let mut sets = Vec::new(alloc);
    push_state_sets(alloc, &mut sets, states)?;
    push_sets(out, scope, sets.as_slice())
}

/// Collects the conditions of an equation and of all parts inside it.
#[cycle(walking)]
#[tactic(auto, using(crate::proofs::Walked::walked))]
fn push_equation<'a>(
    alloc: Global,
    out: &mut Collected<'a>,
    scope: &Scope<'a>,
    equation: &'a Equation,
) -> Result<(), Memory>
    ensures { OnOk result (collection out.new ≡ fold (after_part scope.now.node.now) (collection out.old) (parts_of (site_of scope.now) equation.now)) }
{
    match equation {
        Equation::Define { place, left, right } => {
            push_plain(out, scope, *place, left.as_slice(), right)
        }
        Equation::Switch { on, branches, .. } => {
            push_switch(alloc, out, scope, on, branches.as_slice())?;
            push_branches(alloc, out, scope, branches.as_slice(), on)
        }
        Equation::Reset { block, every, .. } => {
            push_on_base(out, scope, every)?;
            let around = Around::Body(every, block.get().locals.as_slice());
            let inner = scope.within(alloc, around)?;
            push_block(alloc, out, &inner, block.get())
        }
        Equation::Automaton { states, .. } => {
            push_automaton(alloc, out, scope, states.as_slice())?;
            push_states(alloc, out, scope, states.as_slice())
        }
    }
}

#[cycle(walking)]
#[tactic(auto, using(crate::proofs::Walked::walked))]
fn push_block<'a>(
    alloc: Global,
    out: &mut Collected<'a>,
    scope: &Scope<'a>,
    block: &'a Block,
) -> Result<(), Memory>
    ensures { OnOk result (collection out.new ≡ fold (after_part scope.now.node.now) (collection out.old) (block_parts (site_of scope.now) block.now)) }
{
    out.declare(block.locals.as_slice())?;
    push_lasts(out, block.locals.as_slice())?;
    for equation in block.body.as_slice() {
        push_equation(alloc, out, scope, equation)?;
    }
    Ok(())
}

#[cycle(walking)]
#[tactic(auto, using(crate::proofs::Walked::walked))]
fn push_branches<'a>(
    alloc: Global,
    out: &mut Collected<'a>,
    scope: &Scope<'a>,
    branches: &'a [Branch],
    on: &'a Expr,
) -> Result<(), Memory>
    ensures { OnOk result (collection out.new ≡ fold (after_part scope.now.node.now) (collection out.old) (flat_map (λ b. block_parts (Branch_of on.now b.block.locals ∷ site_of scope.now) b.block) branches.now)) }
{
    for branch in branches {
        let around = Around::Branch(on, branch.block.locals.as_slice());
        let inner = scope.within(alloc, around)?;
        push_block(alloc, out, &inner, &branch.block)?;
    }
    Ok(())
}

#[cycle(walking)]
#[tactic(auto, using(crate::proofs::Walked::walked))]
fn push_states<'a>(
    alloc: Global,
    out: &mut Collected<'a>,
    scope: &Scope<'a>,
    states: &'a [State],
) -> Result<(), Memory>
    ensures { OnOk result (collection out.new ≡ fold (after_part scope.now.node.now) (collection out.old) (flat_map (state_parts (site_of scope.now) (strong_of_all states.now) (state_names states.now)) states.now)) }
{
    for state in states {
        push_state(alloc, out, scope, state, states)?;
    }
    Ok(())
}

#[cycle(walking)]
#[tactic(auto, using(crate::proofs::Walked::walked))]
fn push_state<'a>(
    alloc: Global,
    out: &mut Collected<'a>,
    scope: &Scope<'a>,
    state: &'a State,
    states: &'a [State],
) -> Result<(), Memory>
    ensures { OnOk result (collection out.new ≡ fold (after_part scope.now.node.now) (collection out.old) (state_parts (site_of scope.now) (strong_of_all states.now) (state_names states.now) state.now)) }
{
    let around = Around::State(states, state.block.locals.as_slice());
    let inner = scope.within(alloc, around)?;
    push_block(alloc, out, &inner, &state.block)?;
    push_escapes(out, &inner, state.weak.as_slice())?;
    push_escapes(out, scope, state.strong.as_slice())
}

/// The conditions of a node, the number of its expressions, and its variables.
#[tactic(auto, using(crate::proofs::Walked::whole))]
pub(crate) fn collect<'a>(alloc: Global, node: &'a Node) -> Result<Collected<'a>, Memory>
    ensures { IfOk result (λ c. collection c ≡ of_node node.now) }
{
    let mut out = Collected::new(alloc);
    out.declare(node.inputs.as_slice())?;
    push_all_declared(&mut out, node.inputs.as_slice())?;
    push_all_declared(&mut out, node.outputs.as_slice())?;
    out.declare(node.outputs.as_slice())?;
    out.declare(node.block.locals.as_slice())?;
    push_lasts(&mut out, node.outputs.as_slice())?;
    push_lasts(&mut out, node.block.locals.as_slice())?;
    let scope = Scope {
        node,
        site: Vec::new(alloc),
    };
    for equation in node.block.body.as_slice() {
        push_equation(alloc, &mut out, &scope, equation)?;
    }
    Ok(out)
}
