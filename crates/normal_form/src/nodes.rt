//! Nodes and cores in normal form.
ghost use Rattle.std.specs.Prelude.{◌≡◌, ◌∷◌, [], IfOk, OnOk};
ghost use Rattle.core_facts.specs.Static.{StaticCore};
ghost use Rattle.core_naming.specs.Names.{new_equation};
ghost use Rattle.core_naming.specs.Normal.{IsNormal};
ghost use Rattle.core_rules.specs.Cores.{HasNoCoreCycle, core_judging};
ghost use Rattle.core_rules.specs.WellFormed.{IsWellFormed};
ghost use Rattle.naming_rules.specs.Namings.{Namings};
ghost use Rattle.naming_rules.specs.Normalised.{IsNormalised};
ghost use Rattle.normal_form.specs.OneType.{IsTypeOf};
ghost use Rattle.normal_form.specs.Settling.{
  AddsVariable,
  CanBeNamed,
  CutsEquation,
  MovesOnce,
  Normalises,
  Settles,
  core_around,
  with_one,
  with_variable,
};

use crate::cut::{Taken, cut_right};
use crate::new_names::NewNames;
use crate::types::{Scene, type_of};
use hept_ast::{
    Core, CoreEquation, CoreNode, Decl, Expr, Memory, Name, Ty, TypeDec, copy_name, copy_names,
};
use naming_facts::naming_facts_laws;
use sqlite_items::Items;
use std::alloc::Global;

/// A node whose own equations are in normal form, and those that are left.
#[derive(Drop)]
pub(crate) struct Unsettled {
    pub node: CoreNode,
    pub left: Items<CoreEquation>,
}

fn only_name(alloc: Global, x: &Name) -> Result<Items<Name>, Memory>
    ensures { IfOk result (λ xs. xs ≡ x.now ∷ []) }
{
    let mut names = Items::new(alloc);
    names.push(copy_name(alloc, x)?)?;
    Ok(names)
}

/// The equation of a variable for what was taken.
fn equation_of(
    alloc: Global,
    x: &Name,
    taken: Taken,
    resets: &[Name],
) -> Result<CoreEquation, Memory>
    ensures { IfOk result (λ e. e ≡ new_equation x.now taken.named taken.clock.steps resets.now) }
{
    let left = only_name(alloc, x)?;
    let resets = copy_names(alloc, resets)?;
    let Taken { named, clock } = taken;
    Ok(CoreEquation {
        place: named.place,
        left,
        clock,
        right: named,
        resets,
    })
}

/// A variable for what was taken, at the end of the locals and of the equations that are left.
fn declare(
    alloc: Global,
    x: Name,
    taken: Taken,
    ty: Ty,
    resets: &[Name],
    rest: &mut Unsettled,
) -> Result<(), Memory>
    ensures { OnOk result (rest.new ≡ with_variable x taken ty resets.now rest.old) }
{
    let place = taken.named.place;
    let e = equation_of(alloc, &x, taken, resets)?;
    rest.left.push(e)?;
    rest.node.locals.push(Decl {
        place,
        name: x,
        ty,
        init: None,
    })?;
    Ok(())
}

/// The type of an expression of a node between others, if it has just one.
fn type_in(
    alloc: Global,
    types: &[TypeDec],
    before: &[CoreNode],
    node: &CoreNode,
    after: &[CoreNode],
    e: &Expr,
) -> Result<Ty, Memory>
    ensures { IfOk result (IsTypeOf (core_judging (core_around types.now before.now after.now node.now) node.now) e.now) }
{
    let scene = Scene {
        types,
        before,
        node,
        after,
    };
    type_of(alloc, &scene, e)
}

/// A variable for what was taken, of the type that this has.
fn add_variable(
    alloc: Global,
    types: &[TypeDec],
    before: &[CoreNode],
    after: &[CoreNode],
    x: Name,
    taken: Taken,
    resets: &[Name],
    rest: &mut Unsettled,
) -> Result<(), Memory>
    ensures { OnOk result (AddsVariable types.now before.now after.now x taken resets.now rest.old rest.new) }
{
    let ty = type_in(alloc, types, before, &rest.node, after, &taken.named)?;
    declare(alloc, x, taken, ty, resets, rest)
}

/// An equation, where something was taken from the right side.
fn cut_equation(
    alloc: Global,
    e: CoreEquation,
    x: &Name,
) -> Result<(CoreEquation, Option<Taken>), Memory>
    ensures { IfOk result (λ r. CutsEquation x.now e r.0 r.1) }
{
    let CoreEquation {
        place,
        left,
        clock,
        right,
        resets,
    } = e;
    let cut = cut_right(alloc, right, &clock, x)?;
    let right = cut.right;
    let e = CoreEquation {
        place,
        left,
        clock,
        right,
        resets,
    };
    Ok((e, cut.taken))
}

/// What normal form does not allow first in an equation's right side becomes a variable. At true there
/// is nothing, and all is as it was.
fn name_one(
    alloc: Global,
    types: &[TypeDec],
    before: &[CoreNode],
    after: &[CoreNode],
    e: CoreEquation,
    rest: &mut Unsettled,
    names: &mut NewNames,
) -> Result<(CoreEquation, bool), Memory>
    requires { CanBeNamed names.old (core_around types.now before.now after.now (with_one e rest.old)) }
    ensures { IfOk result (λ r. MovesOnce types.now before.now after.now names.new e rest.old r.0 rest.new r.1) }
{
    let x = names.next(alloc)?;
    let (e, taken) = cut_equation(alloc, e, &x)?;
    match taken {
        None => Ok((e, true)),
        Some(taken) => {
            add_variable(
                alloc,
                types,
                before,
                after,
                x,
                taken,
                e.resets.as_slice(),
                rest,
            )?;
            Ok((e, false))
        }
    }
}

/// Namings until an equation's right side is in normal form.
fn settle(
    alloc: Global,
    types: &[TypeDec],
    before: &[CoreNode],
    after: &[CoreNode],
    e: CoreEquation,
    rest: &mut Unsettled,
    names: &mut NewNames,
) -> Result<CoreEquation, Memory>
    requires { CanBeNamed names.old (core_around types.now before.now after.now (with_one e rest.old)) }
    ensures { IfOk result (λ f. Settles types.now before.now after.now names.new e rest.old f rest.new) }
{
    let mut e = e;
    'namings: loop {
        let (f, settled) = name_one(alloc, types, before, after, e, rest, names)?;
        if settled {
            return Ok(f);
        }
        e = f;
    }
}

/// Namings until all right sides of a node are in normal form.
fn normalise_node(
    alloc: Global,
    types: &[TypeDec],
    before: &[CoreNode],
    after: &[CoreNode],
    node: CoreNode,
    names: &mut NewNames,
) -> Result<CoreNode, Memory>
    requires { CanBeNamed names.old (core_around types.now before.now after.now node) }
    ensures { IfOk result (λ other. Normalises types.now before.now after.now names.new node other) }
{
    let CoreNode {
        name,
        inputs,
        outputs,
        locals,
        equations,
    } = node;
    let node = CoreNode {
        name,
        inputs,
        outputs,
        locals,
        equations: Items::new(alloc),
    };
    let left = equations;
    let mut rest = Unsettled { node, left };
    'equations: while !rest.left.is_empty() {
        let e = rest.left.remove(0);
        let e = settle(alloc, types, before, after, e, &mut rest, names)?;
        rest.node.equations.push(e)?;
    }
    let Unsettled { node, left: _left } = rest;
    Ok(node)
}

/// A core in normal form: each memory operator, call and get stands at the top of a right side, over
/// variables and constants. What did not stand so is the right side of a new variable, on the clock on
/// which it stood and with the resets of its equation. It fails only for want of memory.
pub fn normalise(alloc: Global, core: Core) -> Result<Core, Memory>
    requires well_formed { IsWellFormed core }
    requires acyclic { HasNoCoreCycle core }
    ensures normalised { IfOk result (λ other. IsNormalised core other) }
    ensures namings { IfOk result (Namings core) }
    ensures still { IsNormal core → IfOk result (λ other. other ≡ core) }
    ensures facts { StaticCore core → IfOk result StaticCore }
{
    naming_facts_laws();
    let mut names = NewNames::of(alloc, &core)?;
    let Core { types, nodes } = core;
    let mut left = nodes;
    let mut done = Items::new(alloc);
    'nodes: while !left.is_empty() {
        let node = left.remove(0);
        let before = done.as_slice();
        let after = left.as_slice();
        let node = normalise_node(alloc, types.as_slice(), before, after, node, &mut names)?;
        done.push(node)?;
    }
    Ok(Core { types, nodes: done })
}
