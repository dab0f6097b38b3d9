//! The bodies of a node's expanded text.
ghost use Rattle.std.specs.Prelude.{◌≡◌, ◌+◌, ◌<◌, ◌^◌, All, Contains, IfOk, List, OnOk, length};
ghost use Rattle.hept_ast.specs.Texts.{names};
ghost use Rattle.hept_ast.specs.declared.tree.CoreEquation.{CoreEquation};
ghost use Rattle.hept_ast.specs.declared.tree.CoreNode.{CoreNode};
ghost use Rattle.hept_ast.specs.declared.tree.Expr.{Expr};
ghost use Rattle.hept_ast.specs.declared.tree.Form.{out-Form};
ghost use Rattle.plan_expressions.specs.Computable.{Computable};
ghost use Rattle.plan_equations.specs.Equations.{AreKnown};
ghost use Rattle.plan_equations.specs.Rights.{right_cells};
ghost use Rattle.plan_bodies.specs.Buildable.{AreBuildable, IsBuildable, IsCallOf, variables_of};
ghost use Rattle.plan_bodies.specs.Expansions.{BuildsBodies, CountsCells, IsWhole, KeepsBodies};
ghost use Rattle.plan_bodies.specs.Valued.{BuildsCall, BuildsNext, BuildsValues, CountsNext, CountsValues, IsNext, KeepsNext, KeepsValues, cells_of};

use crate::arguments::{argument_registers, output_registers};
use crate::callees::callee;
use crate::cells::{own_cell_count, right_cell_count};
use crate::names::variables;
use hept_ast::{Core, CoreEquation, CoreNode, Expr, Form, Memory, Name};
use plan_equations::{emit_equation, emit_presences};
use plan_expressions::Draft;
use sqlite_items::Items;
use std::alloc::{AllocError, Global};

/// A body of the expanded text with its values.
#[derive(Drop)]
pub struct PlacedBody<'a> {
    pub node: &'a CoreNode,
    pub variables: Items<Name>,
    /// Of each variable the number of its value.
    pub registers: Vec<u32>,
    /// Of each equation the presence of its clock.
    pub presences: Vec<u32>,
}

/// What is built of a node's body and of those of the nodes that it calls.
#[derive(Drop)]
pub struct Expansion<'a> {
    pub bodies: Items<PlacedBody<'a>>,
    /// The values of the outputs.
    pub outputs: Vec<u32>,
    /// The cell after theirs.
    pub next: u32,
}

/// What an equation adds besides its values.
#[derive(Drop)]
struct Added<'a> {
    /// The presence of its clock.
    presence: u32,
    /// The bodies of what it calls.
    bodies: Items<PlacedBody<'a>>,
    /// The cell after theirs.
    next: u32,
}

/// What the equations of a body add.
#[derive(Drop)]
struct Values<'a> {
    /// Of each variable the number of its value.
    registers: Vec<u32>,
    /// Of each equation the presence of its clock.
    presences: Vec<u32>,
    /// The bodies of what they call.
    inner: Items<PlacedBody<'a>>,
    /// The cell after theirs.
    next: u32,
}

/// Adds the presences of a call's clock, its arguments and the body of the node that it calls, whose cells
/// begin at `next`, and the values of its outputs.
#[cycle(bodies)]
fn add_call<'a>(
    alloc: Global,
    core: &'a Core,
    callee: &'a CoreNode,
    e: &CoreEquation,
    args: &[Expr],
    depth: usize,
    base: u32,
    variables: &[Name],
    registers: &mut Vec<u32>,
    next: u32,
    draft: &mut Draft,
) -> Result<Added<'a>, Memory>
    requires known { length registers.old.items ≡ length variables.now }
    requires among { AreKnown variables.now e.now.clock.steps }
    requires arguments { All (Computable core.now.types variables.now 0) args.now }
    requires inputs { length args.now ≡ length callee.now.inputs }
    requires buildable { IsBuildable core.now depth callee.now }
    ensures builds { IfOk result (λ x. BuildsCall core.now depth variables.now next base e.now args.now callee.now registers.old.items draft.old registers.new.items draft.new x.presence x.bodies) }
    ensures longer { OnOk result (length registers.new.items ≡ length registers.old.items + length callee.now.outputs) }
    ensures cells { IfOk result (λ x. CountsCells core.now depth callee.now next x.next) }
    ensures whole { IfOk result (λ x. All (IsWhole core.now) x.bodies) }
    ensures within { IfOk result (λ x. KeepsNext 0 x.next base registers.old.items draft.old registers.new.items draft.new x.presence x.bodies) }
{
    let types = core.types.as_slice();
    let clock = e.clock.steps.as_slice();
    let presences = emit_presences(
        alloc,
        base,
        clock,
        types,
        variables,
        registers.as_slice(),
        draft,
    )?;
    let presence = presences[clock.len()];
    let inputs = argument_registers(alloc, args, types, variables, registers.as_slice(), draft)?;
    let expansion = add_body(alloc, core, callee, depth, presence, inputs, next, draft)?;
    let Expansion {
        bodies,
        mut outputs,
        next,
    } = expansion;
    registers.append(&mut outputs)?;
    Ok(Added {
        presence,
        bodies,
        next,
    })
}

/// Adds an equation of a body. Its own cells begin at `own`, and those of what it calls at `next`.
#[cycle(bodies)]
fn add_equation<'a>(
    alloc: Global,
    core: &'a Core,
    e: &CoreEquation,
    depth: usize,
    base: u32,
    variables: &[Name],
    registers: &mut Vec<u32>,
    own: u32,
    next: u32,
    draft: &mut Draft,
) -> Result<Added<'a>, Memory>
    requires known { length registers.old.items ≡ length variables.now }
    requires is_next { (node : CoreNode) × IsNext core.now node variables.now e.now }
    requires deep { (args : List Expr) (callee : CoreNode) → IsCallOf core.now e.now args callee → IsBuildable core.now depth callee }
    requires room { own + 1 < 2 ^ 32 }
    ensures builds { IfOk result (λ x. BuildsNext core.now depth variables.now own next base e.now registers.old.items draft.old registers.new.items draft.new x.presence x.bodies) }
    ensures longer { OnOk result (length registers.new.items ≡ length registers.old.items + length e.now.left) }
    ensures cells { IfOk result (λ x. CountsNext core.now depth e.now next x.next) }
    ensures whole { IfOk result (λ x. All (IsWhole core.now) x.bodies) }
    ensures within { IfOk result (λ x. KeepsNext (own + right_cells (out-Form e.now.right.form)) x.next base registers.old.items draft.old registers.new.items draft.new x.presence x.bodies) }
{
    match &e.right.form {
        Form::Call(name, args) => add_call(
            alloc,
            core,
            callee(core, name),
            e,
            args.as_slice(),
            depth,
            base,
            variables,
            registers,
            next,
            draft,
        ),
        _ => {
            let types = core.types.as_slice();
            let presence = emit_equation(alloc, base, e, types, variables, registers, own, draft)?;
            Ok(Added {
                presence,
                bodies: Items::new(alloc),
                next,
            })
        }
    }
}

/// Adds the equations of a body in their order. Their own cells begin at `cell`, and those of what they call
/// at `first`, where no chain of calls has more nodes than the depth.
#[cycle(bodies)]
fn add_equations<'a>(
    alloc: Global,
    core: &'a Core,
    node: &CoreNode,
    depth: usize,
    base: u32,
    inputs: Vec<u32>,
    variables: &[Name],
    cell: u32,
    first: u32,
    draft: &mut Draft,
) -> Result<Values<'a>, Memory>
    requires variables { variables.now ≡ variables_of node.now }
    requires inputs { length inputs.items ≡ length node.now.inputs }
    requires equations { AreBuildable core.now node.now (names node.now.inputs) node.now.equations }
    requires deep { (e : CoreEquation) (args : List Expr) (callee : CoreNode) → Contains node.now.equations e → IsCallOf core.now e args callee → IsBuildable core.now depth callee }
    requires cells { first ≡ cell + cells_of node.now.equations }
    requires room { first + 1 < 2 ^ 32 }
    ensures builds { IfOk result (λ x. BuildsValues core.now depth node.now cell first base inputs.items draft.old x.registers.items draft.new x.presences.items x.inner) }
    ensures cells { IfOk result (λ x. CountsValues core.now depth node.now.equations first x.next) }
    ensures registers { IfOk result (λ x. length x.registers.items ≡ length variables.now) }
    ensures presences { IfOk result (λ x. length x.presences.items ≡ length node.now.equations) }
    ensures whole { IfOk result (λ x. All (IsWhole core.now) x.inner) }
    ensures within { IfOk result (λ x. KeepsValues x.next base inputs.items draft.old x.registers.items draft.new x.presences.items x.inner) }
{
    let mut registers = inputs;
    let mut presences = Vec::new(alloc);
    let mut inner = Items::new(alloc);
    let mut own = cell;
    let mut next = first;
    for e in node.equations.as_slice() {
        let known = &variables[..registers.len()];
        let added = add_equation(
            alloc,
            core,
            e,
            depth,
            base,
            known,
            &mut registers,
            own,
            next,
            draft,
        )?;
        let Added {
            presence,
            bodies,
            next: after,
        } = added;
        presences.push(presence).map_err(AllocError::from)?;
        inner.append(bodies)?;
        own += right_cell_count(&e.right);
        next = after;
    }
    Ok(Values {
        registers,
        presences,
        inner,
        next,
    })
}

/// Adds the instructions of a node's equations and of those of the nodes that it calls, as deep as calls go.
/// `base` is the presence of the body's base clock, `inputs` are the values of its inputs, and its cells begin
/// at `cell`: first its own in the order of its equations, and then those of each call.
#[cycle(bodies)]
pub fn add_body<'a>(
    alloc: Global,
    core: &'a Core,
    node: &'a CoreNode,
    depth: usize,
    base: u32,
    inputs: Vec<u32>,
    cell: u32,
    draft: &mut Draft,
) -> Result<Expansion<'a>, Memory>
    requires buildable { IsBuildable core.now depth node.now }
    requires inputs { length inputs.items ≡ length node.now.inputs }
    ensures builds { IfOk result (λ x. BuildsBodies core.now depth node.now cell base inputs.items draft.old draft.new x.bodies x.outputs.items) }
    ensures cells { IfOk result (λ x. CountsCells core.now depth node.now cell x.next) }
    ensures whole { IfOk result (λ x. All (IsWhole core.now) x.bodies) }
    ensures outputs { IfOk result (λ x. length x.outputs.items ≡ length node.now.outputs) }
    ensures within { IfOk result (λ x. KeepsBodies x.next base inputs.items draft.old draft.new x.bodies x.outputs.items) }
{
    let names = variables(alloc, node)?;
    let count = own_cell_count(node)?;
    if count >= u32::MAX - cell {
        return Err(Memory);
    }
    let values = add_equations(
        alloc,
        core,
        node,
        depth - 1,
        base,
        inputs,
        names.as_slice(),
        cell,
        cell + count,
        draft,
    )?;
    let Values {
        registers,
        presences,
        inner,
        next,
    } = values;
    let outputs = output_registers(
        alloc,
        node.outputs.as_slice(),
        names.as_slice(),
        registers.as_slice(),
    )?;
    let mut bodies = Items::new(alloc);
    bodies.push(PlacedBody {
        node,
        variables: names,
        registers,
        presences,
    })?;
    bodies.append(inner)?;
    Ok(Expansion {
        bodies,
        outputs,
        next,
    })
}
