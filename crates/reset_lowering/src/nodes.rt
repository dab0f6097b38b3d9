//! Equations, nodes and programs in the core.
ghost use Rattle.std.specs.Prelude.{◌≡◌, ◌∷◌, [], IfOk, map, suc};
ghost use Rattle.hept_ast.specs.ClockMaps.{clock_in};
ghost use Rattle.lowering_rules.specs.Lowering.{
  LowersEquation,
  LowersEquations,
  LowersNode,
  LowersNodes,
  LowersProgram,
  clock_of_left,
  node_frame,
  without_initial,
};
ghost use Rattle.lowering_rules.specs.Ties.{core_equation};
ghost use Rattle.lowering_rules.specs.PlainPrograms.{IsPlainProgram};

use crate::expressions::lower_expr;
use hept_ast::{
    Accepted, ClockPath, Core, CoreEquation, CoreNode, Decl, Equation, Expr, Memory, Name, Node,
    NodeId, Place, copy_clock, copy_name, copy_names, copy_type, copy_types,
};
use sqlite_items::Items;
use std::alloc::Global;

fn base_clock(alloc: Global) -> ClockPath
    ensures { result.steps ≡ [] }
{
    ClockPath {
        steps: Items::new(alloc),
    }
}

fn clock_of_name(
    alloc: Global,
    accepted: &Accepted,
    node: NodeId,
    x: &Name,
) -> Result<ClockPath, Memory>
    ensures { IfOk result (λ p. p.steps ≡ clock_in accepted.now.clocks node.0 x.now) }
{
    match accepted.clock_of(node, x) {
        Some(path) => copy_clock(alloc, path),
        None => Ok(base_clock(alloc)),
    }
}

/// The clock of a left side.
fn clock_of_left(
    alloc: Global,
    accepted: &Accepted,
    node: NodeId,
    left: &[Name],
) -> Result<ClockPath, Memory>
    ensures { IfOk result (λ p. p.steps ≡ clock_of_left (clock_in accepted.now.clocks node.0) left.now) }
{
    match left.first() {
        Some(x) => clock_of_name(alloc, accepted, node, x),
        None => Ok(base_clock(alloc)),
    }
}

fn plain(
    alloc: Global,
    place: Place,
    left: Items<Name>,
    clock: ClockPath,
    right: Expr,
) -> CoreEquation
    ensures { result ≡ core_equation place left clock.steps right }
{
    CoreEquation {
        place,
        left,
        clock,
        right,
        resets: Items::new(alloc),
    }
}

/// The equation in the core. A program without automata, switches and resets has only plain ones.
fn lower_equation(
    alloc: Global,
    accepted: &Accepted,
    node: NodeId,
    next: &mut u32,
    equation: &Equation,
) -> Result<CoreEquation, Memory>
    ensures { IfOk result (λ r. LowersEquation node_frame (clock_in accepted.now.clocks node.0) next.old equation.now (r ∷ []) next.new) }
{
    match equation {
        Equation::Define { place, left, right } => {
            let names = left.as_slice();
            let clock = clock_of_left(alloc, accepted, node, names)?;
            let left = copy_names(alloc, names)?;
            let right = lower_expr(alloc, next, right)?;
            Ok(plain(alloc, *place, left, clock, right))
        }
        _ => Err(Memory),
    }
}

fn lower_equations(
    alloc: Global,
    accepted: &Accepted,
    node: NodeId,
    equations: &[Equation],
) -> Result<Items<CoreEquation>, Memory>
    ensures { IfOk result (λ cs. (end : _) × LowersEquations node_frame (clock_in accepted.now.clocks node.0) 0 equations.now cs end) }
{
    let mut next: u32 = 0;
    let mut all: Items<CoreEquation> = Items::new(alloc);
    for equation in equations {
        let lowered = lower_equation(alloc, accepted, node, &mut next, equation)?;
        all.push(lowered)?;
    }
    Ok(all)
}

fn lower_decl(alloc: Global, decl: &Decl) -> Result<Decl, Memory>
    ensures { IfOk result (λ r. r ≡ without_initial decl.now) }
{
    let name = copy_name(alloc, &decl.name)?;
    let ty = copy_type(alloc, &decl.ty)?;
    Ok(Decl {
        place: decl.place,
        name,
        ty,
        init: None,
    })
}

fn lower_decls(alloc: Global, decls: &[Decl]) -> Result<Items<Decl>, Memory>
    ensures { IfOk result (λ r. r ≡ map without_initial decls.now) }
{
    let mut all: Items<Decl> = Items::new(alloc);
    for decl in decls {
        let decl = lower_decl(alloc, decl)?;
        all.push(decl)?;
    }
    Ok(all)
}

fn lower_node(
    alloc: Global,
    accepted: &Accepted,
    id: NodeId,
    node: &Node,
) -> Result<CoreNode, Memory>
    ensures { IfOk result (λ low. LowersNode (clock_in accepted.now.clocks id.0) node.now low) }
{
    let name = copy_name(alloc, &node.name)?;
    let inputs = lower_decls(alloc, node.inputs.as_slice())?;
    let outputs = lower_decls(alloc, node.outputs.as_slice())?;
    let locals = lower_decls(alloc, node.block.locals.as_slice())?;
    let equations = lower_equations(alloc, accepted, id, node.block.body.as_slice())?;
    Ok(CoreNode {
        name,
        inputs,
        outputs,
        locals,
        equations,
    })
}

fn following(position: u32) -> Result<u32, Memory>
    ensures { IfOk result (λ p. p ≡ suc position) }
{
    match position.checked_add(1) {
        Some(after) => Ok(after),
        None => Err(Memory),
    }
}

fn lower_nodes(
    alloc: Global,
    accepted: &Accepted,
    nodes: &[Node],
) -> Result<Items<CoreNode>, Memory>
    ensures { IfOk result (λ lows. LowersNodes (clock_in accepted.now.clocks) 0 nodes.now lows) }
{
    let mut all: Items<CoreNode> = Items::new(alloc);
    let mut position: u32 = 0;
    for node in nodes {
        let lowered = lower_node(alloc, accepted, NodeId(position), node)?;
        all.push(lowered)?;
        position = following(position)?;
    }
    Ok(all)
}

/// The accepted program as a core. Each call has its number from 0, in text order, in the place of its
/// place.
pub fn lower_blocks(alloc: Global, accepted: &Accepted) -> Result<Core, Memory>
    requires plain { IsPlainProgram accepted.now.program }
    ensures lowered { IfOk result (λ core. LowersProgram accepted.now core) }
{
    let program = accepted.program();
    let types = copy_types(alloc, program.types.as_slice())?;
    let nodes = lower_nodes(alloc, accepted, program.nodes.as_slice())?;
    Ok(Core { types, nodes })
}
