//! The stores of the cells of a node's expanded text, and their first contents.
ghost use Rattle.std.specs.Prelude.{◌≡◌, [], ◌∷◌, List, All, IfOk, OnOk};
ghost use Rattle.hept_ast.specs.Scopes.{Clock};
ghost use Rattle.hept_ast.specs.declared.tree.Form.{out-Form};
ghost use Rattle.hept_ast.specs.declared.tree.TypeDec.{TypeDec};
ghost use Rattle.plan_expressions.specs.Computable.{Computable};
ghost use Rattle.plan_expressions.specs.declared.draft.Draft.{Draft};
ghost use Rattle.plan_equations.specs.Equations.{inside_of};
ghost use Rattle.plan_equations.specs.Grounds.{Body, body_memories, equation_memories, fby_memories};
ghost use Rattle.plan_bodies.specs.Expansions.{IsWhole};
ghost use Rattle.plan_bodies.specs.declared.bodies.PlacedBody.{PlacedBody};
ghost use Rattle.step_plans.specs.Things.{Presence_of, Value_of};
ghost use Rattle.plan_nodes.specs.Built.{AddsAllCells, AddsCells};
ghost use Rattle.plan_nodes.specs.Stores.{IsPresence, IsStart, IsStorable};

use hept_ast::{Core, CoreEquation, Expr, Form, Memory};
use plan_bodies::PlacedBody;
use plan_expressions::{Draft, constant, emit};
use std::alloc::{AllocError, Global};
use step_plans::Store;

/// What cells take at the end of an instant, and what they hold before the first one.
#[derive(Drop)]
pub(crate) struct Cells {
    pub(crate) stores: Vec<Store>,
    pub(crate) initial: Vec<u32>,
}

impl Cells {
    ghost use Rattle.plan_nodes.specs.Stores.{IsPushed};

    fn push(&mut self, store: Store, initial: u32) -> Result<(), Memory>
        ensures { OnOk result (IsPushed self.old self.new store initial) }
    {
        self.stores.push(store).map_err(AllocError::from)?;
        self.initial.push(initial).map_err(AllocError::from)?;
        Ok(())
    }
}

/// A cell that takes the value of an expression where its clock is present.
fn keep_value(
    alloc: Global,
    e: &Expr,
    initial: u32,
    here: u32,
    core: &Core,
    placed: &PlacedBody,
    draft: &mut Draft,
    cells: &mut Cells,
) -> Result<(), Memory>
    requires whole { IsWhole core.now placed.now }
    requires computable { Computable core.now.types placed.now.variables 0 e.now }
    ensures { OnOk result ((body : Body) (c : Clock) → IsPresence placed.now c here → AddsCells core.now.types body placed.now (Value_of e.now c (inside_of body.scope) initial ∷ []) draft.old cells.old draft.new cells.new) }
{
    let value = emit(
        alloc,
        e,
        core.types.as_slice(),
        placed.variables.as_slice(),
        placed.registers.as_slice(),
        &[],
        draft,
    )?;
    cells.push(Store::Where(here, value), initial)
}

/// A cell that takes whether there was a presence.
fn keep_presence(here: u32, cells: &mut Cells) -> Result<(), Memory>
    ensures { OnOk result ((types : List TypeDec) (body : Body) (placed : PlacedBody) (c : Clock) (draft : Draft) → IsPresence placed c here → AddsCells types body placed (Presence_of c (inside_of body.scope) ∷ []) draft cells.old draft cells.new) }
{
    cells.push(Store::Where(here, here), 0)
}

/// The cells of a `fby`: what it takes, and whether it has taken anything where it starts with no constant.
fn keep_fby(
    alloc: Global,
    start: &Expr,
    later: &Expr,
    here: u32,
    core: &Core,
    placed: &PlacedBody,
    draft: &mut Draft,
    cells: &mut Cells,
) -> Result<(), Memory>
    requires whole { IsWhole core.now placed.now }
    requires start { IsStart start.now }
    requires computable { Computable core.now.types placed.now.variables 0 later.now }
    ensures { OnOk result ((body : Body) (c : Clock) → IsPresence placed.now c here → AddsCells core.now.types body placed.now (fby_memories core.now.types (out-Form start.now.form) later.now c (inside_of body.scope)) draft.old cells.old draft.new cells.new) }
{
    match &start.form {
        Form::Const(k) => {
            let initial = constant(core.types.as_slice(), k)?;
            keep_value(alloc, later, initial, here, core, placed, draft, cells)
        }
        _ => {
            keep_value(alloc, later, 0, here, core, placed, draft, cells)?;
            keep_presence(here, cells)
        }
    }
}

/// The cells of an equation, on the presence of its clock.
fn add_store(
    alloc: Global,
    e: &CoreEquation,
    here: u32,
    core: &Core,
    placed: &PlacedBody,
    draft: &mut Draft,
    cells: &mut Cells,
) -> Result<(), Memory>
    requires whole { IsWhole core.now placed.now }
    requires storable { IsStorable core.now.types placed.now.variables e.now }
    ensures { OnOk result ((body : Body) → IsPresence placed.now e.now.clock.steps here → AddsCells core.now.types body placed.now (equation_memories core.now.types body.scope e.now) draft.old cells.old draft.new cells.new) }
{
    match &e.right.form {
        Form::Fby(a, b) => keep_fby(alloc, a.get(), b.get(), here, core, placed, draft, cells),
        Form::Pre(a) => keep_value(alloc, a.get(), 0, here, core, placed, draft, cells),
        Form::Arrow(_, _) => keep_presence(here, cells),
        _ => Ok(()),
    }
}

/// The cells of a body, in the order of its equations. Each takes where the clock of its equation is present.
fn add_body_stores(
    alloc: Global,
    core: &Core,
    placed: &PlacedBody,
    draft: &mut Draft,
    cells: &mut Cells,
) -> Result<(), Memory>
    requires { IsWhole core.now placed.now }
    ensures { OnOk result ((body : Body) → placed.now.node.now ≡ body.node → AddsCells core.now.types body placed.now (body_memories core.now.types body) draft.old cells.old draft.new cells.new) }
{
    let presences = placed.presences.as_slice();
    let equations = placed.node.equations.as_slice();
    for (k, e) in equations.iter().enumerate() {
        add_store(alloc, e, presences[k], core, placed, draft, cells)?;
    }
    Ok(())
}

/// Adds the instructions of what the memory operators take for their next instant, over all variables of their
/// bodies, and answers the stores of the cells, body by body.
pub(crate) fn add_stores(
    alloc: Global,
    core: &Core,
    bodies: &[PlacedBody],
    draft: &mut Draft,
) -> Result<Cells, Memory>
    requires { All (IsWhole core.now) bodies.now }
    ensures { IfOk result (AddsAllCells core.now.types bodies.now draft.old draft.new) }
{
    let mut cells = Cells {
        stores: Vec::new(alloc),
        initial: Vec::new(alloc),
    };
    for placed in bodies {
        add_body_stores(alloc, core, placed, draft, &mut cells)?;
    }
    Ok(cells)
}
