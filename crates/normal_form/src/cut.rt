//! Subexpressions taken out of an expression, with a variable in their place.
ghost use Rattle.std.specs.Prelude.{◌≡◌, ◌-◌, ◌∷◌, ◌++◌, [], IfOk, None, Some, length, take};
ghost use Rattle.hept_ast.specs.declared.tree.Form.TheVariants as form;
ghost use Rattle.hept_ast.specs.declared.tree.Form.{out-Form};
ghost use Rattle.core_naming.specs.Names.{variable_at};
ghost use Rattle.core_naming.specs.Normal.{is_simple, is_step};
ghost use Rattle.normal_form.specs.Cuts.{
  CutsArguments,
  CutsBranch,
  CutsBranches,
  CutsOperand,
  CutsOperands,
  CutsRight,
  CutsStep,
  CutsTwo,
};

use hept_ast::{
    BinaryOp, ClockPath, ClockStep, Expr, Form, Memory, MergeBranch, Name, Place, Tag, UnaryOp,
    copy_clock, copy_name, copy_tag,
};
use sqlite_items::{Boxed, Items};
use std::alloc::Global;

/// A subexpression, and the clock on which it stands.
#[derive(Drop)]
pub(crate) struct Taken {
    pub named: Expr,
    pub clock: ClockPath,
}

/// An expression, where something was taken with a variable in its place.
#[derive(Drop)]
pub(crate) struct Cut {
    pub right: Expr,
    pub taken: Option<Taken>,
}

fn cut_at(place: Place, form: Form, taken: Option<Taken>) -> Cut
    ensures { result ≡ record { right = record { place = place; form = form }; taken = taken } }
{
    let right = Expr { place, form };
    Cut { right, taken }
}

/// All of an expression.
fn all_of(alloc: Global, e: Expr, clock: &ClockPath, x: &Name) -> Result<Cut, Memory>
    ensures { IfOk result (λ cut. cut ≡ record { right = variable_at e.place x.now; taken = Some (record { named = e; clock = clock.now }) }) }
{
    let place = e.place;
    let form = Form::Var(copy_name(alloc, x)?);
    let clock = copy_clock(alloc, clock)?;
    let taken = Some(Taken { named: e, clock });
    let right = Expr { place, form };
    Ok(Cut { right, taken })
}

fn is_step(form: &Form) -> bool
    ensures { result ≡ is_step (out-Form form.now) }
{
    matches!(
        form,
        Form::Fby(..)
            | Form::Pre(..)
            | Form::Arrow(..)
            | Form::Call(..)
            | Form::AsyncCall(..)
            | Form::Get(..)
    )
}

fn is_simple(form: &Form) -> bool
    ensures { result ≡ is_simple (out-Form form.now) }
{
    matches!(form, Form::Const(..) | Form::Var(..) | Form::AsyncConst(..))
}

/// An operand.
#[cycle(cutting)]
fn cut_boxed(
    alloc: Global,
    a: Boxed<Expr>,
    clock: &ClockPath,
    x: &Name,
) -> Result<(Boxed<Expr>, Option<Taken>), Memory>
    ensures { IfOk result (λ r. CutsStep x.now clock.now.steps a r.0 r.1) }
{
    let cut = cut_step(alloc, a.into_inner(), clock, x)?;
    Ok((Boxed::new(alloc, cut.right)?, cut.taken))
}

/// Two operands, of which at most one has something taken.
#[cycle(cutting)]
fn cut_two(
    alloc: Global,
    a: Boxed<Expr>,
    b: Boxed<Expr>,
    clock: &ClockPath,
    x: &Name,
) -> Result<(Boxed<Expr>, Boxed<Expr>, Option<Taken>), Memory>
    ensures { IfOk result (λ r. CutsTwo x.now clock.now.steps a b r.0 r.1 r.2) }
{
    let (a, taken) = cut_boxed(alloc, a, clock, x)?;
    if taken.is_some() {
        return Ok((a, b, taken));
    }
    let (b, taken) = cut_boxed(alloc, b, clock, x)?;
    Ok((a, b, taken))
}

/// The clock below a sampling: without its last step.
fn shorter(alloc: Global, clock: &ClockPath) -> Result<ClockPath, Memory>
    ensures { IfOk result (λ r. r.steps ≡ take (length clock.now.steps - 1) clock.now.steps) }
{
    let ClockPath { steps } = copy_clock(alloc, clock)?;
    let mut steps = steps;
    let _last = steps.pop();
    Ok(ClockPath { steps })
}

/// The clock of a branch of a merge over `y`: one step longer.
fn longer(alloc: Global, clock: &ClockPath, tag: &Tag, y: &Name) -> Result<ClockPath, Memory>
    ensures { IfOk result (λ r. r.steps ≡ clock.now.steps ++ record { tag = tag.now; name = y.now } ∷ []) }
{
    let ClockPath { steps } = copy_clock(alloc, clock)?;
    let mut steps = steps;
    let tag = copy_tag(alloc, tag)?;
    let name = copy_name(alloc, y)?;
    steps.push(ClockStep { tag, name })?;
    Ok(ClockPath { steps })
}

#[cycle(cutting)]
fn cut_unary(
    alloc: Global,
    place: Place,
    op: UnaryOp,
    a: Boxed<Expr>,
    clock: &ClockPath,
    x: &Name,
) -> Result<Cut, Memory>
    ensures { IfOk result (λ cut. CutsStep x.now clock.now.steps (record { place = place; form = form.Unary op a }) cut.right cut.taken) }
{
    let (a, taken) = cut_boxed(alloc, a, clock, x)?;
    Ok(cut_at(place, Form::Unary(op, a), taken))
}

#[cycle(cutting)]
fn cut_binary(
    alloc: Global,
    place: Place,
    op: BinaryOp,
    a: Boxed<Expr>,
    b: Boxed<Expr>,
    clock: &ClockPath,
    x: &Name,
) -> Result<Cut, Memory>
    ensures { IfOk result (λ cut. CutsStep x.now clock.now.steps (record { place = place; form = form.Binary op a b }) cut.right cut.taken) }
{
    let (a, b, taken) = cut_two(alloc, a, b, clock, x)?;
    Ok(cut_at(place, Form::Binary(op, a, b), taken))
}

#[cycle(cutting)]
fn cut_if(
    alloc: Global,
    place: Place,
    c: Boxed<Expr>,
    a: Boxed<Expr>,
    b: Boxed<Expr>,
    clock: &ClockPath,
    x: &Name,
) -> Result<Cut, Memory>
    ensures { IfOk result (λ cut. CutsStep x.now clock.now.steps (record { place = place; form = form.If c a b }) cut.right cut.taken) }
{
    let (c, a, taken) = cut_two(alloc, c, a, clock, x)?;
    if taken.is_some() {
        return Ok(cut_at(place, Form::If(c, a, b), taken));
    }
    let (b, taken) = cut_boxed(alloc, b, clock, x)?;
    Ok(cut_at(place, Form::If(c, a, b), taken))
}

#[cycle(cutting)]
fn cut_when(
    alloc: Global,
    place: Place,
    a: Boxed<Expr>,
    tag: Tag,
    y: Name,
    clock: &ClockPath,
    x: &Name,
) -> Result<Cut, Memory>
    ensures { IfOk result (λ cut. CutsStep x.now clock.now.steps (record { place = place; form = form.When a tag y }) cut.right cut.taken) }
{
    let inner = shorter(alloc, clock)?;
    let (a, taken) = cut_boxed(alloc, a, &inner, x)?;
    Ok(cut_at(place, Form::When(a, tag, y), taken))
}

#[cycle(cutting)]
fn cut_merge(
    alloc: Global,
    place: Place,
    y: Name,
    branches: Items<MergeBranch>,
    clock: &ClockPath,
    x: &Name,
) -> Result<Cut, Memory>
    ensures { IfOk result (λ cut. CutsStep x.now clock.now.steps (record { place = place; form = form.Merge y branches }) cut.right cut.taken) }
{
    let (branches, taken) = cut_branches(alloc, branches, &y, clock, x)?;
    Ok(cut_at(place, Form::Merge(y, branches), taken))
}

/// The first memory operator, call or get of an expression is taken.
#[cycle(cutting)]
fn cut_step(alloc: Global, e: Expr, clock: &ClockPath, x: &Name) -> Result<Cut, Memory>
    ensures { IfOk result (λ cut. CutsStep x.now clock.now.steps e cut.right cut.taken) }
{
    if is_step(&e.form) {
        return all_of(alloc, e, clock, x);
    }
    let Expr { place, form } = e;
    match form {
        Form::Unary(op, a) => cut_unary(alloc, place, op, a, clock, x),
        Form::Binary(op, a, b) => cut_binary(alloc, place, op, a, b, clock, x),
        Form::If(c, a, b) => cut_if(alloc, place, c, a, b, clock, x),
        Form::When(a, tag, y) => cut_when(alloc, place, a, tag, y, clock, x),
        Form::Merge(y, branches) => cut_merge(alloc, place, y, branches, clock, x),
        other => Ok(cut_at(place, other, None)),
    }
}

/// A branch of a merge over `y`.
#[cycle(cutting)]
fn cut_branch(
    alloc: Global,
    branch: MergeBranch,
    y: &Name,
    clock: &ClockPath,
    x: &Name,
) -> Result<(MergeBranch, Option<Taken>), Memory>
    ensures { IfOk result (λ r. CutsBranch x.now y.now clock.now.steps branch r.0 r.1) }
{
    let MergeBranch { place, tag, value } = branch;
    let inner = longer(alloc, clock, &tag, y)?;
    let cut = cut_step(alloc, value, &inner, x)?;
    let value = cut.right;
    Ok((MergeBranch { place, tag, value }, cut.taken))
}

/// Branches of a merge over `y`, of which at most one has something taken.
#[cycle(cutting)]
fn cut_branches(
    alloc: Global,
    branches: Items<MergeBranch>,
    y: &Name,
    clock: &ClockPath,
    x: &Name,
) -> Result<(Items<MergeBranch>, Option<Taken>), Memory>
    ensures { IfOk result (λ r. CutsBranches x.now y.now clock.now.steps branches r.0 r.1) }
{
    let mut left = branches;
    let mut done = Items::new(alloc);
    'branches: while !left.is_empty() {
        let (branch, taken) = cut_branch(alloc, left.remove(0), y, clock, x)?;
        done.push(branch)?;
        if taken.is_some() {
            done.append(left)?;
            return Ok((done, taken));
        }
    }
    Ok((done, None))
}

/// The first operand that is no variable or constant is taken.
fn cut_operand(
    alloc: Global,
    a: Boxed<Expr>,
    clock: &ClockPath,
    x: &Name,
) -> Result<(Boxed<Expr>, Option<Taken>), Memory>
    ensures { IfOk result (λ r. CutsOperand x.now clock.now.steps a r.0 r.1) }
{
    if is_simple(&a.get().form) {
        return Ok((a, None));
    }
    let cut = all_of(alloc, a.into_inner(), clock, x)?;
    Ok((Boxed::new(alloc, cut.right)?, cut.taken))
}

fn cut_operands(
    alloc: Global,
    a: Boxed<Expr>,
    b: Boxed<Expr>,
    clock: &ClockPath,
    x: &Name,
) -> Result<(Boxed<Expr>, Boxed<Expr>, Option<Taken>), Memory>
    ensures { IfOk result (λ r. CutsOperands x.now clock.now.steps a b r.0 r.1 r.2) }
{
    let (a, taken) = cut_operand(alloc, a, clock, x)?;
    if taken.is_some() {
        return Ok((a, b, taken));
    }
    let (b, taken) = cut_operand(alloc, b, clock, x)?;
    Ok((a, b, taken))
}

fn cut_arguments(
    alloc: Global,
    args: Items<Expr>,
    clock: &ClockPath,
    x: &Name,
) -> Result<(Items<Expr>, Option<Taken>), Memory>
    ensures { IfOk result (λ r. CutsArguments x.now clock.now.steps args r.0 r.1) }
{
    let mut left = args;
    let mut done = Items::new(alloc);
    'arguments: while !left.is_empty() {
        let e = left.remove(0);
        if is_simple(&e.form) {
            done.push(e)?;
        } else {
            let cut = all_of(alloc, e, clock, x)?;
            done.push(cut.right)?;
            done.append(left)?;
            return Ok((done, cut.taken));
        }
    }
    Ok((done, None))
}

fn cut_fby(
    alloc: Global,
    place: Place,
    a: Boxed<Expr>,
    b: Boxed<Expr>,
    clock: &ClockPath,
    x: &Name,
) -> Result<Cut, Memory>
    ensures { IfOk result (λ cut. CutsRight x.now clock.now.steps (record { place = place; form = form.Fby a b }) cut.right cut.taken) }
{
    let (a, b, taken) = cut_operands(alloc, a, b, clock, x)?;
    Ok(cut_at(place, Form::Fby(a, b), taken))
}

fn cut_pre(
    alloc: Global,
    place: Place,
    a: Boxed<Expr>,
    clock: &ClockPath,
    x: &Name,
) -> Result<Cut, Memory>
    ensures { IfOk result (λ cut. CutsRight x.now clock.now.steps (record { place = place; form = form.Pre a }) cut.right cut.taken) }
{
    let (a, taken) = cut_operand(alloc, a, clock, x)?;
    Ok(cut_at(place, Form::Pre(a), taken))
}

fn cut_arrow(
    alloc: Global,
    place: Place,
    a: Boxed<Expr>,
    b: Boxed<Expr>,
    clock: &ClockPath,
    x: &Name,
) -> Result<Cut, Memory>
    ensures { IfOk result (λ cut. CutsRight x.now clock.now.steps (record { place = place; form = form.Arrow a b }) cut.right cut.taken) }
{
    let (a, b, taken) = cut_operands(alloc, a, b, clock, x)?;
    Ok(cut_at(place, Form::Arrow(a, b), taken))
}

fn cut_call(
    alloc: Global,
    place: Place,
    f: Name,
    args: Items<Expr>,
    clock: &ClockPath,
    x: &Name,
) -> Result<Cut, Memory>
    ensures { IfOk result (λ cut. CutsRight x.now clock.now.steps (record { place = place; form = form.Call f args }) cut.right cut.taken) }
{
    let (args, taken) = cut_arguments(alloc, args, clock, x)?;
    Ok(cut_at(place, Form::Call(f, args), taken))
}

fn cut_async_call(
    alloc: Global,
    place: Place,
    queue: u32,
    f: Name,
    args: Items<Expr>,
    clock: &ClockPath,
    x: &Name,
) -> Result<Cut, Memory>
    ensures { IfOk result (λ cut. CutsRight x.now clock.now.steps (record { place = place; form = form.AsyncCall queue f args }) cut.right cut.taken) }
{
    let (args, taken) = cut_arguments(alloc, args, clock, x)?;
    Ok(cut_at(place, Form::AsyncCall(queue, f, args), taken))
}

fn cut_get(
    alloc: Global,
    place: Place,
    a: Boxed<Expr>,
    clock: &ClockPath,
    x: &Name,
) -> Result<Cut, Memory>
    ensures { IfOk result (λ cut. CutsRight x.now clock.now.steps (record { place = place; form = form.Get a }) cut.right cut.taken) }
{
    let (a, taken) = cut_operand(alloc, a, clock, x)?;
    Ok(cut_at(place, Form::Get(a), taken))
}

/// What normal form does not allow where it stands in a right side: the first such subexpression is taken.
pub(crate) fn cut_right(alloc: Global, e: Expr, clock: &ClockPath, x: &Name) -> Result<Cut, Memory>
    ensures { IfOk result (λ cut. CutsRight x.now clock.now.steps e cut.right cut.taken) }
{
    let Expr { place, form } = e;
    match form {
        Form::Fby(a, b) => cut_fby(alloc, place, a, b, clock, x),
        Form::Pre(a) => cut_pre(alloc, place, a, clock, x),
        Form::Arrow(a, b) => cut_arrow(alloc, place, a, b, clock, x),
        Form::Call(f, args) => cut_call(alloc, place, f, args, clock, x),
        Form::AsyncCall(queue, f, args) => cut_async_call(alloc, place, queue, f, args, clock, x),
        Form::Get(a) => cut_get(alloc, place, a, clock, x),
        other => cut_step(alloc, Expr { place, form: other }, clock, x),
    }
}
