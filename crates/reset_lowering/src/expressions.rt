//! Expressions with their calls numbered.
ghost use Rattle.std.specs.Prelude.{◌≡◌, ◌++◌, ◌∷◌, [], suc, IfOk, OnOk};
ghost use Rattle.hept_ast.specs.declared.tree.Form.TheVariants as form;
ghost use Rattle.lowering_rules.specs.Lowering.{Lowers, LowersAll, LowersBranches, node_frame};

use hept_ast::{
    Expr, Form, Memory, MergeBranch, Name, Place, Tag, copy_const, copy_name, copy_tag,
};
use sqlite_items::{Boxed, Items};
use std::alloc::Global;

fn boxed(alloc: Global, value: Expr) -> Result<Boxed<Expr>, Memory>
    ensures { IfOk result (λ b. b ≡ value) }
{
    match Boxed::new(alloc, value) {
        Ok(b) => Ok(b),
        Err(_) => Err(Memory),
    }
}

fn at(place: Place, form: Form) -> Expr
    ensures { result ≡ record { place = place; form = form } }
{
    Expr { place, form }
}

/// An `if` without what stands behind its `else`.
#[derive(Drop)]
struct Choice {
    condition: Boxed<Expr>,
    chosen: Boxed<Expr>,
}

fn begun(condition: Boxed<Expr>, chosen: Boxed<Expr>) -> Choice
    ensures { (result.condition ≡ condition) × (result.chosen ≡ chosen) }
{
    Choice { condition, chosen }
}

fn ended(place: Place, choice: Choice, otherwise: Boxed<Expr>) -> Expr
    ensures { result ≡ record { place = place; form = form.If choice.condition choice.chosen otherwise } }
{
    let Choice { condition, chosen } = choice;
    at(place, Form::If(condition, chosen, otherwise))
}

fn sampled(alloc: Global, place: Place, a: Boxed<Expr>, tag: &Tag, x: &Name) -> Result<Expr, Memory>
    ensures { IfOk result (λ r. r ≡ record { place = place; form = form.When a tag.now x.now }) }
{
    let tag = copy_tag(alloc, tag)?;
    let x = copy_name(alloc, x)?;
    Ok(at(place, Form::When(a, tag, x)))
}

fn push_expr(items: &mut Items<Expr>, item: Expr) -> Result<(), Memory>
    ensures { OnOk result (items.new ≡ items.old ++ item ∷ []) }
{
    match items.push(item) {
        Ok(()) => Ok(()),
        Err(_) => Err(Memory),
    }
}

fn push_branch(items: &mut Items<MergeBranch>, item: MergeBranch) -> Result<(), Memory>
    ensures { OnOk result (items.new ≡ items.old ++ item ∷ []) }
{
    match items.push(item) {
        Ok(()) => Ok(()),
        Err(_) => Err(Memory),
    }
}

/// The number of the next call, as its place.
fn take_number(next: &mut u32) -> Result<Place, Memory>
    ensures { IfOk result (λ p. (p ≡ record { 0 = next.old }) × (next.new ≡ suc next.old)) }
{
    let number = *next;
    match number.checked_add(1) {
        Some(after) => {
            *next = after;
            Ok(Place(number))
        }
        None => Err(Memory),
    }
}

/// The expression in the core. A call has the number before those of its arguments.
#[cycle(lowering)]
pub fn lower_expr(alloc: Global, next: &mut u32, e: &Expr) -> Result<Expr, Memory>
    ensures { IfOk result (λ r. Lowers node_frame next.old e.now r next.new) }
{
    let place = e.place;
    match &e.form {
        Form::Const(k) => Ok(at(place, Form::Const(copy_const(alloc, k)?))),
        Form::Var(x) => Ok(at(place, Form::Var(copy_name(alloc, x)?))),
        Form::Last(_) => Err(Memory),
        Form::Unary(op, a) => Ok(at(place, Form::Unary(*op, lower_boxed(alloc, next, a)?))),
        Form::Binary(op, a, b) => {
            let a = lower_boxed(alloc, next, a)?;
            Ok(at(place, Form::Binary(*op, a, lower_boxed(alloc, next, b)?)))
        }
        Form::If(c, a, b) => {
            let c = lower_boxed(alloc, next, c)?;
            let a = lower_boxed(alloc, next, a)?;
            let choice = begun(c, a);
            let b = lower_boxed(alloc, next, b)?;
            Ok(ended(place, choice, b))
        }
        Form::Fby(a, b) => {
            let a = lower_boxed(alloc, next, a)?;
            Ok(at(place, Form::Fby(a, lower_boxed(alloc, next, b)?)))
        }
        Form::Pre(a) => Ok(at(place, Form::Pre(lower_boxed(alloc, next, a)?))),
        Form::Arrow(a, b) => {
            let a = lower_boxed(alloc, next, a)?;
            Ok(at(place, Form::Arrow(a, lower_boxed(alloc, next, b)?)))
        }
        Form::When(a, tag, x) => {
            let a = lower_boxed(alloc, next, a)?;
            sampled(alloc, place, a, tag, x)
        }
        Form::Merge(x, branches) => {
            let x = copy_name(alloc, x)?;
            let branches = lower_branches(alloc, next, branches.as_slice())?;
            Ok(at(place, Form::Merge(x, branches)))
        }
        Form::Call(f, args) => {
            let number = take_number(next)?;
            let f = copy_name(alloc, f)?;
            let args = lower_exprs(alloc, next, args.as_slice())?;
            Ok(at(number, Form::Call(f, args)))
        }
        Form::AsyncCall(q, f, args) => {
            let number = take_number(next)?;
            let f = copy_name(alloc, f)?;
            let args = lower_exprs(alloc, next, args.as_slice())?;
            Ok(at(number, Form::AsyncCall(*q, f, args)))
        }
        Form::AsyncConst(k) => Ok(at(place, Form::AsyncConst(copy_const(alloc, k)?))),
        Form::Get(a) => Ok(at(place, Form::Get(lower_boxed(alloc, next, a)?))),
    }
}

#[cycle(lowering)]
fn lower_boxed(alloc: Global, next: &mut u32, e: &Boxed<Expr>) -> Result<Boxed<Expr>, Memory>
    ensures { IfOk result (λ r. Lowers node_frame next.old e.now r next.new) }
{
    let lowered = lower_expr(alloc, next, e.get())?;
    boxed(alloc, lowered)
}

#[cycle(lowering)]
fn lower_exprs(alloc: Global, next: &mut u32, es: &[Expr]) -> Result<Items<Expr>, Memory>
    ensures { IfOk result (λ rs. LowersAll node_frame next.old es.now rs next.new) }
{
    let first = *next;
    let mut all: Items<Expr> = Items::new(alloc);
    for e in es {
        let e = lower_expr(alloc, next, e)?;
        push_expr(&mut all, e)?;
    }
    Ok(all)
}

#[cycle(lowering)]
fn lower_branches(
    alloc: Global,
    next: &mut u32,
    bs: &[MergeBranch],
) -> Result<Items<MergeBranch>, Memory>
    ensures { IfOk result (λ cs. LowersBranches node_frame next.old bs.now cs next.new) }
{
    let first = *next;
    let mut all: Items<MergeBranch> = Items::new(alloc);
    for b in bs {
        let tag = copy_tag(alloc, &b.tag)?;
        let value = lower_expr(alloc, next, &b.value)?;
        push_branch(
            &mut all,
            MergeBranch {
                place: b.place,
                tag,
                value,
            },
        )?;
    }
    Ok(all)
}
