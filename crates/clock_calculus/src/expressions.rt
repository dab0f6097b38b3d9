//! The conditions of expressions.
ghost use Rattle.std.specs.Prelude.{◌≡◌, OnOk, if◌then◌else◌};
ghost use Rattle.hept_ast.specs.Clocks.{Inner, Of, On, read_clock, term_of};
ghost use Rattle.hept_ast.specs.Texts.{is_in};
ghost use Rattle.clock_calculus.specs.Collecting.{after_form, after_outer, after_reading, collection, expected};
ghost use Rattle.clock_calculus.specs.Sites.{own_of};
ghost use Rattle.clock_calculus.specs.Written.{base_term, clock_term};

use crate::conditions::{Base, Clock, Collected, Step};
use crate::scope::Scope;
use hept_ast::{Expr, Form, Memory, Name, Place, Tag};

/// The clock of a variable that is read: one from outside is on the base clock.
fn read_clock<'a>(scope: &Scope<'a>, name: &'a Name) -> Base<'a>
    ensures { base_term result ≡ read_clock (own_of scope.now) name.now }
{
    if scope.declares(name) {
        Base::Variable(name)
    } else {
        Base::Empty
    }
}

fn own_or<'a>(scope: &Scope<'a>, name: &'a Name, number: usize) -> Base<'a>
    ensures { base_term result ≡ (if is_in name.now (own_of scope.now) then Of name.now else Inner number) }
{
    if scope.declares(name) {
        Base::Variable(name)
    } else {
        Base::Expression(number)
    }
}

/// The clock of the expression of a number.
#[tactic(auto, using(crate::proofs::Collected::terms_of))]
pub(crate) fn base_of<'a>(scope: &Scope<'a>, number: usize, form: &'a Form) -> Base<'a>
    ensures { base_term result ≡ term_of (own_of scope.now) number form.now }
{
    match form {
        Form::Var(x) => own_or(scope, x, number),
        Form::Last(x) => own_or(scope, x, number),
        Form::Const(_) => Base::Expression(number),
        Form::Unary(_, _) => Base::Expression(number),
        Form::Binary(_, _, _) => Base::Expression(number),
        Form::If(_, _, _) => Base::Expression(number),
        Form::Fby(_, _) => Base::Expression(number),
        Form::Pre(_) => Base::Expression(number),
        Form::Arrow(_, _) => Base::Expression(number),
        Form::When(_, _, _) => Base::Expression(number),
        Form::Merge(_, _) => Base::Expression(number),
        Form::Call(_, _) => Base::Expression(number),
        Form::AsyncCall(_, _, _) => Base::Expression(number),
        Form::AsyncConst(_) => Base::Expression(number),
        Form::Get(_) => Base::Expression(number),
    }
}

/// A variable from outside is on the base clock of its own scope.
#[tactic(auto, using(crate::proofs::Collected::readings))]
fn push_outer<'a>(
    out: &mut Collected<'a>,
    scope: &Scope<'a>,
    place: Place,
    name: &'a Name,
) -> Result<(), Memory>
    ensures { OnOk result (collection out.new ≡ after_outer (own_of scope.now) (collection out.old) place.0 name.now) }
{
    if scope.declares(name) {
        Ok(())
    } else {
        out.equal(place, Base::Variable(name), Base::Empty.bare())
    }
}

/// A variable from outside is on the base clock, in its own scope and here.
#[tactic(auto, using(crate::proofs::Collected::readings))]
fn push_reading<'a>(
    out: &mut Collected<'a>,
    scope: &Scope<'a>,
    place: Place,
    number: usize,
    name: &'a Name,
) -> Result<(), Memory>
    ensures { OnOk result (collection out.new ≡ after_reading (own_of scope.now) (collection out.old) place.0 number name.now) }
{
    if scope.declares(name) {
        return Ok(());
    }
    out.equal(place, Base::Variable(name), Base::Empty.bare())?;
    out.equal(place, Base::Expression(number), Base::Empty.bare())
}

/// The next operand of a construct has to be on a clock.
pub(crate) fn push_expected<'a>(
    out: &mut Collected<'a>,
    scope: &Scope<'a>,
    place: Place,
    on: Clock<'a>,
    operand: &'a Expr,
) -> Result<(), Memory>
    ensures { OnOk result (collection out.new ≡ expected (own_of scope.now) place.0 (clock_term on.entry) (collection out.old) operand.now) }
{
    let base = base_of(scope, out.expressions, &operand.form);
    out.equal(place, base, on)
}

/// The clock of a branch of a merge, or of a `when`.
fn on_step<'a>(base: Base<'a>, tag: &'a Tag, name: &'a Name) -> Clock<'a>
    ensures { clock_term result ≡ On (base_term base.entry) tag.now name.now }
{
    let step = Step { tag, name };
    Clock {
        base,
        step: Some(step),
    }
}

/// Collects the conditions of an expression and of all those inside it.
#[tactic(auto, using(crate::proofs::Collected::forms))]
pub(crate) fn push_expression<'a>(
    out: &mut Collected<'a>,
    scope: &Scope<'a>,
    e: &'a Expr,
) -> Result<(), Memory>
    ensures { OnOk result (collection out.new ≡ after_form (own_of scope.now) (collection out.old) e.now.place.0 e.now.form) }
{
    let place = e.place;
    let number = out.next()?;
    let result = Base::Expression(number);
    let on = result.bare();
    match &e.form {
        Form::Const(_) => Ok(()),
        Form::Var(x) => push_reading(out, scope, place, number, x),
        Form::Last(x) => push_reading(out, scope, place, number, x),
        Form::Unary(_, a) => {
            push_expected(out, scope, place, on, a.get())?;
            push_expression(out, scope, a.get())
        }
        Form::Binary(_, a, b) => {
            push_expected(out, scope, place, on, a.get())?;
            push_expression(out, scope, a.get())?;
            push_expected(out, scope, place, on, b.get())?;
            push_expression(out, scope, b.get())
        }
        Form::If(c, a, b) => {
            push_expected(out, scope, place, on, c.get())?;
            push_expression(out, scope, c.get())?;
            push_expected(out, scope, place, on, a.get())?;
            push_expression(out, scope, a.get())?;
            push_expected(out, scope, place, on, b.get())?;
            push_expression(out, scope, b.get())
        }
        Form::Fby(a, b) => {
            push_expected(out, scope, place, on, a.get())?;
            push_expression(out, scope, a.get())?;
            push_expected(out, scope, place, on, b.get())?;
            push_expression(out, scope, b.get())
        }
        Form::Pre(a) => {
            push_expected(out, scope, place, on, a.get())?;
            push_expression(out, scope, a.get())
        }
        Form::Arrow(a, b) => {
            push_expected(out, scope, place, on, a.get())?;
            push_expression(out, scope, a.get())?;
            push_expected(out, scope, place, on, b.get())?;
            push_expression(out, scope, b.get())
        }
        Form::When(a, tag, x) => {
            let base = read_clock(scope, x);
            push_expected(out, scope, place, base.bare(), a.get())?;
            push_expression(out, scope, a.get())?;
            out.equal(place, result, on_step(base, tag, x))?;
            push_outer(out, scope, place, x)
        }
        Form::Merge(x, branches) => {
            let base = read_clock(scope, x);
            out.equal(place, result, base.bare())?;
            push_outer(out, scope, place, x)?;
            for branch in branches.as_slice() {
                let on = on_step(base, &branch.tag, x);
                push_expected(out, scope, place, on, &branch.value)?;
                push_expression(out, scope, &branch.value)?;
            }
            Ok(())
        }
        Form::Call(_, args) => {
            for arg in args.as_slice() {
                push_expected(out, scope, place, on, arg)?;
                push_expression(out, scope, arg)?;
            }
            Ok(())
        }
        Form::AsyncCall(_, _, args) => {
            for arg in args.as_slice() {
                push_expected(out, scope, place, on, arg)?;
                push_expression(out, scope, arg)?;
            }
            Ok(())
        }
        Form::AsyncConst(_) => Ok(()),
        Form::Get(a) => {
            push_expected(out, scope, place, on, a.get())?;
            push_expression(out, scope, a.get())
        }
    }
}
