//! What an equation reads of those that are left.
ghost use Rattle.std.specs.Prelude.{◌≡◌};
ghost use Rattle.std.specs.List.{list_any};
ghost use Rattle.hept_ast.specs.Causal.{reads};
ghost use Rattle.schedule.specs.Order.{is_left, waits};

use hept_ast::{CoreEquation, Expr, Form, Name};
use node_text::is_among;

/// Whether a name is on the left side of one of the equations.
fn is_left(left: &[CoreEquation], x: &Name) -> bool
    ensures { result ≡ is_left left.now x.now }
{
    left.iter().any(|e| is_among(x, e.left.as_slice()))
}

/// Whether an expression reads such a name at its own instant.
#[tactic(auto, using(crate::proofs::ReadsOf::reads_any))]
fn reads_left(e: &Expr, left: &[CoreEquation]) -> bool
    ensures { result ≡ list_any (is_left left.now) (reads e.now.form) }
{
    match &e.form {
        Form::Const(_) => false,
        Form::Var(x) => is_left(left, x),
        Form::Last(_) => false,
        Form::Unary(_, a) => reads_left(a.get(), left),
        Form::Binary(_, a, b) => reads_left(a.get(), left) || reads_left(b.get(), left),
        Form::If(c, a, b) => {
            if reads_left(c.get(), left) {
                return true;
            }
            reads_left(a.get(), left) || reads_left(b.get(), left)
        }
        Form::Fby(a, _) => reads_left(a.get(), left),
        Form::Pre(_) => false,
        Form::Arrow(a, b) => reads_left(a.get(), left) || reads_left(b.get(), left),
        Form::When(a, _, x) => reads_left(a.get(), left) || is_left(left, x),
        Form::Merge(x, branches) => {
            if is_left(left, x) {
                return true;
            }
            for branch in branches.as_slice() {
                if reads_left(&branch.value, left) {
                    return true;
                }
            }
            false
        }
        Form::Call(_, args) => {
            for arg in args.as_slice() {
                if reads_left(arg, left) {
                    return true;
                }
            }
            false
        }
        Form::AsyncCall(_, _, args) => {
            for arg in args.as_slice() {
                if reads_left(arg, left) {
                    return true;
                }
            }
            false
        }
        Form::AsyncConst(_) => false,
        Form::Get(a) => reads_left(a.get(), left),
    }
}

/// Whether a variable of an equation's clock is such a name.
fn clock_reads_left(e: &CoreEquation, left: &[CoreEquation]) -> bool
    ensures { result ≡ list_any (λ s. is_left left.now s.name) e.now.clock.steps }
{
    e.clock
        .steps
        .as_slice()
        .iter()
        .any(|s| is_left(left, &s.name))
}

/// Whether one of an equation's resets is.
fn resets_left(e: &CoreEquation, left: &[CoreEquation]) -> bool
    ensures { result ≡ list_any (is_left left.now) e.now.resets }
{
    e.resets.as_slice().iter().any(|x| is_left(left, x))
}

/// Whether an equation reads the left side of one of those that are left, maybe its own.
pub(crate) fn waits(e: &CoreEquation, left: &[CoreEquation]) -> bool
    ensures { result ≡ waits e.now left.now }
{
    if reads_left(&e.right, left) {
        return true;
    }
    clock_reads_left(e, left) || resets_left(e, left)
}
