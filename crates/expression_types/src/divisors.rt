//! Divisors, which are to be constants other than 0.
ghost use Rattle.std.specs.Prelude.{◌≡◌, ◌&&◌, not};
ghost use Rattle.hept_ast.specs.Faults.{ZeroDivisor, const_is_nonzero, fault, is_nonzero};
ghost use Rattle.hept_ast.specs.Limits.{earlier_of, earliest};
ghost use Rattle.hept_ast.specs.Types.{divides};

use earliest_fault::{Found, Kind};
use hept_ast::{BinaryOp, Const, Expr, Form, Place};

fn is_nonzero_const(value: &Const) -> bool
    ensures { result ≡ const_is_nonzero value.now }
{
    match value {
        Const::Number(number) => *number != 0,
        Const::Truth(_) => true,
        Const::Constructor(_) => true,
    }
}

#[tactic(auto, using(hept_ast::proofs::CalledForms::nonzero_forms))]
fn is_nonzero(form: &Form) -> bool
    ensures { result ≡ is_nonzero form.now }
{
    match form {
        Form::Const(value) => is_nonzero_const(value),
        Form::Var(_) => false,
        Form::Last(_) => false,
        Form::Unary(_, _) => false,
        Form::Binary(_, _, _) => false,
        Form::If(_, _, _) => false,
        Form::Fby(_, _) => false,
        Form::Pre(_) => false,
        Form::Arrow(_, _) => false,
        Form::When(_, _, _) => false,
        Form::Merge(_, _) => false,
        Form::Call(_, _) => false,
        Form::AsyncCall(_, _, _) => false,
        Form::AsyncConst(_) => false,
        Form::Get(_) => false,
    }
}

fn divides(op: BinaryOp) -> bool
    ensures { result ≡ divides op }
{
    match op {
        BinaryOp::Div => true,
        BinaryOp::Rem => true,
        BinaryOp::Add => false,
        BinaryOp::Sub => false,
        BinaryOp::Mul => false,
        BinaryOp::Or => false,
        BinaryOp::And => false,
        BinaryOp::Eq => false,
        BinaryOp::Ne => false,
        BinaryOp::Lt => false,
        BinaryOp::Le => false,
        BinaryOp::Gt => false,
        BinaryOp::Ge => false,
    }
}

/// Notes a division by what is no constant other than 0, and says whether it is one.
pub(crate) fn note_zero_divisor(found: &mut Found, place: Place, op: BinaryOp, right: &Expr) -> bool
    ensures noted { found.new ≡ earlier_of found.old (earliest (fault place.0 ZeroDivisor (divides op && not (is_nonzero right.now.form)))) }
    ensures stands { result ≡ divides op && not (is_nonzero right.now.form) }
{
    let nonzero = is_nonzero(&right.form);
    let wrong = divides(op) && !nonzero;
    found.note_if(place, Kind::ZeroDivisor, wrong);
    wrong
}
