//! What expressions give.
ghost use Rattle.std.specs.Prelude.{◌≡◌, IfOk};
ghost use Rattle.hept_ast.specs.Texts.{const_value};
ghost use Rattle.hept_ast.specs.declared.tree.Form.{out-Form};
ghost use Rattle.hept_ast.specs.declared.tree.Form.TheOpen.{Form-F};
ghost use Rattle.answer_table.specs.Tables.{AnswerAt, IsExpressionAt, IsScopeOfPath, IsSound};
ghost use Rattle.erased_meaning.specs.Rules.{FormGives, IsValueAnswer};

use crate::delays::{arrow, fby, pre, test};
use crate::forms::{binary, choice, operand, unary};
use crate::values::{const_value, merge_branch};
use answer_table::{Answer, Answers, Asked, Step, Stop};
use hept_ast::{Const, Expr, Form, MergeBranch, Name};

/// The value of a constant.
pub(crate) fn constant_gives<'a>(
    answers: &Answers<'a>,
    constant: &Const,
) -> Result<Answer, Stop<'a>>
    ensures { IfOk result (IsValueAnswer (const_value answers.now.accepted.now.program.types constant.now)) }
{
    match const_value(answers.accepted.program().types.as_slice(), constant) {
        Some(value) => Ok(Answer::Value(value)),
        None => Err(Stop::Memory),
    }
}

#[tactic(auto, using(crate::proofs::ExpressionsOf::merge_nil, crate::proofs::ExpressionsOf::merge_absent))]
fn merge<'a>(
    answers: &Answers<'a>,
    path: &[Step],
    scope: &[Step],
    on: &'a Name,
    branches: &'a [MergeBranch],
    t: usize,
) -> Result<Answer, Stop<'a>>
    requires { IsSound answers.now }
    ensures { IfOk result (λ r. IsScopeOfPath answers.now path.now scope.now → FormGives answers.now path.now (Form-F.Merge on.now branches.now) t r) }
{
    let value = match answers.ask_here(scope, Asked::Variable(on), t)? {
        Answer::Value(value) => value,
        Answer::Nil => return Ok(Answer::Nil),
        Answer::Absent => return Ok(Answer::Absent),
        _ => return Err(Stop::Nothing),
    };
    match merge_branch(answers.accepted.program().types.as_slice(), branches, value) {
        Some((branch, _)) => operand(answers, path, branch, t),
        None => Err(Stop::Nothing),
    }
}

/// What an expression gives where it is present.
#[tactic(auto, using(crate::proofs::ExpressionsOf::call_gives, crate::proofs::ExpressionsOf::async_call_gives))]
fn form<'a>(
    answers: &Answers<'a>,
    path: &[Step],
    scope: &[Step],
    expr: &'a Expr,
    t: usize,
) -> Result<Answer, Stop<'a>>
    requires { IsSound answers.now }
    ensures { IfOk result (λ r. IsScopeOfPath answers.now path.now scope.now → FormGives answers.now path.now (out-Form expr.now.form) t r) }
{
    match &expr.form {
        Form::Const(constant) => constant_gives(answers, constant),
        Form::Var(name) => answers.ask_here(scope, Asked::Variable(name), t),
        Form::Last(name) => answers.ask_here(scope, Asked::Last(name), t),
        Form::Unary(op, _) => unary(answers, path, *op, t),
        Form::Binary(op, _, _) => binary(answers, path, *op, t),
        Form::If(_, _, _) => choice(answers, path, t),
        Form::Fby(_, _) => fby(answers, path, scope, t),
        Form::Pre(_) => pre(answers, path, scope, t),
        Form::Arrow(_, _) => arrow(answers, path, scope, t),
        Form::When(_, _, _) => operand(answers, path, 0, t),
        Form::Merge(on, branches) => merge(answers, path, scope, on, branches.as_slice(), t),
        Form::Call(_, _) => answers.ask_here(path, Asked::Output(0), t),
        Form::AsyncCall(_, _, _) => answers.ask_here(path, Asked::Output(0), t),
        Form::AsyncConst(constant) => constant_gives(answers, constant),
        Form::Get(_) => operand(answers, path, 0, t),
    }
}

/// What an expression gives.
pub(crate) fn gives<'a>(answers: &Answers<'a>, path: &[Step], t: usize) -> Result<Answer, Stop<'a>>
    requires { IsSound answers.now }
    ensures { IfOk result (AnswerAt answers.now path.now Asked.Gives t) }
{
    let expr = answers.expression(path)?;
    if !test(answers, path, Asked::Present, t)? {
        return Ok(Answer::Absent);
    }
    let scope = answers.scope_path(path)?;
    form(answers, path, scope.as_slice(), expr, t)
}
