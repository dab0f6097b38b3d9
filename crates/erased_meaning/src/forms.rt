//! What expressions give where they are present.
ghost use Rattle.std.specs.Prelude.{IfOk};
ghost use Rattle.hept_ast.specs.declared.tree.Expr.{Expr};
ghost use Rattle.hept_ast.specs.declared.tree.Form.TheOpen.{Form-F};
ghost use Rattle.answer_table.specs.Tables.{IsSound};
ghost use Rattle.erased_meaning.specs.Rules.{FormGives, OperandGets};

use crate::values::{binary_of, unary_of};
use answer_table::{Answer, Answers, Asked, Step, Stop};
use hept_ast::{BinaryOp, UnaryOp};

/// What an operand gives.
#[tactic(auto, using(crate::proofs::Following::operand_gets))]
pub(crate) fn operand<'a>(
    answers: &Answers<'a>,
    path: &[Step],
    operand: usize,
    t: usize,
) -> Result<Answer, Stop<'a>>
    requires { IsSound answers.now }
    ensures { IfOk result (OperandGets answers.now path.now operand t) }
{
    answers.ask_part(path, Step::Operand { operand }, Asked::Gives, t)
}

pub(crate) fn unary<'a>(
    answers: &Answers<'a>,
    path: &[Step],
    op: UnaryOp,
    t: usize,
) -> Result<Answer, Stop<'a>>
    requires { IsSound answers.now }
    ensures { IfOk result (λ r. (a : Expr) → FormGives answers.now path.now (Form-F.Unary op a) t r) }
{
    match operand(answers, path, 0, t)? {
        Answer::Value(value) => Ok(Answer::Value(unary_of(op, value))),
        Answer::Nil => Ok(Answer::Nil),
        Answer::Absent => Ok(Answer::Absent),
        _ => Err(Stop::Nothing),
    }
}

fn binary_right<'a>(
    answers: &Answers<'a>,
    path: &[Step],
    op: BinaryOp,
    left: u32,
    t: usize,
) -> Result<Answer, Stop<'a>>
    requires { IsSound answers.now }
    ensures { IfOk result (λ r. (a b : Expr) → OperandGets answers.now path.now 0 t (Answer.Value left) → FormGives answers.now path.now (Form-F.Binary op a b) t r) }
{
    match operand(answers, path, 1, t)? {
        Answer::Value(right) => match binary_of(op, left, right) {
            Some(value) => Ok(Answer::Value(value)),
            None => Err(Stop::Nothing),
        },
        Answer::Nil => Ok(Answer::Nil),
        Answer::Absent => Ok(Answer::Absent),
        _ => Err(Stop::Nothing),
    }
}

pub(crate) fn binary<'a>(
    answers: &Answers<'a>,
    path: &[Step],
    op: BinaryOp,
    t: usize,
) -> Result<Answer, Stop<'a>>
    requires { IsSound answers.now }
    ensures { IfOk result (λ r. (a b : Expr) → FormGives answers.now path.now (Form-F.Binary op a b) t r) }
{
    match operand(answers, path, 0, t)? {
        Answer::Value(left) => binary_right(answers, path, op, left, t),
        Answer::Nil => Ok(Answer::Nil),
        Answer::Absent => Ok(Answer::Absent),
        _ => Err(Stop::Nothing),
    }
}

fn choice_no<'a>(
    answers: &Answers<'a>,
    path: &[Step],
    condition: u32,
    yes: u32,
    t: usize,
) -> Result<Answer, Stop<'a>>
    requires { IsSound answers.now }
    ensures { IfOk result (λ r. (c a b : Expr) → OperandGets answers.now path.now 0 t (Answer.Value condition) → OperandGets answers.now path.now 1 t (Answer.Value yes) → FormGives answers.now path.now (Form-F.If c a b) t r) }
{
    match operand(answers, path, 2, t)? {
        Answer::Value(no) => Ok(Answer::Value(if condition == 1 { yes } else { no })),
        Answer::Nil => Ok(Answer::Nil),
        Answer::Absent => Ok(Answer::Absent),
        _ => Err(Stop::Nothing),
    }
}

fn choice_yes<'a>(
    answers: &Answers<'a>,
    path: &[Step],
    condition: u32,
    t: usize,
) -> Result<Answer, Stop<'a>>
    requires { IsSound answers.now }
    ensures { IfOk result (λ r. (c a b : Expr) → OperandGets answers.now path.now 0 t (Answer.Value condition) → FormGives answers.now path.now (Form-F.If c a b) t r) }
{
    match operand(answers, path, 1, t)? {
        Answer::Value(yes) => choice_no(answers, path, condition, yes, t),
        Answer::Nil => Ok(Answer::Nil),
        Answer::Absent => Ok(Answer::Absent),
        _ => Err(Stop::Nothing),
    }
}

pub(crate) fn choice<'a>(answers: &Answers<'a>, path: &[Step], t: usize) -> Result<Answer, Stop<'a>>
    requires { IsSound answers.now }
    ensures { IfOk result (λ r. (c a b : Expr) → FormGives answers.now path.now (Form-F.If c a b) t r) }
{
    match operand(answers, path, 0, t)? {
        Answer::Value(condition) => choice_yes(answers, path, condition, t),
        Answer::Nil => Ok(Answer::Nil),
        Answer::Absent => Ok(Answer::Absent),
        _ => Err(Stop::Nothing),
    }
}
