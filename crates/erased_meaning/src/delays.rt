//! What expressions give that look at the previous instant.
ghost use Rattle.std.specs.Prelude.{IfOk};
ghost use Rattle.hept_ast.specs.declared.tree.Expr.{Expr};
ghost use Rattle.hept_ast.specs.declared.tree.Form.TheOpen.{Form-F};
ghost use Rattle.answer_table.specs.Tables.{IsScopeOfPath, IsSound};
ghost use Rattle.erased_meaning.specs.Rules.{FormGives, Tests, Went};

use crate::forms::operand;
use answer_table::{Answer, Answers, Asked, Step, Stop, is_true};

/// How a test of what is asked at the end of a path comes out.
#[tactic(auto, using(crate::proofs::Following::tests))]
pub(crate) fn test<'a>(
    answers: &Answers<'a>,
    path: &[Step],
    asked: Asked<'a>,
    t: usize,
) -> Result<bool, Stop<'a>>
    requires { IsSound answers.now }
    ensures { IfOk result (Tests answers.now path.now asked.entry t) }
{
    Ok(is_true(answers.ask_here(path, asked, t)?))
}

/// The latest instant before t at which something is present, if no restart came after it up to t.
pub(crate) fn previous<'a>(
    answers: &Answers<'a>,
    path: &[Step],
    present: Asked<'a>,
    scope: &[Step],
    t: usize,
) -> Result<Option<usize>, Stop<'a>>
    requires { IsSound answers.now }
    ensures { IfOk result (Went answers.now path.now present.entry scope.now t) }
{
    let mut at = t;
    while at > 0 {
        if test(answers, scope, Asked::Restarted, at)? {
            return Ok(None);
        }
        at -= 1;
        if test(answers, path, present, at)? {
            return Ok(Some(at));
        }
    }
    Ok(None)
}

pub(crate) fn fby<'a>(
    answers: &Answers<'a>,
    path: &[Step],
    scope: &[Step],
    t: usize,
) -> Result<Answer, Stop<'a>>
    requires { IsSound answers.now }
    ensures { IfOk result (λ r. IsScopeOfPath answers.now path.now scope.now → (a b : Expr) → FormGives answers.now path.now (Form-F.Fby a b) t r) }
{
    match previous(answers, path, Asked::Present, scope, t)? {
        Some(before) => operand(answers, path, 1, before),
        None => operand(answers, path, 0, t), // the first instant
    }
}

pub(crate) fn pre<'a>(
    answers: &Answers<'a>,
    path: &[Step],
    scope: &[Step],
    t: usize,
) -> Result<Answer, Stop<'a>>
    requires { IsSound answers.now }
    ensures { IfOk result (λ r. IsScopeOfPath answers.now path.now scope.now → (a : Expr) → FormGives answers.now path.now (Form-F.Pre a) t r) }
{
    match previous(answers, path, Asked::Present, scope, t)? {
        Some(before) => operand(answers, path, 0, before),
        None => Ok(Answer::Nil),
    }
}

pub(crate) fn arrow<'a>(
    answers: &Answers<'a>,
    path: &[Step],
    scope: &[Step],
    t: usize,
) -> Result<Answer, Stop<'a>>
    requires { IsSound answers.now }
    ensures { IfOk result (λ r. IsScopeOfPath answers.now path.now scope.now → (a b : Expr) → FormGives answers.now path.now (Form-F.Arrow a b) t r) }
{
    match previous(answers, path, Asked::Present, scope, t)? {
        Some(_) => operand(answers, path, 1, t),
        None => operand(answers, path, 0, t),
    }
}
