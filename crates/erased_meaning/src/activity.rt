//! Which scopes are active, and which are restarted.
ghost use Rattle.std.specs.Prelude.{◌≡◌, ◌∷◌, ◌++◌, [], IfOk};
ghost use Rattle.hept_ast.specs.Meaning.{active_rule, is_marked, is_state, restarted_rule};
ghost use Rattle.answer_table.specs.Asking.{answer_of};
ghost use Rattle.answer_table.specs.Tables.{AnswerAt, IsSound, setting_in};
ghost use Rattle.erased_meaning.specs.Rules.{ScopeRuleGives};

use crate::delays::test;
use crate::presence::is_tag;
use answer_table::{Answer, Answers, Asked, Step, Stop, branch_at, is_true};

fn is_state(answer: Answer, state: usize) -> bool
    ensures { result ≡ is_state state (answer_of answer) }
{
    match answer {
        Answer::StateAt(other, _) => other == state,
        _ => false,
    }
}

fn is_marked(answer: Answer, state: usize) -> bool
    ensures { result ≡ is_marked state (answer_of answer) }
{
    match answer {
        Answer::StateAt(other, mark) => other == state && mark,
        _ => false,
    }
}

/// Whether a branch of a switch is active.
#[tactic(auto, using(crate::proofs::RestartedOf::branch_gives))]
fn branch_active<'a>(
    answers: &Answers<'a>,
    outer: &[Step],
    equation: usize,
    branch: usize,
    t: usize,
) -> Result<Answer, Stop<'a>>
    requires { IsSound answers.now }
    ensures { IfOk result (ScopeRuleGives answers.now (outer.now ++ Step.Branch equation branch ∷ []) (λ scope. active_rule (setting_in answers.now) scope t)) }
{
    let (_, _, block) = answers.scope(outer)?;
    let value = answers.ask_part(outer, Step::On { equation }, Asked::Gives, t)?;
    match branch_at(block, equation, branch) {
        Some(branch) => Ok(Answer::Is(is_tag(answers, value, &branch.tag))),
        None => Err(Stop::Nothing),
    }
}

/// Whether the scope that a path leads to is active.
#[tactic(auto, using(crate::proofs::ActiveOf::active_part, crate::proofs::ActiveOf::body_active, crate::proofs::ActiveOf::callee_active, crate::proofs::ActiveOf::state_active, crate::proofs::ActiveOf::top_active))]
pub(crate) fn active<'a>(answers: &Answers<'a>, path: &[Step], t: usize) -> Result<Answer, Stop<'a>>
    requires { IsSound answers.now }
    ensures { IfOk result (AnswerAt answers.now path.now Asked.Active t) }
{
    answers.scope(path)?;
    let Some((last, outer)) = path.split_last() else {
        return Ok(Answer::Is(true));
    };
    match *last {
        Step::Branch { equation, branch } => branch_active(answers, outer, equation, branch, t),
        Step::Body { .. } => answers.ask_here(outer, Asked::Active, t),
        Step::State { equation, state } => {
            let answer = answers.ask_here(outer, Asked::ActiveState(equation), t)?;
            Ok(Answer::Is(is_state(answer, state)))
        }
        Step::Callee => answers.ask_here(outer, Asked::Present, t),
        _ => Err(Stop::Nothing),
    }
}

/// Whether the scope that a path leads to is restarted.
#[tactic(auto, using(crate::proofs::RestartedOf::restarted_part, crate::proofs::RestartedOf::branch_restarted, crate::proofs::RestartedOf::callee_restarted, crate::proofs::ActiveOf::top_restarted))]
pub(crate) fn restarted<'a>(
    answers: &Answers<'a>,
    path: &[Step],
    t: usize,
) -> Result<Answer, Stop<'a>>
    requires { IsSound answers.now }
    ensures { IfOk result (AnswerAt answers.now path.now Asked.Restarted t) }
{
    answers.scope(path)?;
    let Some((last, outer)) = path.split_last() else {
        return Ok(Answer::Is(false));
    };
    match *last {
        Step::Branch { .. } => answers.ask_here(outer, Asked::Restarted, t),
        Step::Callee => {
            let caller = answers.scope_path(outer)?;
            answers.ask(caller, Asked::Restarted, t)
        }
        Step::Body { equation } => body_restarted(answers, outer, equation, t),
        Step::State { equation, state } => state_restarted(answers, outer, equation, state, t),
        _ => Err(Stop::Nothing),
    }
}

/// Whether the body of a reset is restarted.
#[tactic(auto, using(crate::proofs::RestartedOf::body_with_outer, crate::proofs::RestartedOf::body_by_condition))]
fn body_restarted<'a>(
    answers: &Answers<'a>,
    outer: &[Step],
    equation: usize,
    t: usize,
) -> Result<Answer, Stop<'a>>
    requires { IsSound answers.now }
    ensures { IfOk result (ScopeRuleGives answers.now (outer.now ++ Step.Body equation ∷ []) (λ scope. restarted_rule (setting_in answers.now) scope t)) }
{
    if test(answers, outer, Asked::Restarted, t)? {
        return Ok(Answer::Is(true));
    }
    let condition = answers.ask_part(outer, Step::Every { equation }, Asked::Gives, t)?;
    Ok(Answer::Is(is_true(condition)))
}

/// Whether a state of an automaton is restarted.
#[tactic(auto, using(crate::proofs::RestartedOf::state_with_outer, crate::proofs::RestartedOf::state_by_mark))]
fn state_restarted<'a>(
    answers: &Answers<'a>,
    outer: &[Step],
    equation: usize,
    state: usize,
    t: usize,
) -> Result<Answer, Stop<'a>>
    requires { IsSound answers.now }
    ensures { IfOk result (ScopeRuleGives answers.now (outer.now ++ Step.State equation state ∷ []) (λ scope. restarted_rule (setting_in answers.now) scope t)) }
{
    if test(answers, outer, Asked::Restarted, t)? {
        return Ok(Answer::Is(true));
    }
    let answer = answers.ask_here(outer, Asked::ActiveState(equation), t)?;
    Ok(Answer::Is(is_marked(answer, state)))
}
