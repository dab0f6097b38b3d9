//! The states of automata.
ghost use Rattle.std.specs.Prelude.{◌≡◌, IfOk};
ghost use Rattle.hept_ast.specs.Texts.{state_named};
ghost use Rattle.answer_table.specs.Tables.{AnswerAt, IsSound};
ghost use Rattle.erased_meaning.specs.Pending.{IsPending, StrongGives, WeakGives};

use crate::delays::{previous, test};
use answer_table::{Answer, Answers, Asked, Step, Stop, is_true, states_at};
use hept_ast::{Name, State};
use sqlite_items::at;

/// The position of the state of a name, or the number of states.
fn target(states: &[State], name: &Name) -> usize
    ensures { result ≡ state_named name.now states.now }
{
    for (position, state) in states.iter().enumerate() {
        if name.bytes() == state.name.bytes() {
            return position;
        }
    }
    states.len()
}

/// The active state, by the state that is pending with its mark.
fn strong_taken<'a>(
    answers: &Answers<'a>,
    scope: &[Step],
    equation: usize,
    states: &[State],
    pending: (usize, bool),
    t: usize,
) -> Result<Answer, Stop<'a>>
    requires { IsSound answers.now }
    ensures { IfOk result (StrongGives answers.now scope.now equation states.now pending t) }
{
    let (state, mark) = pending;
    let Some(from) = at(states, state) else {
        return Ok(Answer::StateAt(state, mark));
    };
    for (escape, transition) in from.strong.as_slice().iter().enumerate() {
        let step = Step::Strong {
            equation,
            state,
            escape,
        };
        if is_true(answers.ask_part(scope, step, Asked::Gives, t)?) {
            let to = target(states, &transition.target);
            return Ok(Answer::StateAt(to, transition.restart));
        }
    }
    Ok(Answer::StateAt(state, mark))
}

/// The state that is left pending, by the active state.
fn weak_taken<'a>(
    answers: &Answers<'a>,
    scope: &[Step],
    equation: usize,
    states: &[State],
    state: usize,
    t: usize,
) -> Result<Answer, Stop<'a>>
    requires { IsSound answers.now }
    ensures { IfOk result (WeakGives answers.now scope.now equation states.now state t) }
{
    let Some(from) = at(states, state) else {
        return Ok(Answer::StateAt(state, false));
    };
    for (escape, transition) in from.weak.as_slice().iter().enumerate() {
        let step = Step::Weak {
            equation,
            state,
            escape,
        };
        if is_true(answers.ask_part(scope, step, Asked::Gives, t)?) {
            let to = target(states, &transition.target);
            return Ok(Answer::StateAt(to, transition.restart));
        }
    }
    Ok(Answer::StateAt(state, false))
}

/// The state that is pending with its mark, where there is one.
#[tactic(auto, using(crate::proofs::AutomataOf::pending_first, crate::proofs::AutomataOf::pending_left, crate::proofs::AutomataOf::pending_absent))]
fn pending<'a>(
    answers: &Answers<'a>,
    scope: &[Step],
    equation: usize,
    t: usize,
) -> Result<Option<(usize, bool)>, Stop<'a>>
    requires { IsSound answers.now }
    ensures { IfOk result (IsPending answers.now scope.now equation t) }
{
    let Some(before) = previous(answers, scope, Asked::Active, scope, t)? else {
        return Ok(Some((0, false)));
    };
    match answers.ask_here(scope, Asked::LeftState(equation), before)? {
        Answer::StateAt(state, mark) => Ok(Some((state, mark))),
        Answer::Absent => Ok(None),
        _ => Err(Stop::Nothing),
    }
}

/// The active state of an automaton.
#[tactic(auto, using(crate::proofs::AutomataOf::state_absent, crate::proofs::AutomataOf::state_pending, crate::proofs::AutomataOf::state_none))]
pub(crate) fn active_state<'a>(
    answers: &Answers<'a>,
    scope: &[Step],
    equation: usize,
    t: usize,
) -> Result<Answer, Stop<'a>>
    requires { IsSound answers.now }
    ensures { IfOk result (AnswerAt answers.now scope.now (Asked.ActiveState equation) t) }
{
    let (_, _, block) = answers.scope(scope)?;
    let Some(states) = states_at(block, equation) else {
        return Err(Stop::Nothing);
    };
    if !test(answers, scope, Asked::Active, t)? {
        return Ok(Answer::Absent);
    }
    match pending(answers, scope, equation, t)? {
        Some(pending) => strong_taken(answers, scope, equation, states, pending, t),
        None => Ok(Answer::Absent),
    }
}

/// The state that an automaton leaves pending.
#[tactic(auto, using(crate::proofs::AutomataOf::left_by_weak, crate::proofs::AutomataOf::left_absent))]
pub(crate) fn left_state<'a>(
    answers: &Answers<'a>,
    scope: &[Step],
    equation: usize,
    t: usize,
) -> Result<Answer, Stop<'a>>
    requires { IsSound answers.now }
    ensures { IfOk result (AnswerAt answers.now scope.now (Asked.LeftState equation) t) }
{
    let (_, _, block) = answers.scope(scope)?;
    let Some(states) = states_at(block, equation) else {
        return Err(Stop::Nothing);
    };
    match answers.ask_here(scope, Asked::ActiveState(equation), t)? {
        Answer::StateAt(state, _) => weak_taken(answers, scope, equation, states, state, t),
        Answer::Absent => Ok(Answer::Absent),
        _ => Err(Stop::Nothing),
    }
}
