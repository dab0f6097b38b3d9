//! What is present.
ghost use Rattle.std.specs.Prelude.{◌≡◌, IfOk};
ghost use Rattle.hept_ast.specs.Meaning.{is_value};
ghost use Rattle.hept_ast.specs.Texts.{tag_value};
ghost use Rattle.answer_table.specs.Asking.{answer_of};
ghost use Rattle.answer_table.specs.Tables.{AnswerAt, IsSound, held_clock};
ghost use Rattle.erased_meaning.specs.Rules.{PresentGives, StepsHold};

use crate::delays::test;
use crate::values::tag_value;
use answer_table::{Answer, Answers, Asked, Held, Step, Stop};
use hept_ast::{Name, Tag};

/// Whether an answer is the value of a tag.
pub(crate) fn is_tag(answers: &Answers<'_>, answer: Answer, tag: &Tag) -> bool
    ensures { result ≡ is_value (tag_value answers.now.accepted.now.program.types tag.now) (answer_of answer) }
{
    match answer {
        Answer::Value(value) => {
            tag_value(answers.accepted.program().types.as_slice(), tag) == value as usize
        }
        _ => false,
    }
}

/// Whether each step's variable has its tag.
#[tactic(auto, using(crate::proofs::HoldingSteps::step_fails, crate::proofs::HoldingSteps::step_holds, crate::proofs::HoldingSteps::all_hold))]
fn steps_hold<'a>(
    answers: &Answers<'a>,
    scope: &[Step],
    clock: &[Held<'a>],
    t: usize,
) -> Result<bool, Stop<'a>>
    requires { IsSound answers.now }
    ensures { IfOk result (StepsHold answers.now scope.now (held_clock clock.now) t) }
{
    for step in clock {
        let value = answers.ask_here(scope, Asked::Variable(step.name), t)?;
        if !is_tag(answers, value, step.tag) {
            return Ok(false);
        }
    }
    Ok(true)
}

#[tactic(auto, using(crate::proofs::PresentOf::active_holds, crate::proofs::PresentOf::not_active))]
fn present_on<'a>(
    answers: &Answers<'a>,
    scope: &[Step],
    clock: &[Held<'a>],
    t: usize,
) -> Result<Answer, Stop<'a>>
    requires { IsSound answers.now }
    ensures { IfOk result (PresentGives answers.now scope.now (held_clock clock.now) t) }
{
    if test(answers, scope, Asked::Active, t)? {
        Ok(Answer::Is(steps_hold(answers, scope, clock, t)?))
    } else {
        Ok(Answer::Is(false))
    }
}

/// Whether what is on the clock of the expression that a path leads to is present.
pub(crate) fn present<'a>(
    answers: &Answers<'a>,
    path: &[Step],
    t: usize,
) -> Result<Answer, Stop<'a>>
    requires { IsSound answers.now }
    ensures { IfOk result (AnswerAt answers.now path.now Asked.Present t) }
{
    answers.expression(path)?;
    let scope = answers.scope_path(path)?;
    let clock = answers.clock(path)?;
    present_on(answers, scope.as_slice(), clock.as_slice(), t)
}

/// Whether what is on the clock of a variable is present, in the scope that declares it.
#[tactic(auto, using(crate::proofs::PresentOf::present_of_at))]
pub(crate) fn present_of<'a>(
    answers: &Answers<'a>,
    home: &[Step],
    name: &Name,
    t: usize,
) -> Result<Answer, Stop<'a>>
    requires { IsSound answers.now }
    ensures { IfOk result (AnswerAt answers.now home.now (Asked.PresentOf name.entry) t) }
{
    let (number, _, _) = answers.scope(home)?;
    let clock = answers.clock_in(number, name)?;
    present_on(answers, home, clock.as_slice(), t)
}
