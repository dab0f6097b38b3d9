//! What the outputs of calls give.
ghost use Rattle.std.specs.Prelude.{IfOk};
ghost use Rattle.answer_table.specs.Tables.{AnswerAt, IsSound};
ghost use Rattle.erased_meaning.specs.CallRules.{CallGives, IsCounted};

use crate::delays::test;
use answer_table::{Answer, Answers, Asked, Step, Stop, View, extended};
use hept_ast::{Form, Memory};

/// Asks at each earlier instant whether a call was present.
fn earlier_calls<'a>(answers: &Answers<'a>, path: &[Step], t: usize) -> Result<(), Stop<'a>>
    requires { IsSound answers.now }
    ensures { IfOk result (λ done. IsCounted answers.now path.now t) }
{
    let mut at = t;
    while at > 0 {
        at -= 1;
        test(answers, path, Asked::Present, at)?;
    }
    Ok(())
}

fn output_of_call<'a>(
    answers: &Answers<'a>,
    path: &[Step],
    output: usize,
    t: usize,
) -> Result<Answer, Stop<'a>>
    requires { IsSound answers.now }
    ensures { IfOk result (CallGives answers.now path.now output t) }
{
    earlier_calls(answers, path, t)?;
    let body = match extended(answers.alloc, path, Step::Callee) {
        Ok(body) => body,
        Err(Memory) => return Err(Stop::Memory),
    };
    let Some(View::Scope { node, .. }) = answers.view(body.as_slice()) else {
        return Err(Stop::Nothing);
    };
    match node.outputs.as_slice().get(output) {
        Some(declared) => answers.ask(body, Asked::Variable(&declared.name), t),
        None => Err(Stop::Nothing),
    }
}

/// What an output of a call gives, also of one below `!`.
pub(crate) fn output_gives<'a>(
    answers: &Answers<'a>,
    path: &[Step],
    output: usize,
    t: usize,
) -> Result<Answer, Stop<'a>>
    requires { IsSound answers.now }
    ensures { IfOk result (AnswerAt answers.now path.now (Asked.Output output) t) }
{
    let expr = answers.expression(path)?;
    if !test(answers, path, Asked::Present, t)? {
        return Ok(Answer::Absent);
    }
    match &expr.form {
        Form::Get(_) => {
            answers.ask_part(path, Step::Operand { operand: 0 }, Asked::Output(output), t)
        }
        _ => output_of_call(answers, path, output, t),
    }
}
