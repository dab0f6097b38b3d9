//! Rows of outputs, by answering questions after those that they need.
ghost use Rattle.std.specs.Prelude.{◌≡◌, ◌<◌, IfOk, Some, length, slice_get};
ghost use Rattle.hept_ast.specs.Scopes.{Top, Written};
ghost use Rattle.hept_ast.specs.Meaning.{Value, Variable};
ghost use Rattle.hept_ast.specs.Outputs.{HaveValues, Knows, Outputs, output_questions};
ghost use Rattle.hept_ast.specs.TypedValues.{RowsFit};
ghost use Rattle.hept_ast.specs.Erasure.{erased};
ghost use Rattle.hept_ast.specs.declared.tree.Node.{Node};
ghost use Rattle.accepted_meaning.specs.Ranges.{IsInRange};
ghost use Rattle.answer_table.specs.Things.{setting_of};
ghost use Rattle.erased_meaning.specs.ErasedRows.{setting_of_erased};
ghost use Rattle.answer_table.specs.Tables.{AnswerAt, IsSameRun, IsSound, setting_in};

use crate::activity::{active, restarted};
use crate::automata::{active_state, left_state};
use crate::calls::output_gives;
use crate::definitions::{defined, defines};
use crate::expressions::gives;
use crate::presence::{present, present_of};
use crate::variables::{last, variable};
use accepted_meaning::accepted_laws;
use answer_table::{Answer, Answers, Asked, Question, Stop};
use hept_ast::{Accepted, Memory, Name, NodeId, Rows, meaning_laws};
use std::alloc::Global;

/// The answer to a question, from what is known.
fn rule<'a>(answers: &Answers<'a>, question: &Question<'a>) -> Result<Answer, Stop<'a>>
    requires { IsSound answers.now }
    ensures { IfOk result (AnswerAt answers.now question.now.path.items question.now.asked question.now.instant) }
{
    let path = question.path.as_slice();
    let t = question.instant;
    match question.asked {
        Asked::Gives => gives(answers, path, t),
        Asked::Output(output) => output_gives(answers, path, output, t),
        Asked::Variable(name) => variable(answers, path, name, t),
        Asked::Last(name) => last(answers, path, name, t),
        Asked::Defined(name) => defined(answers, path, name, t),
        Asked::Defines(equation, name) => defines(answers, path, equation, name),
        Asked::Present => present(answers, path, t),
        Asked::PresentOf(name) => present_of(answers, path, name, t),
        Asked::Active => active(answers, path, t),
        Asked::Restarted => restarted(answers, path, t),
        Asked::ActiveState(equation) => active_state(answers, path, equation, t),
        Asked::LeftState(equation) => left_state(answers, path, equation, t),
    }
}

/// Answers a question, after those that it needs.
fn solve<'a>(answers: &mut Answers<'a>, question: Question<'a>) -> Result<(), Memory>
    requires { IsSound answers.old }
    ensures sound { IsSound answers.new }
    ensures same { IsSameRun answers.old answers.new }
{
    let mut open = Vec::new(answers.alloc);
    if open.push(question).is_err() {
        return Err(Memory);
    }
    for _ in 0..u64::MAX {
        let Some(question) = open.pop() else {
            return Ok(());
        };
        match rule(answers, &question) {
            Ok(answer) => answers.keep(question, answer)?,
            Err(Stop::First(first)) => {
                if open.push(question).is_err() || open.push(first).is_err() {
                    return Err(Memory);
                }
            }
            Err(_) => return Err(Memory),
        }
    }
    Err(Memory)
}

/// What a variable of the chosen node gives at an instant.
fn value<'a>(answers: &mut Answers<'a>, name: &'a Name, t: usize) -> Result<u32, Memory>
    requires { IsSound answers.old }
    ensures value { (node : Node) → slice_get answers.old.accepted.now.program.nodes answers.old.top ≡ Some node → IfOk result (λ v. Knows (setting_in answers.old) answers.old.rows.now (Variable name.now (Top (Written answers.old.top node)) t) (Value v)) }
    ensures sound { IsSound answers.new }
    ensures same { IsSameRun answers.old answers.new }
{
    let question = Question {
        path: Vec::new(answers.alloc),
        asked: Asked::Variable(name),
        instant: t,
    };
    solve(answers, question)?;
    match answers.ask_here(&[], Asked::Variable(name), t) {
        Ok(Answer::Value(value)) => Ok(value),
        _ => Err(Memory),
    }
}

/// The row of outputs of the chosen node at an instant.
fn row<'a>(
    answers: &mut Answers<'a>,
    node: &'a hept_ast::Node,
    t: usize,
) -> Result<Vec<u32>, Memory>
    requires sound { IsSound answers.old }
    requires chosen { slice_get answers.old.accepted.now.program.nodes answers.old.top ≡ Some node.now }
    ensures values { IfOk result (λ row. HaveValues (setting_in answers.old) answers.old.rows.now (output_questions (Written answers.old.top node.now) t) row.items) }
    ensures sound { IsSound answers.new }
    ensures same { IsSameRun answers.old answers.new }
{
    let mut row = Vec::new(answers.alloc);
    for output in node.outputs.as_slice() {
        let value = value(answers, &output.name, t)?;
        if row.push(value).is_err() {
            return Err(Memory);
        }
    }
    Ok(row)
}

/// The rows of outputs of a node of an accepted program on rows of inputs: one row for each. They are
/// those of the erased program too, and where the inputs are values of their types, so are the outputs.
/// It asks what the meaning of the program asks, again and again, and keeps the answers by instant.
pub fn value_rows(
    alloc: Global,
    accepted: &Accepted,
    top: NodeId,
    rows: &Rows,
) -> Result<Rows, Memory>
    requires { top.0 < length accepted.now.program.nodes }
    ensures outputs { (node : Node) → slice_get accepted.now.program.nodes top.0 ≡ Some node → IfOk result (Outputs (setting_of accepted.now) (Written top.0 node) rows.now) }
    ensures erased { (node : Node) → slice_get (erased accepted.now.program).nodes top.0 ≡ Some node → IfOk result (Outputs (setting_of_erased accepted.now) (Written top.0 node) rows.now) }
    ensures fits { (node : Node) → slice_get accepted.now.program.nodes top.0 ≡ Some node → IsInRange accepted.now.program → RowsFit accepted.now.program.types node.inputs rows.now → IfOk result (RowsFit accepted.now.program.types node.outputs) }
{
    let top = top.0 as usize;
    let node = &accepted.program().nodes.as_slice()[top];
    let mut answers = Answers {
        alloc,
        accepted,
        top,
        rows,
        known: Vec::new(alloc),
    };
    let mut outs = Rows::new(alloc);
    for t in 0..rows.len() {
        let row = row(&mut answers, node, t)?;
        outs.push(alloc, row.as_slice())?;
    }
    accepted_laws();
    meaning_laws();
    Ok(outs)
}
