//! What variables give, and their `last`.
ghost use Rattle.std.specs.Prelude.{◌≡◌, ◌++◌, IfOk};
ghost use Rattle.std.specs.List.{find};
ghost use Rattle.std.specs.Option.{option_copied};
ghost use Rattle.hept_ast.specs.Texts.{same};
ghost use Rattle.hept_ast.specs.Meaning.{input_at};
ghost use Rattle.answer_table.specs.Asking.{answer_of};
ghost use Rattle.erased_meaning.specs.Inputs.{
  InitialGives,
  InputGives,
  IsDeclarationIn,
  OwnGives,
};
ghost use Rattle.answer_table.specs.Tables.{AnswerAt, IsSound};

use crate::delays::{previous, test};
use crate::expressions::constant_gives;
use answer_table::{Answer, Answers, Asked, Step, Stop, declaration, declared_at, is_inner};
use hept_ast::{Decl, Name, Node};

/// The first declaration of a variable in a node, outside the blocks inside its block.
fn node_declaration<'a>(node: &'a Node, name: &Name) -> Option<&'a Decl>
    ensures { option_copied result ≡ find (λ d. same name.now d.name) (node.now.inputs ++ node.now.outputs ++ node.now.block.locals) }
{
    if let Some(input) = declaration(node.inputs.as_slice(), name) {
        return Some(input);
    }
    if let Some(output) = declaration(node.outputs.as_slice(), name) {
        return Some(output);
    }
    declaration(node.block.locals.as_slice(), name)
}

/// What a variable that is seen in a scope gives.
#[tactic(auto, using(crate::proofs::VariablesOf::variable_elsewhere, crate::proofs::VariablesOf::variable_absent, crate::proofs::VariablesOf::variable_own))]
pub(crate) fn variable<'a>(
    answers: &Answers<'a>,
    path: &[Step],
    name: &'a Name,
    t: usize,
) -> Result<Answer, Stop<'a>>
    requires { IsSound answers.now }
    ensures { IfOk result (AnswerAt answers.now path.now (Asked.Variable name.entry) t) }
{
    answers.scope(path)?;
    let home = answers.home(path, name)?;
    if home.len() != path.len() {
        return answers.ask(home, Asked::Variable(name), t);
    }
    if test(answers, path, Asked::PresentOf(name), t)? {
        own(answers, path, name, t)
    } else {
        Ok(Answer::Absent)
    }
}

/// What a variable that the scope declares gives where it is present.
#[tactic(auto, using(crate::proofs::VariablesOf::own_inside))]
fn own<'a>(
    answers: &Answers<'a>,
    home: &[Step],
    name: &'a Name,
    t: usize,
) -> Result<Answer, Stop<'a>>
    requires { IsSound answers.now }
    ensures { IfOk result (OwnGives answers.now home.now name.now t) }
{
    if is_inner(home) {
        return answers.ask_here(home, Asked::Defined(name), t);
    }
    let (_, node, _) = answers.scope(home)?;
    match declared_at(node.inputs.as_slice(), name) {
        Some(input) => input_gives(answers, home, input, t),
        None => answers.ask_here(home, Asked::Defined(name), t),
    }
}

/// The input at a position of a body of a node.
#[tactic(auto, using(crate::proofs::VariablesOf::input_of_call, crate::proofs::VariablesOf::input_of_row))]
fn input_gives<'a>(
    answers: &Answers<'a>,
    home: &[Step],
    input: usize,
    t: usize,
) -> Result<Answer, Stop<'a>>
    requires { IsSound answers.now }
    ensures { IfOk result (InputGives answers.now home.now input t) }
{
    match home.split_last() {
        Some((_, call)) => {
            answers.ask_part(call, Step::Operand { operand: input }, Asked::Gives, t)
        }
        None => row_input(answers, input, t),
    }
}

/// The input at a position in the row of an instant.
fn row_input<'a>(answers: &Answers<'a>, input: usize, t: usize) -> Result<Answer, Stop<'a>>
    ensures { IfOk result (λ r. input_at answers.now.rows.now t input ≡ answer_of r) }
{
    match answers.rows.get(t) {
        Some(row) => Ok(Answer::Value(row.get(input).copied().unwrap_or(0))),
        None => Err(Stop::Nothing),
    }
}

/// What the `last` of a variable that is seen in a scope gives.
#[tactic(auto, using(crate::proofs::VariablesOf::last_elsewhere, crate::proofs::VariablesOf::last_before, crate::proofs::VariablesOf::last_first))]
pub(crate) fn last<'a>(
    answers: &Answers<'a>,
    path: &[Step],
    name: &'a Name,
    t: usize,
) -> Result<Answer, Stop<'a>>
    requires { IsSound answers.now }
    ensures { IfOk result (AnswerAt answers.now path.now (Asked.Last name.entry) t) }
{
    answers.scope(path)?;
    let home = answers.home(path, name)?;
    if home.len() != path.len() {
        return answers.ask(home, Asked::Last(name), t);
    }
    match previous(answers, path, Asked::Active, path, t)? {
        Some(before) => answers.ask_here(path, Asked::Variable(name), before),
        None => initial(answers, path, name),
    }
}

/// The first declaration of a name in a scope.
#[tactic(auto, using(crate::proofs::VariablesOf::declaration_inside, crate::proofs::VariablesOf::declaration_of_node))]
fn declaration_in<'a>(
    answers: &Answers<'a>,
    scope: &[Step],
    name: &Name,
) -> Result<Option<&'a Decl>, Stop<'a>>
    ensures { IfOk result (λ d. IsDeclarationIn answers.now scope.now name.now (option_copied d)) }
{
    let (_, node, block) = answers.scope(scope)?;
    if is_inner(scope) {
        Ok(declaration(block.locals.as_slice(), name))
    } else {
        Ok(node_declaration(node, name))
    }
}

/// The value that a scope's declaration of a name gives its first `last`.
fn initial<'a>(answers: &Answers<'a>, home: &[Step], name: &Name) -> Result<Answer, Stop<'a>>
    ensures { IfOk result (InitialGives answers.now home.now name.now) }
{
    let Some(declared) = declaration_in(answers, home, name)? else {
        return Err(Stop::Nothing);
    };
    match &declared.init {
        Some(init) => constant_gives(answers, &init.value),
        None => Err(Stop::Nothing),
    }
}
