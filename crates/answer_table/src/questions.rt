//! What is asked of what a path leads to, and its answer.
ghost use Rattle.std.specs.Prelude.{◌≡◌, ℕ, All, IfSome, IsTrue, List};
ghost use Rattle.hept_ast.specs.Meaning.{is_true};
ghost use Rattle.hept_ast.specs.Stages.{ClockedProgram};
ghost use Rattle.answer_table.specs.Things.{thing_at};
ghost use Rattle.answer_table.specs.Asking.{Answered, IsAbout, IsRight, IsSameAsked, answer_of};

use crate::paths::Step;
use hept_ast::Name;

/// What is asked of a scope or of an expression.
#[derive(Clone, Copy)]
pub enum Asked<'a> {
    /// What the expression gives.
    Gives,
    /// What an output of the call gives.
    Output(usize),
    /// What a variable that is seen in the scope gives.
    Variable(&'a Name),
    /// What the `last` of a variable that is seen in the scope gives.
    Last(&'a Name),
    /// What the scope's own block defines a variable as.
    Defined(&'a Name),
    /// Whether an equation of the scope's block defines a variable.
    Defines(usize, &'a Name),
    /// Whether what is on the expression's clock is present.
    Present,
    /// Whether what is on the clock of a variable that the scope declares is present.
    PresentOf(&'a Name),
    /// Whether the scope is active.
    Active,
    /// Whether the scope is restarted.
    Restarted,
    /// The active state of an automaton of the scope's block.
    ActiveState(usize),
    /// The state that an automaton of the scope's block leaves pending.
    LeftState(usize),
}

/// What is asked at the end of a path, at an instant.
#[derive(Drop)]
pub struct Question<'a> {
    pub path: Vec<Step>,
    pub asked: Asked<'a>,
    pub instant: usize,
}

#[derive(Clone, Copy, Debug, PartialEq, Eq)]
pub enum Answer {
    Absent,
    Nil,
    Value(u32),
    Is(bool),
    /// The position of a state, and its mark.
    StateAt(usize, bool),
}

/// A question with its answer.
#[derive(Drop)]
pub struct Entry<'a> {
    pub question: Question<'a>,
    pub answer: Answer,
}

/// Why there is no answer yet.
#[derive(Drop)]
pub enum Stop<'a> {
    Memory,
    /// The meaning has no answer.
    Nothing,
    /// This has to be answered first.
    First(Question<'a>),
}

/// Whether an answer is true; what is absent, undefined or has another value is not.
pub fn is_true(answer: Answer) -> bool
    ensures { result ≡ is_true (answer_of answer) }
{
    match answer {
        Answer::Is(yes) => yes,
        Answer::Value(value) => value == 1,
        _ => false,
    }
}

fn is_same_name(left: &Name, right: &Name) -> bool
    ensures { IsTrue result → left.now ≡ right.now }
{
    left.bytes() == right.bytes()
}

fn is_same_number(left: usize, right: usize) -> bool
    ensures { IsTrue result → left ≡ right }
{
    left == right
}

fn is_same_step(left: Step, right: Step) -> bool
    ensures { IsTrue result → left ≡ right }
{
    left == right
}

fn is_same_path(left: &[Step], right: &[Step]) -> bool
    ensures { IsTrue result → left.now ≡ right.now }
{
    let Some((first, rest)) = left.split_first() else {
        return right.is_empty();
    };
    let Some((other, others)) = right.split_first() else {
        return false;
    };
    if is_same_step(*first, *other) {
        is_same_path(rest, others)
    } else {
        false
    }
}

/// Whether the same is asked.
fn is_same_asked(left: Asked<'_>, right: Asked<'_>) -> bool
    ensures { IsTrue result → IsSameAsked left.entry right.entry }
{
    match left {
        Asked::Gives => matches!(right, Asked::Gives),
        Asked::Present => matches!(right, Asked::Present),
        Asked::Active => matches!(right, Asked::Active),
        Asked::Restarted => matches!(right, Asked::Restarted),
        Asked::Output(i) => match right {
            Asked::Output(j) => is_same_number(i, j),
            _ => false,
        },
        Asked::ActiveState(i) => match right {
            Asked::ActiveState(j) => is_same_number(i, j),
            _ => false,
        },
        Asked::LeftState(i) => match right {
            Asked::LeftState(j) => is_same_number(i, j),
            _ => false,
        },
        Asked::Variable(x) => match right {
            Asked::Variable(y) => is_same_name(x, y),
            _ => false,
        },
        Asked::Last(x) => match right {
            Asked::Last(y) => is_same_name(x, y),
            _ => false,
        },
        Asked::Defined(x) => match right {
            Asked::Defined(y) => is_same_name(x, y),
            _ => false,
        },
        Asked::PresentOf(x) => match right {
            Asked::PresentOf(y) => is_same_name(x, y),
            _ => false,
        },
        Asked::Defines(i, x) => match right {
            Asked::Defines(j, y) => {
                if is_same_number(i, j) {
                    is_same_name(x, y)
                } else {
                    false
                }
            }
            _ => false,
        },
    }
}

/// Whether an entry is about what is asked at the end of a path, at an instant.
fn is_about(entry: &Entry<'_>, path: &[Step], asked: Asked<'_>, instant: usize) -> bool
    ensures { IsTrue result → IsAbout entry.now path.now asked.entry instant }
{
    if !is_same_number(entry.question.instant, instant) {
        return false;
    }
    if !is_same_asked(entry.question.asked, asked) {
        return false;
    }
    is_same_path(entry.question.path.as_slice(), path)
}

/// The answer to what is asked among some entries.
pub fn found(
    entries: &[Entry<'_>],
    path: &[Step],
    asked: Asked<'_>,
    instant: usize,
) -> Option<Answer>
    ensures { (c : ClockedProgram) (rows : List (List ℕ)) (top : ℕ) → All (IsRight c rows top) entries.now → IfSome result (Answered c rows (thing_at c top path.now) asked.entry instant) }
{
    for entry in entries {
        if is_about(entry, path, asked, instant) {
            return Some(entry.answer);
        }
    }
    None
}
