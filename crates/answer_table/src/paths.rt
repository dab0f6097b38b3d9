ghost use Rattle.std.specs.Prelude.{◌≡◌, ◌∷◌, ◌++◌, [], IfOk, IfSome, IsSome, OnSome, None, slice_get};
ghost use Rattle.std.specs.Option.{option_copied, option_map};
ghost use Rattle.answer_table.specs.Parts.{
  body_at,
  branch_at,
  called_of,
  every_at,
  left_at,
  on_at,
  operand_of,
  right_at,
  state_at,
  states_at,
  strong_at,
  weak_at,
};
ghost use Rattle.hept_ast.specs.declared.tree.Form.{out-Form};

use hept_ast::{Block, Branch, Equation, Escape, Expr, Form, Memory, Name, Node, State, Tag};
use sqlite_items::at;
use std::alloc::Global;

/// A step from a scope or an expression into a part of it. Equations, branches, states, transitions,
/// names on a left side and operands go by their positions.
#[derive(Clone, Copy, Debug, PartialEq, Eq)]
pub enum Step {
    /// A branch of a switch.
    Branch {
        equation: usize,
        branch: usize,
    },
    /// The body of a reset.
    Body {
        equation: usize,
    },
    /// A state of an automaton.
    State {
        equation: usize,
        state: usize,
    },
    /// The right side of an equation, for a name on its left side.
    Right {
        equation: usize,
        name: usize,
    },
    /// What a switch is on.
    On {
        equation: usize,
    },
    /// The condition of a reset.
    Every {
        equation: usize,
    },
    /// The condition of a strong transition.
    Strong {
        equation: usize,
        state: usize,
        escape: usize,
    },
    /// The condition of a weak transition, in its state.
    Weak {
        equation: usize,
        state: usize,
        escape: usize,
    },
    /// An operand.
    Operand {
        operand: usize,
    },
    /// The body of the node that an expression calls.
    Callee,
}

/// What a path leads to.
#[derive(Clone, Copy)]
pub enum View<'a> {
    /// A scope: the number of its node, the node, and the scope's own block.
    Scope {
        number: usize,
        node: &'a Node,
        block: &'a Block,
    },
    Expression {
        number: usize,
        node: &'a Node,
        expr: &'a Expr,
    },
}

/// A path with one more step.
pub fn extended(alloc: Global, path: &[Step], step: Step) -> Result<Vec<Step>, Memory>
    ensures { IfOk result (λ longer. longer.items ≡ path.now ++ step ∷ []) }
{
    let Ok(mut longer) = Vec::from_slice(alloc, path) else {
        return Err(Memory);
    };
    match longer.push(step) {
        Ok(()) => Ok(longer),
        Err(_) => Err(Memory),
    }
}

pub fn equation_at(block: &Block, equation: usize) -> Option<&Equation>
    ensures { option_copied result ≡ slice_get block.now.body equation }
{
    at(block.body.as_slice(), equation)
}

pub fn branch_at(block: &Block, equation: usize, branch: usize) -> Option<&Branch>
    ensures { option_copied result ≡ branch_at block.now equation branch }
{
    match equation_at(block, equation) {
        Some(Equation::Switch { branches, .. }) => at(branches.as_slice(), branch),
        _ => None,
    }
}

pub fn body_at(block: &Block, equation: usize) -> Option<&Block>
    ensures { option_copied result ≡ body_at block.now equation }
{
    match equation_at(block, equation) {
        Some(Equation::Reset { block, .. }) => Some(block.get()),
        _ => None,
    }
}

pub fn states_at(block: &Block, equation: usize) -> Option<&[State]>
    ensures { option_copied result ≡ states_at block.now equation }
{
    match equation_at(block, equation) {
        Some(Equation::Automaton { states, .. }) => Some(states.as_slice()),
        _ => None,
    }
}

pub fn state_at(block: &Block, equation: usize, state: usize) -> Option<&State>
    ensures { option_copied result ≡ state_at block.now equation state }
{
    match states_at(block, equation) {
        Some(states) => at(states, state),
        None => None,
    }
}

pub fn right_at(block: &Block, equation: usize) -> Option<&Expr>
    ensures { option_copied result ≡ right_at block.now equation }
{
    match equation_at(block, equation) {
        Some(Equation::Define { right, .. }) => Some(right),
        _ => None,
    }
}

pub fn left_at(block: &Block, equation: usize, name: usize) -> Option<&Name>
    ensures { option_copied result ≡ left_at block.now equation name }
{
    match equation_at(block, equation) {
        Some(Equation::Define { left, .. }) => at(left.as_slice(), name),
        _ => None,
    }
}

pub fn on_at(block: &Block, equation: usize) -> Option<&Expr>
    ensures { option_copied result ≡ on_at block.now equation }
{
    match equation_at(block, equation) {
        Some(Equation::Switch { on, .. }) => Some(on),
        _ => None,
    }
}

pub fn every_at(block: &Block, equation: usize) -> Option<&Expr>
    ensures { option_copied result ≡ every_at block.now equation }
{
    match equation_at(block, equation) {
        Some(Equation::Reset { every, .. }) => Some(every),
        _ => None,
    }
}

pub fn strong_at(block: &Block, equation: usize, state: usize, escape: usize) -> Option<&Escape>
    ensures { option_copied result ≡ strong_at block.now equation state escape }
{
    match state_at(block, equation, state) {
        Some(state) => at(state.strong.as_slice(), escape),
        None => None,
    }
}

pub fn weak_at(block: &Block, equation: usize, state: usize, escape: usize) -> Option<&Escape>
    ensures { option_copied result ≡ weak_at block.now equation state escape }
{
    match state_at(block, equation, state) {
        Some(state) => at(state.weak.as_slice(), escape),
        None => None,
    }
}

/// An operand of an expression, or an argument of a call.
pub fn operand(expr: &Expr, operand: usize) -> Option<&Expr>
    ensures { option_copied result ≡ operand_of (out-Form expr.now.form) operand }
{
    match &expr.form {
        Form::Unary(_, a) | Form::Pre(a) | Form::When(a, _, _) | Form::Get(a) => match operand {
            0 => Some(a.get()),
            _ => None,
        },
        Form::Binary(_, a, b) | Form::Fby(a, b) | Form::Arrow(a, b) => match operand {
            0 => Some(a.get()),
            1 => Some(b.get()),
            _ => None,
        },
        Form::If(a, b, c) => match operand {
            0 => Some(a.get()),
            1 => Some(b.get()),
            2 => Some(c.get()),
            _ => None,
        },
        Form::Merge(_, branches) => match at(branches.as_slice(), operand) {
            Some(branch) => Some(&branch.value),
            None => None,
        },
        Form::Call(_, arguments) | Form::AsyncCall(_, _, arguments) => {
            at(arguments.as_slice(), operand)
        }
        _ => None,
    }
}

/// The name of the node that an expression calls.
pub fn called(expr: &Expr) -> Option<&Name>
    ensures { option_copied result ≡ called_of (out-Form expr.now.form) }
{
    match &expr.form {
        Form::Call(name, _) | Form::AsyncCall(_, name, _) => Some(name),
        _ => None,
    }
}

/// A step of a clock.
#[derive(Clone, Copy)]
pub struct Held<'a> {
    pub tag: &'a Tag,
    pub name: &'a Name,
}
