//! Makes expressions.
ghost use Rattle.std.specs.Prelude.{◌≡◌, IfOk, MatchResult};
ghost use Rattle.ept_grammar.specs.Grammar.{at, named as named_form, negative, size};
ghost use Rattle.hept_ast.specs.declared.tree.Form.TheVariants as form;
ghost use Rattle.hept_ast.specs.declared.tree.Const.TheVariants as const;

use ept_grammar::{Fault, Sample};
use ept_tokens::Token;
use hept_ast::{BinaryOp, Const, Expr, Form, MergeBranch, Place, UnaryOp, copy_name};
use sqlite_items::{Boxed, Items};
use std::alloc::{AllocError, Global};

pub fn number(token: &Token) -> Const
    ensures { result ≡ const.Number token.now.number }
{
    Const::Number(token.number)
}

pub fn negative_number(token: &Token) -> Const
    ensures { result ≡ const.Number (negative token.now.number) }
{
    Const::Number(token.number.wrapping_neg())
}

pub fn constant(token: &Token) -> Expr
    ensures { result ≡ at token.now.place (form.Const (const.Number token.now.number)) }
{
    Expr {
        place: token.place,
        form: Form::Const(number(token)),
    }
}

/// The negative number of a token.
pub fn negative(place: Place, token: &Token) -> Expr
    ensures { result ≡ at place (form.Const (const.Number (negative token.now.number))) }
{
    Expr {
        place,
        form: Form::Const(negative_number(token)),
    }
}

/// An expression of a form.
pub fn placed(word: &Token, form: Form) -> Expr
    ensures { result ≡ at word.now.place form }
{
    Expr {
        place: word.place,
        form,
    }
}

pub fn choice(alloc: Global, condition: Expr, yes: Expr, no: Expr) -> Result<Form, AllocError>
    ensures { IfOk result (λ f. f ≡ form.If condition yes no) }
{
    let condition = Boxed::new(alloc, condition)?;
    Ok(Form::If(condition, Boxed::new(alloc, yes)?, Boxed::new(alloc, no)?))
}

/// A `merge` of the variable that a token names.
pub fn merge(alloc: Global, token: &Token, branches: Items<MergeBranch>) -> Result<Form, Fault>
    ensures { MatchResult result (λ f. f ≡ form.Merge token.now.name branches) (λ e. e ≡ Fault.Memory) }
{
    let name = copy_name(alloc, &token.name)?;
    Ok(Form::Merge(name, branches))
}

pub fn arrow(alloc: Global, place: Place, left: Expr, right: Expr) -> Result<Expr, AllocError>
    ensures { IfOk result (λ e. e ≡ at place (form.Arrow left right)) }
{
    let form = Form::Arrow(Boxed::new(alloc, left)?, Boxed::new(alloc, right)?);
    Ok(Expr { place, form })
}

pub fn fby(alloc: Global, place: Place, left: Expr, right: Expr) -> Result<Expr, AllocError>
    ensures { IfOk result (λ e. e ≡ at place (form.Fby left right)) }
{
    let form = Form::Fby(Boxed::new(alloc, left)?, Boxed::new(alloc, right)?);
    Ok(Expr { place, form })
}

pub fn when(alloc: Global, left: Expr, sample: Sample) -> Result<Expr, AllocError>
    ensures { IfOk result (λ e. e ≡ at sample.place (form.When left sample.tag sample.name)) }
{
    let place = sample.place;
    let form = Form::When(Boxed::new(alloc, left)?, sample.tag, sample.name);
    Ok(Expr { place, form })
}

pub fn infix(
    alloc: Global,
    place: Place,
    sign: BinaryOp,
    left: Expr,
    right: Expr,
) -> Result<Expr, AllocError>
    ensures { IfOk result (λ e. e ≡ at place (form.Binary sign left right)) }
{
    let form = Form::Binary(sign, Boxed::new(alloc, left)?, Boxed::new(alloc, right)?);
    Ok(Expr { place, form })
}

pub fn unary(alloc: Global, place: Place, sign: UnaryOp, operand: Expr) -> Result<Expr, AllocError>
    ensures { IfOk result (λ e. e ≡ at place (form.Unary sign operand)) }
{
    let form = Form::Unary(sign, Boxed::new(alloc, operand)?);
    Ok(Expr { place, form })
}

pub fn pre(alloc: Global, place: Place, operand: Expr) -> Result<Expr, AllocError>
    ensures { IfOk result (λ e. e ≡ at place (form.Pre operand)) }
{
    let form = Form::Pre(Boxed::new(alloc, operand)?);
    Ok(Expr { place, form })
}

pub fn get(alloc: Global, place: Place, operand: Expr) -> Result<Expr, AllocError>
    ensures { IfOk result (λ e. e ≡ at place (form.Get operand)) }
{
    let form = Form::Get(Boxed::new(alloc, operand)?);
    Ok(Expr { place, form })
}

/// A variable, or a call with arguments.
pub fn named(alloc: Global, token: &Token, args: Option<Items<Expr>>) -> Result<Expr, Fault>
    ensures { MatchResult result (λ e. e ≡ at token.now.place (named_form token.now.name args)) (λ e. e ≡ Fault.Memory) }
{
    let place = token.place;
    let name = copy_name(alloc, &token.name)?;
    match args {
        None => Ok(Expr {
            place,
            form: Form::Var(name),
        }),
        Some(args) => Ok(Expr {
            place,
            form: Form::Call(name, args),
        }),
    }
}

pub fn truth(word: &Token, value: bool) -> Expr
    ensures { result ≡ at word.now.place (form.Const (const.Truth value)) }
{
    Expr {
        place: word.place,
        form: Form::Const(Const::Truth(value)),
    }
}

pub fn constructor(alloc: Global, token: &Token) -> Result<Expr, Fault>
    ensures { MatchResult result (λ e. e ≡ at token.now.place (form.Const (const.Constructor token.now.name))) (λ e. e ≡ Fault.Memory) }
{
    let place = token.place;
    let name = copy_name(alloc, &token.name)?;
    Ok(Expr {
        place,
        form: Form::Const(Const::Constructor(name)),
    })
}

/// The last value of a variable, from the word `last` and its name.
pub fn last(alloc: Global, word: &Token, token: &Token) -> Result<Expr, Fault>
    ensures { MatchResult result (λ e. e ≡ at word.now.place (form.Last token.now.name)) (λ e. e ≡ Fault.Memory) }
{
    let place = word.place;
    let name = copy_name(alloc, &token.name)?;
    Ok(Expr {
        place,
        form: Form::Last(name),
    })
}

/// A call by `async`, with the length of its queue.
pub fn async_call(alloc: Global, size: u32, token: &Token, args: Items<Expr>) -> Result<Form, Fault>
    ensures { MatchResult result (λ f. f ≡ form.AsyncCall size token.now.name args) (λ e. e ≡ Fault.Memory) }
{
    let name = copy_name(alloc, &token.name)?;
    Ok(Form::AsyncCall(size, name, args))
}

/// A call by `async` whose queue has the length that a token writes.
pub fn queued_call(
    alloc: Global,
    length: &Token,
    token: &Token,
    args: Items<Expr>,
) -> Result<Form, Fault>
    ensures { MatchResult result (λ f. f ≡ form.AsyncCall (size length.now.number) token.now.name args) (λ e. e ≡ Fault.Memory) }
{
    async_call(alloc, length.number.cast_unsigned(), token, args)
}
