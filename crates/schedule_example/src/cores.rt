//! Cores and their equations.
ghost use Rattle.std.specs.Prelude.{◌≡◌, ◌∷◌, [], IfOk};
ghost use Rattle.core_rules.specs.WellFormed.{expr, int_decl};
ghost use Rattle.hept_ast.specs.declared.tree.Form.TheVariants as form;
ghost use Rattle.schedule_example.specs.Example.{copy_of, defined_as, sum_of, turned_core, turned_node};

use hept_ast::{
    BinaryOp, ClockPath, ClockStep, Const, Core, CoreEquation, CoreNode, Decl, Expr, Form, Memory,
    Name, Place, Plain, Tag, Ty,
};
use sqlite_items::{Boxed, Items};
use std::alloc::{AllocError, Global};

fn name(alloc: Global, text: &[u8]) -> Result<Name, AllocError>
    ensures { IfOk result (λ x. x ≡ text.now) }
{
    match Name::of(alloc, text) {
        Ok(name) => Ok(name),
        Err(Memory) => Err(AllocError),
    }
}

fn expr(form: Form) -> Expr
    ensures { result ≡ expr form }
{
    let place = Place(0);
    Expr { place, form }
}

pub(crate) fn read(alloc: Global, text: &[u8]) -> Result<Expr, AllocError>
    ensures { IfOk result (λ e. e ≡ expr (form.Var text.now)) }
{
    Ok(expr(Form::Var(name(alloc, text)?)))
}

fn zero() -> Expr {
    expr(Form::Const(Const::Number(0)))
}

fn operand(alloc: Global, text: &[u8]) -> Result<Boxed<Expr>, AllocError>
    ensures { IfOk result (λ e. e ≡ expr (form.Var text.now)) }
{
    Boxed::new(alloc, read(alloc, text)?)
}

// x + x
pub(crate) fn double(alloc: Global, text: &[u8]) -> Result<Expr, AllocError> {
    let left = operand(alloc, text)?;
    let right = operand(alloc, text)?;
    Ok(expr(Form::Binary(BinaryOp::Add, left, right)))
}

// 0 fby x
pub(crate) fn delayed(alloc: Global, text: &[u8]) -> Result<Expr, AllocError> {
    let first = Boxed::new(alloc, zero())?;
    let next = operand(alloc, text)?;
    Ok(expr(Form::Fby(first, next)))
}

fn named(alloc: Global, text: &[u8]) -> Result<Items<Name>, AllocError>
    ensures { IfOk result (λ xs. xs ≡ text.now ∷ []) }
{
    let mut names = Items::new(alloc);
    names.push(name(alloc, text)?)?;
    Ok(names)
}

pub(crate) fn equation(alloc: Global, left: &[u8], right: Expr) -> Result<CoreEquation, AllocError>
    ensures { IfOk result (λ e. e ≡ defined_as left.now right) }
{
    let left = named(alloc, left)?;
    let steps = Items::new(alloc);
    Ok(CoreEquation {
        place: Place(0),
        left,
        clock: ClockPath { steps },
        right,
        resets: Items::new(alloc),
    })
}

fn declared(alloc: Global, text: &[u8]) -> Result<Items<Decl>, AllocError>
    ensures { IfOk result (λ ds. ds ≡ int_decl text.now ∷ []) }
{
    let mut decls = Items::new(alloc);
    decls.push(Decl {
        place: Place(0),
        name: name(alloc, text)?,
        ty: Ty::Plain(Plain::Int),
        init: None,
    })?;
    Ok(decls)
}

// y = a + 1
fn sum_of(alloc: Global) -> Result<CoreEquation, AllocError>
    ensures { IfOk result (λ e. e ≡ sum_of) }
{
    let left = operand(alloc, b"a")?;
    let right = Boxed::new(alloc, expr(Form::Const(Const::Number(1))))?;
    equation(alloc, b"y", expr(Form::Binary(BinaryOp::Add, left, right)))
}

// a = x
fn copy_of(alloc: Global) -> Result<CoreEquation, AllocError>
    ensures { IfOk result (λ e. e ≡ copy_of) }
{
    equation(alloc, b"a", read(alloc, b"x")?)
}

fn turned_equations(alloc: Global) -> Result<Items<CoreEquation>, AllocError>
    ensures { IfOk result (λ es. es ≡ sum_of ∷ copy_of ∷ []) }
{
    let mut equations = Items::new(alloc);
    equations.push(sum_of(alloc)?)?;
    equations.push(copy_of(alloc)?)?;
    Ok(equations)
}

fn turned_node(alloc: Global) -> Result<CoreNode, AllocError>
    ensures { IfOk result (λ node. node ≡ turned_node) }
{
    let name = name(alloc, b"next")?;
    let inputs = declared(alloc, b"x")?;
    let outputs = declared(alloc, b"y")?;
    let locals = declared(alloc, b"a")?;
    let equations = turned_equations(alloc)?;
    Ok(CoreNode {
        name,
        inputs,
        outputs,
        locals,
        equations,
    })
}

pub(crate) fn turned_core(alloc: Global) -> Result<Core, AllocError>
    ensures { IfOk result (λ core. core ≡ turned_core) }
{
    let mut nodes = Items::new(alloc);
    nodes.push(turned_node(alloc)?)?;
    let types = Items::new(alloc);
    Ok(Core { types, nodes })
}

// y = 0, on the clock of c
pub(crate) fn sampled(alloc: Global) -> Result<CoreEquation, AllocError> {
    let mut y = equation(alloc, b"y", zero())?;
    y.clock.steps.push(ClockStep {
        tag: Tag::Truth(true),
        name: name(alloc, b"c")?,
    })?;
    Ok(y)
}

// y = 0, with a reset r
pub(crate) fn reset(alloc: Global) -> Result<CoreEquation, AllocError> {
    let mut y = equation(alloc, b"y", zero())?;
    y.resets.push(name(alloc, b"r")?)?;
    Ok(y)
}

// Two equations.
pub(crate) fn pair(
    alloc: Global,
    first: CoreEquation,
    second: CoreEquation,
) -> Result<Items<CoreEquation>, AllocError> {
    let mut equations = Items::new(alloc);
    equations.push(first)?;
    equations.push(second)?;
    Ok(equations)
}

// An equation whose right side is the sum of a variable with itself.
fn doubled(alloc: Global, left: &[u8], right: &[u8]) -> Result<CoreEquation, AllocError> {
    equation(alloc, left, double(alloc, right)?)
}

// y = a + a, a = b + b, b = x
pub(crate) fn chain(alloc: Global) -> Result<Items<CoreEquation>, AllocError> {
    let mut equations = Items::new(alloc);
    equations.push(doubled(alloc, b"y", b"a")?)?;
    equations.push(doubled(alloc, b"a", b"b")?)?;
    equations.push(equation(alloc, b"b", read(alloc, b"x")?)?)?;
    Ok(equations)
}
