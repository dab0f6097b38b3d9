//! Types of a core's expressions.
ghost use Rattle.std.specs.Prelude.{◌≡◌, ◌∷◌, [], IfOk, map, Some};
ghost use Rattle.std.specs.List.{find};
ghost use Rattle.std.specs.Option.{option_copied, option_map, option_or};
ghost use Rattle.core_rules.specs.Cores.{as_interface, core_decls};
ghost use Rattle.hept_ast.specs.Faults.{node_named, type_of_variable};
ghost use Rattle.hept_ast.specs.Parts.{declaration};
ghost use Rattle.hept_ast.specs.Texts.{is_in, same};
ghost use Rattle.hept_ast.specs.Types.{future_of, type_of_const, type_of_constructor, types_of};
ghost use Rattle.hept_ast.specs.declared.tree.Plain.TheVariants.{Named};
ghost use Rattle.hept_ast.specs.declared.tree.Ty.{Ty as AType};
ghost use Rattle.normal_form.specs.OneType.{
  IsOutputOf,
  IsTypeOf,
  IsValueOf,
  binary_type,
  plain_of,
  unary_type,
};
ghost use Rattle.normal_form.specs.Scenes.{judging_in};

use hept_ast::{
    BinaryOp, Const, CoreNode, Decl, Expr, Form, Memory, Name, Plain, Ty, TypeDec, UnaryOp,
    copy_name, copy_type,
};
use std::alloc::Global;

/// A node of a core, between those before it and those after it.
#[derive(Clone, Copy)]
pub(crate) struct Scene<'a> {
    pub types: &'a [TypeDec],
    pub before: &'a [CoreNode],
    pub node: &'a CoreNode,
    pub after: &'a [CoreNode],
}

fn is_same(x: &Name, y: &Name) -> bool
    ensures { result ≡ same x.now y.now }
{
    x.bytes() == y.bytes()
}

fn is_among(x: &Name, names: &[Name]) -> bool
    ensures { result ≡ is_in x.now names.now }
{
    names.iter().any(|y| is_same(x, y))
}

/// The name of the type that declares a constructor.
fn declaring<'a>(types: &'a [TypeDec], constructor: &Name) -> Option<&'a Name>
    ensures { option_map (λ x. Named x.now) result ≡ type_of_constructor types.now constructor.now }
{
    for declared in types {
        if is_among(constructor, declared.constructors.as_slice()) {
            return Some(&declared.name);
        }
    }
    None
}

fn constructor_type(alloc: Global, types: &[TypeDec], constructor: &Name) -> Result<Plain, Memory>
    ensures { IfOk result (IsValueOf (type_of_constructor types.now constructor.now)) }
{
    match declaring(types, constructor) {
        Some(name) => Ok(Plain::Named(copy_name(alloc, name)?)),
        None => Ok(Plain::Int),
    }
}

fn const_type(alloc: Global, types: &[TypeDec], value: &Const) -> Result<Plain, Memory>
    ensures { IfOk result (IsValueOf (type_of_const types.now value.now)) }
{
    match value {
        Const::Number(_) => Ok(Plain::Int),
        Const::Truth(_) => Ok(Plain::Bool),
        Const::Constructor(name) => constructor_type(alloc, types, name),
    }
}

fn declaration<'a>(decls: &'a [Decl], name: &Name) -> Option<&'a Decl>
    ensures { option_copied result ≡ declaration decls.now name.now }
{
    decls.iter().find(|decl| is_same(name, &decl.name))
}

/// What was found, or else the declaration among these.
fn or_in<'a>(found: Option<&'a Decl>, decls: &'a [Decl], name: &Name) -> Option<&'a Decl>
    ensures { option_copied result ≡ option_or (option_copied found.entry) (declaration decls.now name.now) }
{
    match found {
        Some(decl) => Some(decl),
        None => declaration(decls, name),
    }
}

/// The declaration of a variable of the node.
#[tactic(auto, using(crate::proofs::Found::declarations))]
fn variable<'a>(node: &'a CoreNode, name: &Name) -> Option<&'a Decl>
    ensures { option_copied result ≡ declaration (core_decls node.now) name.now }
{
    let found = declaration(node.inputs.as_slice(), name);
    let found = or_in(found, node.outputs.as_slice(), name);
    or_in(found, node.locals.as_slice(), name)
}

fn variable_type(alloc: Global, scene: &Scene<'_>, name: &Name) -> Result<Ty, Memory>
    ensures { IfOk result (IsValueOf (type_of_variable (judging_in scene.now) name.now)) }
{
    match variable(scene.node, name) {
        Some(decl) => copy_type(alloc, &decl.ty),
        None => Ok(Ty::Plain(Plain::Int)),
    }
}

/// The first node of a name.
fn node_in<'a>(nodes: &'a [CoreNode], name: &Name) -> Option<&'a CoreNode>
    ensures { option_copied result ≡ find (λ n. same name.now n.name) nodes.now }
{
    nodes.iter().find(|node| is_same(name, &node.name))
}

/// The node of a name.
fn called<'a>(scene: &Scene<'a>, name: &Name) -> Option<&'a CoreNode>
    ensures { option_map as_interface (option_copied result) ≡ node_named (judging_in scene.now).nodes name.now }
{
    if let Some(node) = node_in(scene.before, name) {
        return Some(node);
    }
    if is_same(name, &scene.node.name) {
        return Some(scene.node);
    }
    node_in(scene.after, name)
}

/// The type of the one declaration.
fn only_type(alloc: Global, decls: &[Decl]) -> Result<Ty, Memory>
    ensures { IfOk result (λ t. (u : AType) → types_of decls.now ≡ u ∷ [] → t ≡ u) }
{
    match decls {
        [decl] => copy_type(alloc, &decl.ty),
        _ => Ok(Ty::Plain(Plain::Int)),
    }
}

/// The type of a node's one output.
fn output_type(alloc: Global, scene: &Scene<'_>, name: &Name) -> Result<Ty, Memory>
    ensures { IfOk result (IsOutputOf (judging_in scene.now) name.now) }
{
    match called(scene, name) {
        Some(node) => only_type(alloc, node.outputs.as_slice()),
        None => Ok(Ty::Plain(Plain::Int)),
    }
}

fn unary_type(op: UnaryOp) -> Ty
    ensures { result ≡ unary_type op }
{
    match op {
        UnaryOp::Minus => Ty::Plain(Plain::Int),
        UnaryOp::Not => Ty::Plain(Plain::Bool),
    }
}

fn binary_type(op: BinaryOp) -> Ty
    ensures { result ≡ binary_type op }
{
    match op {
        BinaryOp::Add | BinaryOp::Sub | BinaryOp::Mul | BinaryOp::Div | BinaryOp::Rem => {
            Ty::Plain(Plain::Int)
        }
        _ => Ty::Plain(Plain::Bool),
    }
}

fn future_of(ty: Ty) -> Ty
    ensures { result ≡ future_of ty }
{
    match ty {
        Ty::Plain(plain) => Ty::Future(plain),
        Ty::Future(plain) => Ty::Future(plain),
    }
}

/// The type of what a future holds.
fn plain_of(ty: Ty) -> Ty
    ensures { result ≡ plain_of ty }
{
    match ty {
        Ty::Plain(plain) => Ty::Plain(plain),
        Ty::Future(plain) => Ty::Plain(plain),
    }
}

/// The type of an expression that has one.
pub(crate) fn type_of(alloc: Global, scene: &Scene<'_>, e: &Expr) -> Result<Ty, Memory>
    ensures { IfOk result (IsTypeOf (judging_in scene.now) e.now) }
{
    match &e.form {
        Form::Const(value) => {
            let held = const_type(alloc, scene.types, value)?;
            Ok(Ty::Plain(held))
        }
        Form::Var(name) => variable_type(alloc, scene, name),
        Form::Last(name) => variable_type(alloc, scene, name),
        Form::Unary(op, _) => Ok(unary_type(*op)),
        Form::Binary(op, _, _) => Ok(binary_type(*op)),
        Form::If(_, a, _) => type_of(alloc, scene, a.get()),
        Form::Fby(a, _) => type_of(alloc, scene, a.get()),
        Form::Pre(a) => type_of(alloc, scene, a.get()),
        Form::Arrow(a, _) => type_of(alloc, scene, a.get()),
        Form::When(a, _, _) => type_of(alloc, scene, a.get()),
        Form::Merge(_, branches) => match branches.as_slice() {
            [branch, ..] => type_of(alloc, scene, &branch.value),
            [] => Ok(Ty::Plain(Plain::Int)),
        },
        Form::Call(name, _) => output_type(alloc, scene, name),
        Form::AsyncCall(_, name, _) => {
            let output = output_type(alloc, scene, name)?;
            Ok(future_of(output))
        }
        Form::AsyncConst(value) => {
            let held = const_type(alloc, scene.types, value)?;
            Ok(Ty::Future(held))
        }
        Form::Get(a) => {
            let future = type_of(alloc, scene, a.get())?;
            Ok(plain_of(future))
        }
    }
}
