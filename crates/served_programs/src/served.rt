//! Whether a program is one that is run so far.
ghost use Rattle.std.specs.Prelude.{◌≡◌, ◌↔◌, All, IfOk, IsTrue};
ghost use Rattle.hept_ast.specs.Parts.{expressions, variables};
ghost use Rattle.hept_ast.specs.declared.tree.Equation.{out-Equation};
ghost use Rattle.hept_ast.specs.declared.tree.Form.{out-Form};
ghost use Rattle.served_programs.specs.Served.{
  IsPlainDecl,
  IsServed,
  IsServedEquation,
  IsServedNode,
  is_served_form,
};

use hept_ast::{Decl, Equation, Expr, Form, Memory, Node, Program, Ty};
use node_text::{node_declarations, node_expressions};
use std::alloc::Global;

fn has_served_form(expr: &Expr) -> bool
    ensures { result ≡ is_served_form (out-Form expr.now.form) }
{
    matches!(
        &expr.form,
        Form::Const(..)
            | Form::Var(..)
            | Form::Unary(..)
            | Form::Binary(..)
            | Form::If(..)
            | Form::Fby(..)
            | Form::Pre(..)
            | Form::Arrow(..)
            | Form::When(..)
            | Form::Merge(..)
            | Form::Call(..)
    )
}

fn have_served_forms(mut exprs: &[&Expr]) -> bool
    ensures { IsTrue result ↔ All (λ r. IsTrue (is_served_form (out-Form r.now.form))) exprs.entry.now }
{
    while let [first, rest @ ..] = exprs {
        if !has_served_form(first) {
            return false;
        }
        exprs = rest;
    }
    true
}

/// Whether an equation is a plain one.
fn is_served_equation(equation: &Equation) -> bool
    ensures { IsTrue result ↔ IsServedEquation (out-Equation equation.now) }
{
    matches!(equation, Equation::Define { .. })
}

fn are_served_equations(mut equations: &[Equation]) -> bool
    ensures { IsTrue result ↔ All (λ e. IsServedEquation (out-Equation e)) equations.entry.now }
{
    while let [first, rest @ ..] = equations {
        if !is_served_equation(first) {
            return false;
        }
        equations = rest;
    }
    true
}

fn is_plain(decl: &Decl) -> bool
    ensures { IsTrue result ↔ IsPlainDecl decl.now }
{
    if decl.init.is_some() {
        return false;
    }
    match &decl.ty {
        Ty::Plain(_) => true,
        Ty::Future(_) => false,
    }
}

fn are_plain(mut decls: &[&Decl]) -> bool
    ensures { IsTrue result ↔ All (λ r. IsPlainDecl r.now) decls.entry.now }
{
    while let [first, rest @ ..] = decls {
        if !is_plain(first) {
            return false;
        }
        decls = rest;
    }
    true
}

fn is_served_node(alloc: Global, node: &Node) -> Result<bool, Memory>
    ensures { IfOk result (λ b. IsTrue b ↔ IsServedNode node.now) }
{
    if !are_served_equations(node.block.body.as_slice()) {
        return Ok(false);
    }
    let exprs = node_expressions(alloc, node)?;
    if !have_served_forms(&exprs) {
        return Ok(false);
    }
    let decls = node_declarations(alloc, node)?;
    Ok(are_plain(&decls))
}

/// Whether each node of a program has only plain equations over constants, variables, operators, `if`,
/// memory operators, `when`, merges and synchronous calls, and only variables of plain types.
pub fn is_served(alloc: Global, program: &Program) -> Result<bool, Memory>
    ensures { IfOk result (λ b. IsTrue b ↔ IsServed program.now) }
{
    let mut nodes = program.nodes.as_slice();
    while let Some((first, rest)) = nodes.split_first() {
        if !is_served_node(alloc, first)? {
            return Ok(false);
        }
        nodes = rest;
    }
    Ok(true)
}
