//! All expressions of a node, collected in the order of the text.
ghost use Rattle.std.specs.Prelude.{◌≡◌, ◌++◌, ◌∷◌, [], map, IfOk, OnOk};
ghost use Rattle.std.specs.List.{flat_map};
ghost use Rattle.hept_ast.specs.Parts.{expressions, inside};
ghost use Rattle.hept_ast.specs.InnerParts.{expressions_in};
ghost use Rattle.node_text.specs.Pieces.{piece_of};

use crate::pieces::{Piece, push_equations};
use hept_ast::{Expr, Form, Memory, Node};
use std::alloc::Global;

fn push_expr<'a>(exprs: &mut Vec<&'a Expr>, e: &'a Expr) -> Result<(), Memory>
    ensures { OnOk result (map (λ r. r.now) exprs.new.items ≡ map (λ r. r.now) exprs.old.items ++ e.now ∷ []) }
{
    match exprs.push(e) {
        Ok(()) => Ok(()),
        Err(_) => Err(Memory),
    }
}

/// Appends an expression and all those inside it.
#[tactic(auto, using(hept_ast::proofs::FormsOf::below_of))]
pub fn push_inside<'a>(exprs: &mut Vec<&'a Expr>, e: &'a Expr) -> Result<(), Memory>
    ensures { OnOk result (map (λ r. r.now) exprs.new.items ≡ map (λ r. r.now) exprs.old.items ++ inside e.now) }
{
    push_expr(exprs, e)?;
    match &e.form {
        Form::Const(_) => Ok(()),
        Form::Var(_) => Ok(()),
        Form::Last(_) => Ok(()),
        Form::Unary(_, a) => push_inside(exprs, a.get()),
        Form::Binary(_, a, b) => {
            push_inside(exprs, a.get())?;
            push_inside(exprs, b.get())
        }
        Form::If(c, a, b) => {
            push_inside(exprs, c.get())?;
            push_inside(exprs, a.get())?;
            push_inside(exprs, b.get())
        }
        Form::Fby(a, b) => {
            push_inside(exprs, a.get())?;
            push_inside(exprs, b.get())
        }
        Form::Pre(a) => push_inside(exprs, a.get()),
        Form::Arrow(a, b) => {
            push_inside(exprs, a.get())?;
            push_inside(exprs, b.get())
        }
        Form::When(a, _, _) => push_inside(exprs, a.get()),
        Form::Merge(_, branches) => {
            for branch in branches.as_slice() {
                push_inside(exprs, &branch.value)?;
            }
            Ok(())
        }
        Form::Call(_, args) => {
            for arg in args.as_slice() {
                push_inside(exprs, arg)?;
            }
            Ok(())
        }
        Form::AsyncCall(_, _, args) => {
            for arg in args.as_slice() {
                push_inside(exprs, arg)?;
            }
            Ok(())
        }
        Form::AsyncConst(_) => Ok(()),
        Form::Get(a) => push_inside(exprs, a.get()),
    }
}

fn push_of_piece<'a>(exprs: &mut Vec<&'a Expr>, piece: Piece<'a>) -> Result<(), Memory>
    ensures { OnOk result (map (λ r. r.now) exprs.new.items ≡ map (λ r. r.now) exprs.old.items ++ expressions_in (piece_of piece.entry)) }
{
    match piece {
        Piece::Block(_, _) => Ok(()),
        Piece::Plain(_, _, right) => push_inside(exprs, right),
        Piece::Switch(_, on, _) => push_inside(exprs, on),
        Piece::Reset(_, every, _) => push_inside(exprs, every),
        Piece::Automaton(_, _) => Ok(()),
        Piece::Transition(_, _, escape) => push_inside(exprs, &escape.condition),
    }
}

/// Appends all expressions of some parts.
pub fn push_expressions<'a>(exprs: &mut Vec<&'a Expr>, pieces: &[Piece<'a>]) -> Result<(), Memory>
    ensures { OnOk result (map (λ r. r.now) exprs.new.items ≡ map (λ r. r.now) exprs.old.items ++ flat_map expressions_in (map piece_of pieces.now)) }
{
    for piece in pieces {
        push_of_piece(exprs, *piece)?;
    }
    Ok(())
}

/// All expressions of a node, in the order of the text.
#[tactic(auto, using(hept_ast::proofs::WholeNode::whole_node))]
pub fn node_expressions<'a>(alloc: Global, node: &'a Node) -> Result<Vec<&'a Expr>, Memory>
    ensures { IfOk result (λ v. map (λ r. r.now) v.items ≡ expressions node.now) }
{
    let mut pieces = Vec::new(alloc);
    push_equations(&mut pieces, node.block.body.as_slice())?;
    let mut exprs = Vec::new(alloc);
    push_expressions(&mut exprs, &pieces)?;
    Ok(exprs)
}
