//! What is declared around a part of a node's text.
ghost use Rattle.std.specs.Prelude.{◌≡◌, ◌++◌, ◌∷◌, [], IfOk, OnOk, map};
ghost use Rattle.std.specs.Option.{option_copied};
ghost use Rattle.std.specs.List.{flat_map};
ghost use Rattle.hept_ast.specs.Parts.{declaration, declared_in, variables};
ghost use Rattle.hept_ast.specs.Texts.{names};
ghost use Rattle.node_text.specs.Pieces.{piece_of};

use crate::names::{is_same, push_name};
use crate::pieces::{Piece, push_equations};
use hept_ast::{Decl, Memory, Name, Node};
use std::alloc::Global;

/// The declaration of a name among some.
pub fn declaration<'a>(seen: &[&'a Decl], name: &Name) -> Option<&'a Decl>
    ensures { option_copied result ≡ declaration (map (λ r. r.now) seen.now) name.now }
{
    for decl in seen {
        if is_same(name, &decl.name) {
            return Some(*decl);
        }
    }
    None
}

/// The declaration of a name, among those of the blocks around a part and then the node's own.
pub fn declaration_at<'a>(inner: &[&'a Decl], own: &[&'a Decl], name: &Name) -> Option<&'a Decl>
    ensures { option_copied result ≡ declaration (map (λ r. r.now) inner.now ++ map (λ r. r.now) own.now) name.now }
{
    match declaration(inner, name) {
        Some(decl) => Some(decl),
        None => declaration(own, name),
    }
}

fn push_decl<'a>(seen: &mut Vec<&'a Decl>, decl: &'a Decl) -> Result<(), Memory>
    ensures { OnOk result (map (λ r. r.now) seen.new.items ≡ map (λ r. r.now) seen.old.items ++ decl.now ∷ []) }
{
    match seen.push(decl) {
        Ok(()) => Ok(()),
        Err(_) => Err(Memory),
    }
}

fn push_declared<'a>(seen: &mut Vec<&'a Decl>, decls: &'a [Decl]) -> Result<(), Memory>
    ensures { OnOk result (map (λ r. r.now) seen.new.items ≡ map (λ r. r.now) seen.old.items ++ decls.now) }
{
    for decl in decls {
        push_decl(seen, decl)?;
    }
    Ok(())
}

fn push_seen<'a>(seen: &mut Vec<&'a Decl>, more: &[&'a Decl]) -> Result<(), Memory>
    ensures { OnOk result (map (λ r. r.now) seen.new.items ≡ map (λ r. r.now) seen.old.items ++ map (λ r. r.now) more.now) }
{
    for decl in more {
        push_decl(seen, decl)?;
    }
    Ok(())
}

/// What a block declares, before what is declared around it.
pub fn declared_inside<'a>(
    alloc: Global,
    locals: &'a [Decl],
    inner: &[&'a Decl],
) -> Result<Vec<&'a Decl>, Memory>
    ensures { IfOk result (λ v. map (λ r. r.now) v.items ≡ locals.now ++ map (λ r. r.now) inner.now) }
{
    let mut seen = Vec::new(alloc);
    push_declared(&mut seen, locals)?;
    push_seen(&mut seen, inner)?;
    Ok(seen)
}

/// What a node declares itself, without the blocks inside it.
pub fn own_declarations<'a>(alloc: Global, node: &'a Node) -> Result<Vec<&'a Decl>, Memory>
    ensures { IfOk result (λ v. map (λ r. r.now) v.items ≡ node.now.block.locals ++ node.now.outputs ++ node.now.inputs) }
{
    let mut seen = Vec::new(alloc);
    push_declared(&mut seen, node.block.locals.as_slice())?;
    push_declared(&mut seen, node.outputs.as_slice())?;
    push_declared(&mut seen, node.inputs.as_slice())?;
    Ok(seen)
}

/// Appends the names of some declarations.
pub fn push_declared_names<'a>(out: &mut Vec<&'a Name>, decls: &'a [Decl]) -> Result<(), Memory>
    ensures { OnOk result (map (λ r. r.now) out.new.items ≡ map (λ r. r.now) out.old.items ++ names decls.now) }
{
    for decl in decls {
        push_name(out, &decl.name)?;
    }
    Ok(())
}

fn push_of_piece<'a>(out: &mut Vec<&'a Decl>, piece: Piece<'a>) -> Result<(), Memory>
    ensures { OnOk result (map (λ r. r.now) out.new.items ≡ map (λ r. r.now) out.old.items ++ declared_in (piece_of piece.entry)) }
{
    match piece {
        Piece::Block(locals, _) => push_declared(out, locals),
        Piece::Plain(_, _, _) => Ok(()),
        Piece::Switch(_, _, _) => Ok(()),
        Piece::Reset(_, _, _) => Ok(()),
        Piece::Automaton(_, _) => Ok(()),
        Piece::Transition(_, _, _) => Ok(()),
    }
}

fn push_of_pieces<'a>(out: &mut Vec<&'a Decl>, pieces: &[Piece<'a>]) -> Result<(), Memory>
    ensures { OnOk result (map (λ r. r.now) out.new.items ≡ map (λ r. r.now) out.old.items ++ flat_map declared_in (map piece_of pieces.now)) }
{
    for piece in pieces {
        push_of_piece(out, *piece)?;
    }
    Ok(())
}

/// All variables of a node, those of its blocks included, in the order of the text.
#[tactic(auto, using(crate::proofs::Variables::variables_of))]
pub fn node_declarations<'a>(alloc: Global, node: &'a Node) -> Result<Vec<&'a Decl>, Memory>
    ensures { IfOk result (λ v. map (λ r. r.now) v.items ≡ variables node.now) }
{
    let mut pieces = Vec::new(alloc);
    push_equations(&mut pieces, node.block.body.as_slice())?;
    let mut out = Vec::new(alloc);
    push_declared(&mut out, node.inputs.as_slice())?;
    push_declared(&mut out, node.outputs.as_slice())?;
    push_declared(&mut out, node.block.locals.as_slice())?;
    push_of_pieces(&mut out, &pieces)?;
    Ok(out)
}

fn push_names_of<'a>(out: &mut Vec<&'a Name>, decls: &[&'a Decl]) -> Result<(), Memory>
    ensures { OnOk result (map (λ r. r.now) out.new.items ≡ map (λ r. r.now) out.old.items ++ names (map (λ r. r.now) decls.now)) }
{
    for decl in decls {
        push_name(out, &decl.name)?;
    }
    Ok(())
}

/// The names of all variables of a node.
pub fn node_variables<'a>(alloc: Global, node: &'a Node) -> Result<Vec<&'a Name>, Memory>
    ensures { IfOk result (λ v. map (λ r. r.now) v.items ≡ names (variables node.now)) }
{
    let decls = node_declarations(alloc, node)?;
    let mut out = Vec::new(alloc);
    push_names_of(&mut out, &decls)?;
    Ok(out)
}
