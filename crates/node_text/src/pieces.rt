//! The parts of a node's text, collected in the order of the text.
ghost use Rattle.std.specs.Prelude.{◌≡◌, ◌++◌, ◌∷◌, [], map, OnOk};
ghost use Rattle.std.specs.List.{flat_map};
ghost use Rattle.hept_ast.specs.InnerParts.{escape_parts, inner_parts, parts_of_block, parts_of_state};
ghost use Rattle.node_text.specs.Pieces.{piece_of};

use hept_ast::{Block, Branch, Decl, Equation, Escape, Expr, Memory, Name, Place, State};

/// A part of a node's text.
#[derive(Clone, Copy)]
pub enum Piece<'a> {
    /// A block: what it declares, and its equations.
    Block(&'a [Decl], &'a [Equation]),
    Plain(Place, &'a [Name], &'a Expr),
    Switch(Place, &'a Expr, &'a [Branch]),
    Reset(Place, &'a Expr, &'a Block),
    Automaton(Place, &'a [State]),
    /// A transition, whether it is a strong one, and the states of its automaton.
    Transition(bool, &'a [State], &'a Escape),
}

fn push_piece<'a>(pieces: &mut Vec<Piece<'a>>, piece: Piece<'a>) -> Result<(), Memory>
    ensures { OnOk result (map piece_of pieces.new.items ≡ map piece_of pieces.old.items ++ piece_of piece.entry ∷ []) }
{
    match pieces.push(piece) {
        Ok(()) => Ok(()),
        Err(_) => Err(Memory),
    }
}

fn push_escapes<'a>(
    pieces: &mut Vec<Piece<'a>>,
    strong: bool,
    states: &'a [State],
    escapes: &'a [Escape],
) -> Result<(), Memory>
    ensures { OnOk result (map piece_of pieces.new.items ≡ map piece_of pieces.old.items ++ escape_parts strong states.now escapes.now) }
{
    for escape in escapes {
        push_piece(pieces, Piece::Transition(strong, states, escape))?;
    }
    Ok(())
}

/// Appends an equation and all parts inside it.
#[cycle(parts)]
#[tactic(auto, using(hept_ast::proofs::InnerParts::inner_parts_of))]
pub fn push_equation<'a>(pieces: &mut Vec<Piece<'a>>, equation: &'a Equation) -> Result<(), Memory>
    ensures { OnOk result (map piece_of pieces.new.items ≡ map piece_of pieces.old.items ++ inner_parts equation.now) }
{
    match equation {
        Equation::Define { place, left, right } => {
            push_piece(pieces, Piece::Plain(*place, left.as_slice(), right))
        }
        Equation::Switch {
            place,
            on,
            branches,
        } => {
            push_piece(pieces, Piece::Switch(*place, on, branches.as_slice()))?;
            push_branches(pieces, branches.as_slice())
        }
        Equation::Reset {
            place,
            block,
            every,
        } => {
            push_piece(pieces, Piece::Reset(*place, every, block.get()))?;
            push_block(pieces, block.get())
        }
        Equation::Automaton { place, states } => {
            push_piece(pieces, Piece::Automaton(*place, states.as_slice()))?;
            push_states(pieces, states.as_slice())
        }
    }
}

#[cycle(parts)]
#[tactic(auto, using(hept_ast::proofs::InnerParts::inner_parts_of))]
fn push_block<'a>(pieces: &mut Vec<Piece<'a>>, block: &'a Block) -> Result<(), Memory>
    ensures { OnOk result (map piece_of pieces.new.items ≡ map piece_of pieces.old.items ++ parts_of_block block.now) }
{
    push_piece(
        pieces,
        Piece::Block(block.locals.as_slice(), block.body.as_slice()),
    )?;
    for equation in block.body.as_slice() {
        push_equation(pieces, equation)?;
    }
    Ok(())
}

#[cycle(parts)]
#[tactic(auto, using(hept_ast::proofs::InnerParts::inner_parts_of))]
fn push_branches<'a>(pieces: &mut Vec<Piece<'a>>, branches: &'a [Branch]) -> Result<(), Memory>
    ensures { OnOk result (map piece_of pieces.new.items ≡ map piece_of pieces.old.items ++ flat_map (λ b. parts_of_block b.block) branches.now) }
{
    for branch in branches {
        push_block(pieces, &branch.block)?;
    }
    Ok(())
}

#[cycle(parts)]
#[tactic(auto, using(hept_ast::proofs::InnerParts::inner_parts_of))]
fn push_states<'a>(pieces: &mut Vec<Piece<'a>>, states: &'a [State]) -> Result<(), Memory>
    ensures { OnOk result (map piece_of pieces.new.items ≡ map piece_of pieces.old.items ++ flat_map (parts_of_state states.now) states.now) }
{
    for state in states {
        push_state(pieces, state, states)?;
    }
    Ok(())
}

#[cycle(parts)]
#[tactic(auto, using(hept_ast::proofs::InnerParts::inner_parts_of))]
fn push_state<'a>(
    pieces: &mut Vec<Piece<'a>>,
    state: &'a State,
    states: &'a [State],
) -> Result<(), Memory>
    ensures { OnOk result (map piece_of pieces.new.items ≡ map piece_of pieces.old.items ++ parts_of_state states.now state.now) }
{
    push_block(pieces, &state.block)?;
    push_escapes(pieces, false, states, state.weak.as_slice())?;
    push_escapes(pieces, true, states, state.strong.as_slice())
}

/// Appends equations and all parts inside them.
pub fn push_equations<'a>(
    pieces: &mut Vec<Piece<'a>>,
    equations: &'a [Equation],
) -> Result<(), Memory>
    ensures { OnOk result (map piece_of pieces.new.items ≡ map piece_of pieces.old.items ++ flat_map inner_parts equations.now) }
{
    for equation in equations {
        push_equation(pieces, equation)?;
    }
    Ok(())
}
