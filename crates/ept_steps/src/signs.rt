//! The infix signs, level by level.
ghost use Rattle.std.specs.Prelude.{◌≡◌, ◌∷◌, None, Some, MatchOption};
ghost use Rattle.ept_grammar.specs.Grammar.{sign_at};
ghost use Rattle.ept_steps.specs.Signs.{level_of, levels_after, levels_to, next_sign};

use ept_grammar::Level;
use ept_tokens::{Kind, Token};
use hept_ast::BinaryOp;

fn comparison_of(kind: Kind) -> Option<BinaryOp>
    ensures { result ≡ sign_at Level.Comparison kind }
{
    match kind {
        Kind::Equal => Some(BinaryOp::Eq),
        Kind::Differ => Some(BinaryOp::Ne),
        Kind::Less => Some(BinaryOp::Lt),
        Kind::AtMost => Some(BinaryOp::Le),
        Kind::Greater => Some(BinaryOp::Gt),
        Kind::AtLeast => Some(BinaryOp::Ge),
        _ => None,
    }
}

fn sum_of(kind: Kind) -> Option<BinaryOp>
    ensures { result ≡ sign_at Level.Sum kind }
{
    match kind {
        Kind::Plus => Some(BinaryOp::Add),
        Kind::Minus => Some(BinaryOp::Sub),
        _ => None,
    }
}

fn product_of(kind: Kind) -> Option<BinaryOp>
    ensures { result ≡ sign_at Level.Product kind }
{
    match kind {
        Kind::Times => Some(BinaryOp::Mul),
        Kind::Divide => Some(BinaryOp::Div),
        Kind::Percent => Some(BinaryOp::Rem),
        Kind::Mod => Some(BinaryOp::Rem),
        _ => None,
    }
}

fn or_of(kind: Kind) -> Option<BinaryOp>
    ensures { result ≡ sign_at Level.Or kind }
{
    match kind {
        Kind::Or => Some(BinaryOp::Or),
        _ => None,
    }
}

fn and_of(kind: Kind) -> Option<BinaryOp>
    ensures { result ≡ sign_at Level.And kind }
{
    match kind {
        Kind::Both => Some(BinaryOp::And),
        _ => None,
    }
}

/// The operator that a sign of this level stands for.
fn operator_of(level: Level, kind: Kind) -> Option<BinaryOp>
    ensures { result ≡ sign_at level kind }
{
    match level {
        Level::Or => or_of(kind),
        Level::And => and_of(kind),
        Level::Comparison => comparison_of(kind),
        Level::Sum => sum_of(kind),
        Level::Product => product_of(kind),
    }
}

/// The levels of infix signs from the closest one to this one.
pub fn levels_to(level: Level) -> &'static [Level]
    ensures { result.now ≡ levels_to level }
{
    match level {
        Level::Product => &[Level::Product],
        Level::Sum => &[Level::Product, Level::Sum],
        Level::Comparison => &[Level::Product, Level::Sum, Level::Comparison],
        Level::And => &[Level::Product, Level::Sum, Level::Comparison, Level::And],
        Level::Or => &[
            Level::Product,
            Level::Sum,
            Level::Comparison,
            Level::And,
            Level::Or,
        ],
    }
}

/// The levels whose signs may come after a sign of the first of these: a comparison has one sign at most.
fn levels_after(levels: &[Level]) -> &[Level]
    ensures { result.now ≡ levels_after levels.now }
{
    match levels {
        [Level::Comparison, looser @ ..] => looser,
        _ => levels,
    }
}

/// The first of the levels that has the sign, the operator, and the levels whose signs may come after it.
fn level_of(mut levels: &[Level], kind: Kind) -> Option<(Level, BinaryOp, &[Level])>
    ensures { MatchOption result (level_of kind levels.now ≡ None) (λ x. level_of kind levels.now ≡ Some (x.0, x.1, x.2.now)) }
{
    while let [level, looser @ ..] = levels {
        if let Some(operator) = operator_of(*level, kind) {
            return Some((*level, operator, levels_after(levels)));
        }
        levels = looser;
    }
    None
}

/// An infix sign that comes next, what comes after it, and the levels whose signs may come after its right operand.
#[derive(Clone, Copy)]
pub struct InfixSign<'a> {
    pub level: Level,
    pub operator: BinaryOp,
    pub token: &'a Token,
    pub after: &'a [Token],
    pub levels: &'a [Level],
}

/// The sign of one of these levels that comes next.
pub fn infix_sign<'a>(levels: &'a [Level], tokens: &'a [Token]) -> Option<InfixSign<'a>>
    ensures { MatchOption result (next_sign levels.now tokens.now ≡ None)
        (λ x. (tokens.now ≡ x.token.now ∷ x.after.now) × (next_sign levels.now tokens.now ≡ Some (x.level, x.operator, x.levels.now))) }
{
    let (token, after) = tokens.split_first()?;
    let (level, operator, levels) = level_of(levels, token.kind)?;
    Some(InfixSign {
        level,
        operator,
        token,
        after,
        levels,
    })
}
