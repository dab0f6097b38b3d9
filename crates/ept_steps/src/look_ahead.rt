//! One token of look-ahead: what comes next, and the counts after it.
ghost use Rattle.std.specs.Prelude.{true, false, ◌≡◌, ◌≢◌, ◌∷◌, Some, length, MatchOption, MatchResult};
ghost use Rattle.ept_grammar.specs.Grammar.{after, allows};
ghost use Rattle.ept_grammar.specs.Reading.{look};

use ept_grammar::{Counts, Fault, Role};
use ept_tokens::{Kind, Token};
use hept_ast::copy_name;
use std::alloc::Global;

/// The next token, where it is of this kind, and those after it.
pub fn take(kind: Kind, tokens: &[Token]) -> Option<(&Token, &[Token])>
    ensures { MatchOption result (look tokens.now ≢ Some kind)
        (λ x. (tokens.now ≡ x.0.now ∷ x.1.now) × (x.0.now.kind ≡ kind)) }
{
    let (first, rest) = tokens.split_first()?;
    if first.kind == kind {
        Some((first, rest))
    } else {
        None
    }
}

/// The next token, which has to be of this kind, and those after it.
pub fn want(kind: Kind, tokens: &[Token]) -> Result<(&Token, &[Token]), Fault>
    ensures { MatchResult result
        (λ x. (tokens.now ≡ x.0.now ∷ x.1.now) × (x.0.now.kind ≡ kind))
        (λ e. (look tokens.now ≢ Some kind) × (e ≡ Fault.Unexpected (length tokens.now))) }
{
    match take(kind, tokens) {
        Some((first, rest)) => Ok((first, rest)),
        None => Err(Fault::Unexpected(tokens.len())),
    }
}

/// The counts after an operator, which is the first of so many tokens that are left.
pub fn operator(counts: Counts, left: usize) -> Result<Counts, Fault>
    ensures { MatchResult result
        (λ c. (allows Role.Operator counts ≡ true) × (c ≡ after Role.Operator counts))
        (λ e. (allows Role.Operator counts ≡ false) × (e ≡ Fault.TooDeep left)) }
{
    if counts.operators < 512 {
        let operators = counts.operators + 1;
        let blocks = counts.blocks;
        Ok(Counts { operators, blocks })
    } else {
        Err(Fault::TooDeep(left))
    }
}

/// The counts inside a block that is opened by the first of so many tokens that are left.
pub fn opened(counts: Counts, left: usize) -> Result<Counts, Fault>
    ensures { MatchResult result
        (λ c. (allows Role.Opens counts ≡ true) × (c ≡ after Role.Opens counts))
        (λ e. (allows Role.Opens counts ≡ false) × (e ≡ Fault.TooDeep left)) }
{
    if counts.blocks < 64 {
        let operators = counts.operators;
        let blocks = counts.blocks + 1;
        Ok(Counts { operators, blocks })
    } else {
        Err(Fault::TooDeep(left))
    }
}

/// The counts after a block.
pub fn closed(counts: Counts) -> Counts
    ensures { result ≡ after Role.Closes counts }
{
    let operators = counts.operators;
    let blocks = counts.blocks.saturating_sub(1);
    Counts { operators, blocks }
}

/// The counts before an expression that comes after the opening word of a block.
pub fn opened_fresh(counts: Counts, left: usize) -> Result<Counts, Fault>
    ensures { MatchResult result
        (λ c. (allows Role.OpensFresh counts ≡ true) × (c ≡ after Role.OpensFresh counts))
        (λ e. (allows Role.OpensFresh counts ≡ false) × (e ≡ Fault.TooDeep left)) }
{
    if counts.blocks < 64 {
        let operators = 0;
        let blocks = counts.blocks + 1;
        Ok(Counts { operators, blocks })
    } else {
        Err(Fault::TooDeep(left))
    }
}

/// The counts before an expression that comes after a block.
pub fn closed_fresh(counts: Counts) -> Counts
    ensures { result ≡ after Role.ClosesFresh counts }
{
    let operators = 0;
    let blocks = counts.blocks.saturating_sub(1);
    Counts { operators, blocks }
}

/// The counts before an expression.
pub fn fresh(counts: Counts) -> Counts
    ensures { result ≡ after Role.Fresh counts }
{
    let operators = 0;
    let blocks = counts.blocks;
    Counts { operators, blocks }
}

pub fn copy_token(alloc: Global, token: &Token) -> Result<Token, Fault>
    ensures { MatchResult result (λ t. t ≡ token.now) (λ e. e ≡ Fault.Memory) }
{
    let name = copy_name(alloc, &token.name)?;
    let place = token.place;
    let kind = token.kind;
    let number = token.number;
    Ok(Token {
        place,
        kind,
        number,
        name,
    })
}
