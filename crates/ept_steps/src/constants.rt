//! Reads constants, tags and types.
ghost use Rattle.std.specs.Prelude.{◌≡◌, ◌≢◌, ◌<◌, Some, length, IfOk, MatchResult};
ghost use Rattle.ept_grammar.specs.Grammar.{Constant, Initial, Literal, Plain_type, Tag_of, Type_of};
ghost use Rattle.ept_grammar.specs.Reading.{Fails, Reads};

use crate::builders::{constructor, last, negative_number, number, truth};
use crate::look_ahead::{operator, take, want};
use ept_grammar::{Counts, Fault};
use ept_tokens::{Kind, Token};
use hept_ast::{Const, Expr, Init, Plain, Tag, Ty, copy_name};
use std::alloc::Global;

pub fn tag(
    alloc: Global,
    tokens: &[Token],
    counts: Counts,
) -> Result<(Tag, &[Token], Counts), Fault>
    ensures reads { MatchResult result (λ x. Reads Tag_of tokens.now counts x.0 x.1.now x.2) (λ e. Fails Tag_of tokens.now counts e) }
    ensures shorter { IfOk result (λ x. length x.1.now < length tokens.now) }
{
    if let Some((_, rest)) = take(Kind::True, tokens) {
        return Ok((Tag::Truth(true), rest, counts));
    }
    if let Some((_, rest)) = take(Kind::False, tokens) {
        return Ok((Tag::Truth(false), rest, counts));
    }
    let (name, rest) = want(Kind::Upper, tokens)?;
    Ok((
        Tag::Constructor(copy_name(alloc, &name.name)?),
        rest,
        counts,
    ))
}

pub fn constant(
    alloc: Global,
    tokens: &[Token],
    counts: Counts,
) -> Result<(Const, &[Token], Counts), Fault>
    ensures reads { MatchResult result (λ x. Reads Constant tokens.now counts x.0 x.1.now x.2) (λ e. Fails Constant tokens.now counts e) }
    ensures shorter { IfOk result (λ x. length x.1.now < length tokens.now) }
{
    if let Some((_, rest)) = take(Kind::Minus, tokens) {
        let counts = operator(counts, tokens.len())?;
        let (token, rest) = want(Kind::Number, rest)?;
        return Ok((negative_number(token), rest, counts));
    }
    if let Some((_, rest)) = take(Kind::True, tokens) {
        return Ok((Const::Truth(true), rest, counts));
    }
    if let Some((_, rest)) = take(Kind::False, tokens) {
        return Ok((Const::Truth(false), rest, counts));
    }
    if let Some((name, rest)) = take(Kind::Upper, tokens) {
        return Ok((
            Const::Constructor(copy_name(alloc, &name.name)?),
            rest,
            counts,
        ));
    }
    let (token, rest) = want(Kind::Number, tokens)?;
    Ok((number(token), rest, counts))
}

/// The constant of a declaration with `last`.
pub fn initial(
    alloc: Global,
    tokens: &[Token],
    counts: Counts,
) -> Result<(Init, &[Token], Counts), Fault>
    ensures reads { MatchResult result (λ x. Reads Initial tokens.now counts x.0 x.1.now x.2) (λ e. Fails Initial tokens.now counts e) }
    ensures shorter { IfOk result (λ x. length x.1.now < length tokens.now) }
{
    if let Some((_, rest)) = take(Kind::Async, tokens) {
        let (value, rest, counts) = constant(alloc, rest, counts)?;
        return Ok((Init { ready: true, value }, rest, counts));
    }
    let (value, rest, counts) = constant(alloc, tokens, counts)?;
    Ok((
        Init {
            ready: false,
            value,
        },
        rest,
        counts,
    ))
}

fn plain_type(
    alloc: Global,
    tokens: &[Token],
    counts: Counts,
) -> Result<(Plain, &[Token], Counts), Fault>
    ensures reads { MatchResult result (λ x. Reads Plain_type tokens.now counts x.0 x.1.now x.2) (λ e. Fails Plain_type tokens.now counts e) }
    ensures shorter { IfOk result (λ x. length x.1.now < length tokens.now) }
{
    if let Some((_, rest)) = take(Kind::Bool, tokens) {
        return Ok((Plain::Bool, rest, counts));
    }
    if let Some((name, rest)) = take(Kind::Lower, tokens) {
        return Ok((Plain::Named(copy_name(alloc, &name.name)?), rest, counts));
    }
    let (_, rest) = want(Kind::Int, tokens)?;
    Ok((Plain::Int, rest, counts))
}

pub fn type_of(
    alloc: Global,
    tokens: &[Token],
    counts: Counts,
) -> Result<(Ty, &[Token], Counts), Fault>
    ensures reads { MatchResult result (λ x. Reads Type_of tokens.now counts x.0 x.1.now x.2) (λ e. Fails Type_of tokens.now counts e) }
    ensures shorter { IfOk result (λ x. length x.1.now < length tokens.now) }
{
    if let Some((_, rest)) = take(Kind::Future, tokens) {
        let (plain, rest, counts) = plain_type(alloc, rest, counts)?;
        return Ok((Ty::Future(plain), rest, counts));
    }
    let (plain, rest, counts) = plain_type(alloc, tokens, counts)?;
    Ok((Ty::Plain(plain), rest, counts))
}

/// A truth value, a constructor, or the last value of a variable.
pub fn literal(
    alloc: Global,
    tokens: &[Token],
    counts: Counts,
) -> Result<(Expr, &[Token], Counts), Fault>
    ensures reads { MatchResult result (λ x. Reads Literal tokens.now counts x.0 x.1.now x.2) (λ e. Fails Literal tokens.now counts e) }
    ensures shorter { IfOk result (λ x. length x.1.now < length tokens.now) }
{
    if let Some((word, rest)) = take(Kind::True, tokens) {
        return Ok((truth(word, true), rest, counts));
    }
    if let Some((word, rest)) = take(Kind::False, tokens) {
        return Ok((truth(word, false), rest, counts));
    }
    if let Some((word, rest)) = take(Kind::Last, tokens) {
        let (name, rest) = want(Kind::Lower, rest)?;
        return Ok((last(alloc, word, name)?, rest, counts));
    }
    let (name, rest) = want(Kind::Upper, tokens)?;
    Ok((constructor(alloc, name)?, rest, counts))
}
