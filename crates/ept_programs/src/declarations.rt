//! Reads declarations.
ghost use Rattle.std.specs.Prelude.{◌≡◌, ◌<◌, ◌≤◌, length, IfOk, MatchResult};
ghost use Rattle.ept_grammar.specs.Grammar.{Block_locals, Declaration, Decls, Input, Inputs, Locals, Names, Typed_names, declared};
ghost use Rattle.ept_grammar.specs.Reading.{Fails, Reads, first, look, may_begin};

use ept_grammar::{Counts, Fault};
use ept_steps::{copy_token, fresh, initial, take, type_of, want};
use ept_tokens::{Kind, Token};
use hept_ast::{Decl, Init, Ty, copy_const, copy_name, copy_type};
use sqlite_items::Items;
use std::alloc::Global;

fn copy_initial(alloc: Global, init: &Option<Init>) -> Result<Option<Init>, Fault>
    ensures { MatchResult result (λ r. r ≡ init.now) (λ e. e ≡ Fault.Memory) }
{
    match init {
        None => Ok(None),
        Some(init) => {
            let value = copy_const(alloc, &init.value)?;
            let ready = init.ready;
            Ok(Some(Init { ready, value }))
        }
    }
}

fn declare_one(alloc: Global, token: &Token, ty: &Ty, init: &Option<Init>) -> Result<Decl, Fault>
    ensures { MatchResult result (λ d. d ≡ record { place = token.now.place; name = token.now.name; ty = ty.now; init = init.now }) (λ e. e ≡ Fault.Memory) }
{
    let name = copy_name(alloc, &token.name)?;
    let ty = copy_type(alloc, ty)?;
    let init = copy_initial(alloc, init)?;
    let place = token.place;
    Ok(Decl {
        place,
        name,
        ty,
        init,
    })
}

/// A declaration for each name.
fn declare(
    alloc: Global,
    names: &[Token],
    ty: &Ty,
    init: &Option<Init>,
) -> Result<Items<Decl>, Fault>
    ensures { MatchResult result (λ ds. ds ≡ declared names.now ty.now init.now) (λ e. e ≡ Fault.Memory) }
{
    let mut all = Items::new(alloc);
    'names: for name in names {
        all.push(declare_one(alloc, name, ty, init)?)?;
    }
    Ok(all)
}

/// Names with a comma between two of them.
pub fn names(
    alloc: Global,
    tokens: &[Token],
    counts: Counts,
) -> Result<(Items<Token>, &[Token], Counts), Fault>
    ensures reads { MatchResult result (λ x. Reads Names tokens.now counts x.0 x.1.now x.2) (λ e. Fails Names tokens.now counts e) }
    ensures shorter { IfOk result (λ x. length x.1.now < length tokens.now) }
{
    let (first, mut rest) = want(Kind::Lower, tokens)?;
    let mut all = Items::new(alloc);
    all.push(copy_token(alloc, first)?)?;
    'names: while let Some((_, after)) = take(Kind::Comma, rest) {
        let (next, end) = want(Kind::Lower, after)?;
        all.push(copy_token(alloc, next)?)?;
        rest = end;
    }
    Ok((all, rest, counts))
}

/// Names and their type.
fn typed_names(
    alloc: Global,
    tokens: &[Token],
    counts: Counts,
) -> Result<(Items<Token>, Ty, &[Token], Counts), Fault>
    ensures reads { MatchResult result (λ x. Reads Typed_names tokens.now counts (x.0, x.1) x.2.now x.3) (λ e. Fails Typed_names tokens.now counts e) }
    ensures shorter { IfOk result (λ x. length x.2.now < length tokens.now) }
{
    let (names, rest, counts) = names(alloc, tokens, counts)?;
    let (_, after) = want(Kind::Colon, rest)?;
    let (ty, rest, counts) = type_of(alloc, after, counts)?;
    Ok((names, ty, rest, counts))
}

/// Inputs of one type.
fn input(
    alloc: Global,
    tokens: &[Token],
    counts: Counts,
) -> Result<(Items<Decl>, &[Token], Counts), Fault>
    ensures reads { MatchResult result (λ x. Reads Input tokens.now counts x.0 x.1.now x.2) (λ e. Fails Input tokens.now counts e) }
    ensures shorter { IfOk result (λ x. length x.1.now < length tokens.now) }
{
    let (names, ty, rest, counts) = typed_names(alloc, tokens, counts)?;
    let all = declare(alloc, names.as_slice(), &ty, &None)?;
    Ok((all, rest, counts))
}

/// Variables of one type, which may have `last` and a constant.
fn declaration(
    alloc: Global,
    tokens: &[Token],
    counts: Counts,
) -> Result<(Items<Decl>, &[Token], Counts), Fault>
    ensures reads { MatchResult result (λ x. Reads Declaration tokens.now counts x.0 x.1.now x.2) (λ e. Fails Declaration tokens.now counts e) }
    ensures shorter { IfOk result (λ x. length x.1.now < length tokens.now) }
{
    if let Some((_, rest)) = take(Kind::Last, tokens) {
        let (names, ty, rest, counts) = typed_names(alloc, rest, counts)?;
        let (_, after) = want(Kind::Equal, rest)?;
        let counts = fresh(counts);
        let (init, rest, counts) = initial(alloc, after, counts)?;
        let all = declare(alloc, names.as_slice(), &ty, &Some(init))?;
        return Ok((all, rest, counts));
    }
    let (names, ty, rest, counts) = typed_names(alloc, tokens, counts)?;
    let all = declare(alloc, names.as_slice(), &ty, &None)?;
    Ok((all, rest, counts))
}

/// Inputs, each of which may end in a semicolon.
pub fn inputs(
    alloc: Global,
    tokens: &[Token],
    counts: Counts,
) -> Result<(Items<Decl>, &[Token], Counts), Fault>
    ensures reads { MatchResult result (λ x. Reads Inputs tokens.now counts x.0 x.1.now x.2) (λ e. Fails Inputs tokens.now counts e) }
    ensures shorter { IfOk result (λ x. length x.1.now ≤ length tokens.now) }
{
    let mut all = Items::new(alloc);
    let mut rest = tokens;
    let mut now = counts;
    'inputs: while let Some((_, _)) = take(Kind::Lower, rest) {
        let (next, end, then) = input(alloc, rest, now)?;
        all.append(next)?;
        now = then;
        match take(Kind::Semicolon, end) {
            None => return Ok((all, end, now)),
            Some((_, after)) => rest = after,
        }
    }
    Ok((all, rest, now))
}

fn begins_declaration(kind: Kind) -> bool
    ensures { result ≡ first Declaration kind }
{
    match kind {
        Kind::Lower => true,
        Kind::Last => true,
        _ => false,
    }
}

fn starts_declaration(tokens: &[Token]) -> bool
    ensures { result ≡ may_begin Declaration (look tokens.now) }
{
    match tokens.split_first() {
        None => false,
        Some((token, _)) => begins_declaration(token.kind),
    }
}

/// One declaration or more, with a semicolon between two of them, and maybe one after the last.
pub fn decls(
    alloc: Global,
    tokens: &[Token],
    counts: Counts,
) -> Result<(Items<Decl>, &[Token], Counts), Fault>
    ensures reads { MatchResult result (λ x. Reads Decls tokens.now counts x.0 x.1.now x.2) (λ e. Fails Decls tokens.now counts e) }
    ensures shorter { IfOk result (λ x. length x.1.now < length tokens.now) }
{
    let (mut all, mut rest, mut now) = declaration(alloc, tokens, counts)?;
    'decls: while let Some((_, after)) = take(Kind::Semicolon, rest) {
        if !starts_declaration(after) {
            return Ok((all, after, now));
        }
        let (next, end, then) = declaration(alloc, after, now)?;
        all.append(next)?;
        rest = end;
        now = then;
    }
    Ok((all, rest, now))
}

/// The declarations of a node after `var`, or none.
pub fn locals(
    alloc: Global,
    tokens: &[Token],
    counts: Counts,
) -> Result<(Items<Decl>, &[Token], Counts), Fault>
    ensures reads { MatchResult result (λ x. Reads Locals tokens.now counts x.0 x.1.now x.2) (λ e. Fails Locals tokens.now counts e) }
    ensures shorter { IfOk result (λ x. length x.1.now ≤ length tokens.now) }
{
    match take(Kind::Var, tokens) {
        None => Ok((Items::new(alloc), tokens, counts)),
        Some((_, after)) => decls(alloc, after, counts),
    }
}

/// The declarations of a block between `var` and `in`, or none.
pub fn block_locals(
    alloc: Global,
    tokens: &[Token],
    counts: Counts,
) -> Result<(Items<Decl>, &[Token], Counts), Fault>
    ensures reads { MatchResult result (λ x. Reads Block_locals tokens.now counts x.0 x.1.now x.2) (λ e. Fails Block_locals tokens.now counts e) }
    ensures shorter { IfOk result (λ x. length x.1.now ≤ length tokens.now) }
{
    match take(Kind::Var, tokens) {
        None => Ok((Items::new(alloc), tokens, counts)),
        Some((_, after)) => {
            let (all, rest, counts) = decls(alloc, after, counts)?;
            let (_, end) = want(Kind::In, rest)?;
            Ok((all, end, counts))
        }
    }
}
