//! Reads expressions, with one function for each production.
ghost use Rattle.std.specs.Prelude.{◌≡◌, ◌<◌, ◌≤◌, ◌∷◌, length, IfOk, MatchResult};
ghost use Rattle.ept_grammar.specs.Grammar.{After_minus, Args, Arrow_tail, Async_tail, Atom, Call_tail, Called, Expression, Fby_tail, Fbys, Infix, Choosing, Else_part, Merge_branch, Merge_list, Merging, Operand, Prefix, Sample_of, Samples, Sampling, Signed, Then_part, Value, at, between, negated, sampled as with_samples};
ghost use Rattle.hept_ast.specs.declared.tree.Form.TheVariants as form;
ghost use Rattle.ept_grammar.specs.Reading.{Fails, Reads, first, look, may_begin};

use ept_grammar::{Counts, Fault, Level, Sample};
use ept_steps::{
    InfixSign, arrow, async_call, choice, constant, fby, get, infix, infix_sign, initial_constant,
    levels_to, literal, merge, named, negative, operator, placed, pre, queued_call, tag, take,
    unary, want, when,
};
use ept_tokens::{Kind, Token};
use hept_ast::{Expr, Form, MergeBranch, Name, Place, Tag, UnaryOp, copy_name};
use sqlite_items::Items;
use std::alloc::Global;

/// What a `when` or a `whenot` samples by.
fn sample(
    alloc: Global,
    tokens: &[Token],
    counts: Counts,
) -> Result<(Sample, &[Token], Counts), Fault>
    ensures reads { MatchResult result (λ x. Reads Sample_of tokens.now counts x.0 x.1.now x.2) (λ e. Fails Sample_of tokens.now counts e) }
    ensures shorter { IfOk result (λ x. length x.1.now < length tokens.now) }
{
    if let Some((sign, rest)) = take(Kind::Whenot, tokens) {
        let counts = operator(counts, tokens.len())?;
        let (token, rest) = want(Kind::Lower, rest)?;
        let name = copy_name(alloc, &token.name)?;
        let tag = Tag::Truth(false);
        let place = sign.place;
        return Ok((Sample { place, tag, name }, rest, counts));
    }
    let (sign, rest) = want(Kind::When, tokens)?;
    let counts = operator(counts, tokens.len())?;
    let (tag, name, rest, counts) = sampling(alloc, rest, counts)?;
    let place = sign.place;
    Ok((Sample { place, tag, name }, rest, counts))
}

fn begins_sample(kind: Kind) -> bool
    ensures { result ≡ first Sample_of kind }
{
    match kind {
        Kind::When => true,
        Kind::Whenot => true,
        _ => false,
    }
}

fn starts_sample(tokens: &[Token]) -> bool
    ensures { result ≡ may_begin Sample_of (look tokens.now) }
{
    match tokens.split_first() {
        None => false,
        Some((token, _)) => begins_sample(token.kind),
    }
}

/// The samples that come next, of what they sample.
fn samples(
    alloc: Global,
    sampled: Expr,
    tokens: &[Token],
    counts: Counts,
) -> Result<(Expr, &[Token], Counts), Fault>
    ensures reads { MatchResult result
        (λ x. (v : Value Samples) × Reads Samples tokens.now counts v x.1.now x.2 × (x.0 ≡ with_samples sampled v))
        (λ e. Fails Samples tokens.now counts e) }
    ensures shorter { IfOk result (λ x. length x.1.now ≤ length tokens.now) }
{
    let mut left = sampled;
    let mut rest = tokens;
    let mut now = counts;
    'samples: while starts_sample(rest) {
        let (next, end, then) = sample(alloc, rest, now)?;
        left = when(alloc, left, next)?;
        rest = end;
        now = then;
    }
    Ok((left, rest, now))
}

/// A variable, or a tag and a variable in parentheses.
fn sampling(
    alloc: Global,
    tokens: &[Token],
    counts: Counts,
) -> Result<(Tag, Name, &[Token], Counts), Fault>
    ensures reads { MatchResult result (λ x. Reads Sampling tokens.now counts (x.0, x.1) x.2.now x.3) (λ e. Fails Sampling tokens.now counts e) }
    ensures shorter { IfOk result (λ x. length x.2.now < length tokens.now) }
{
    if let Some((token, rest)) = take(Kind::Lower, tokens) {
        return Ok((
            Tag::Truth(true),
            copy_name(alloc, &token.name)?,
            rest,
            counts,
        ));
    }
    let (tag, rest, counts) = tag(alloc, tokens, counts)?;
    let (_, inside) = want(Kind::OpenParen, rest)?;
    let counts = operator(counts, rest.len())?;
    let (token, rest) = want(Kind::Lower, inside)?;
    let (_, end) = want(Kind::CloseParen, rest)?;
    Ok((tag, copy_name(alloc, &token.name)?, end, counts))
}

/// Whether a token of this kind may begin an expression.
fn begins_expression(kind: Kind) -> bool
    ensures { result ≡ first Expression kind }
{
    match kind {
        Kind::Number => true,
        Kind::Lower => true,
        Kind::Upper => true,
        Kind::OpenParen => true,
        Kind::Minus => true,
        Kind::Bang => true,
        Kind::Async => true,
        Kind::False => true,
        Kind::If => true,
        Kind::Last => true,
        Kind::Merge => true,
        Kind::Not => true,
        Kind::Pre => true,
        Kind::True => true,
        _ => false,
    }
}

fn starts_expression(tokens: &[Token]) -> bool
    ensures { result ≡ may_begin Expression (look tokens.now) }
{
    match tokens.split_first() {
        None => false,
        Some((token, _)) => begins_expression(token.kind),
    }
}

/// Whether a token of this kind is a prefix sign.
fn is_prefix_sign(kind: Kind) -> bool
    ensures { result ≡ first Signed kind }
{
    match kind {
        Kind::Minus => true,
        Kind::Not => true,
        Kind::Pre => true,
        Kind::Bang => true,
        _ => false,
    }
}

fn starts_signed(tokens: &[Token]) -> bool
    ensures { result ≡ may_begin Signed (look tokens.now) }
{
    match tokens.split_first() {
        None => false,
        Some((token, _)) => is_prefix_sign(token.kind),
    }
}

#[cycle(exprs)]
pub fn expression(
    alloc: Global,
    tokens: &[Token],
    counts: Counts,
) -> Result<(Expr, &[Token], Counts), Fault>
    ensures reads { MatchResult result (λ x. Reads Expression tokens.now counts x.0 x.1.now x.2) (λ e. Fails Expression tokens.now counts e) }
    ensures shorter { IfOk result (λ x. length x.1.now < length tokens.now) }
{
    if let Some((word, rest)) = take(Kind::If, tokens) {
        return conditional(alloc, word, rest, counts);
    }
    let (left, rest, counts) = fbys(alloc, tokens, counts)?;
    arrow_tail(alloc, left, rest, counts)
}

/// An expression that begins with this word `if`.
#[cycle(exprs)]
fn conditional<'a>(
    alloc: Global,
    word: &Token,
    tokens: &'a [Token],
    counts: Counts,
) -> Result<(Expr, &'a [Token], Counts), Fault>
    requires { word.now.kind ≡ Kind.If }
    ensures reads { MatchResult result
        (λ x. Reads Expression (word.now ∷ tokens.now) counts x.0 x.1.now x.2)
        (λ e. Fails Expression (word.now ∷ tokens.now) counts e) }
    ensures shorter { IfOk result (λ x. length x.1.now < length tokens.now) }
{
    let counts = operator(counts, 1 + tokens.len())?;
    let (form, rest, counts) = choosing(alloc, tokens, counts)?;
    Ok((placed(word, form), rest, counts))
}

/// What comes after the word `if`.
#[cycle(exprs)]
fn choosing(
    alloc: Global,
    tokens: &[Token],
    counts: Counts,
) -> Result<(Form, &[Token], Counts), Fault>
    ensures reads { MatchResult result (λ x. Reads Choosing tokens.now counts x.0 x.1.now x.2) (λ e. Fails Choosing tokens.now counts e) }
    ensures shorter { IfOk result (λ x. length x.1.now < length tokens.now) }
{
    let (condition, rest, counts) = expression(alloc, tokens, counts)?;
    let (yes, rest, counts) = then_part(alloc, rest, counts)?;
    let (no, rest, counts) = else_part(alloc, rest, counts)?;
    Ok((choice(alloc, condition, yes, no)?, rest, counts))
}

#[cycle(exprs)]
fn then_part(
    alloc: Global,
    tokens: &[Token],
    counts: Counts,
) -> Result<(Expr, &[Token], Counts), Fault>
    ensures reads { MatchResult result (λ x. Reads Then_part tokens.now counts x.0 x.1.now x.2) (λ e. Fails Then_part tokens.now counts e) }
    ensures shorter { IfOk result (λ x. length x.1.now < length tokens.now) }
{
    let (_, rest) = want(Kind::Then, tokens)?;
    expression(alloc, rest, counts)
}

#[cycle(exprs)]
fn else_part(
    alloc: Global,
    tokens: &[Token],
    counts: Counts,
) -> Result<(Expr, &[Token], Counts), Fault>
    ensures reads { MatchResult result (λ x. Reads Else_part tokens.now counts x.0 x.1.now x.2) (λ e. Fails Else_part tokens.now counts e) }
    ensures shorter { IfOk result (λ x. length x.1.now < length tokens.now) }
{
    let (_, rest) = want(Kind::Else, tokens)?;
    expression(alloc, rest, counts)
}

/// An arrow and its right operand, if there is one, with the left one.
#[cycle(exprs)]
fn arrow_tail(
    alloc: Global,
    left: Expr,
    tokens: &[Token],
    counts: Counts,
) -> Result<(Expr, &[Token], Counts), Fault>
    ensures reads { MatchResult result
        (λ x. (v : Value Arrow_tail) × Reads Arrow_tail tokens.now counts v x.1.now x.2 × (x.0 ≡ between (λ a b. form.Arrow a b) left v))
        (λ e. Fails Arrow_tail tokens.now counts e) }
    ensures shorter { IfOk result (λ x. length x.1.now ≤ length tokens.now) }
{
    let Some((sign, after)) = take(Kind::Arrow, tokens) else {
        return Ok((left, tokens, counts));
    };
    let counts = operator(counts, tokens.len())?;
    let (right, rest, counts) = expression(alloc, after, counts)?;
    Ok((arrow(alloc, sign.place, left, right)?, rest, counts))
}

#[cycle(exprs)]
fn fbys(alloc: Global, tokens: &[Token], counts: Counts) -> Result<(Expr, &[Token], Counts), Fault>
    ensures reads { MatchResult result (λ x. Reads Fbys tokens.now counts x.0 x.1.now x.2) (λ e. Fails Fbys tokens.now counts e) }
    ensures shorter { IfOk result (λ x. length x.1.now < length tokens.now) }
{
    let (left, rest, counts) = level(alloc, Level::Or, tokens, counts)?;
    let (left, rest, counts) = samples(alloc, left, rest, counts)?;
    fby_tail(alloc, left, rest, counts)
}

/// A `fby` and its right operand, if there is one, with the left one.
#[cycle(exprs)]
fn fby_tail(
    alloc: Global,
    left: Expr,
    tokens: &[Token],
    counts: Counts,
) -> Result<(Expr, &[Token], Counts), Fault>
    ensures reads { MatchResult result
        (λ x. (v : Value Fby_tail) × Reads Fby_tail tokens.now counts v x.1.now x.2 × (x.0 ≡ between (λ a b. form.Fby a b) left v))
        (λ e. Fails Fby_tail tokens.now counts e) }
    ensures shorter { IfOk result (λ x. length x.1.now ≤ length tokens.now) }
{
    let Some((sign, after)) = take(Kind::Fby, tokens) else {
        return Ok((left, tokens, counts));
    };
    let counts = operator(counts, tokens.len())?;
    let (right, rest, counts) = fbys(alloc, after, counts)?;
    Ok((fby(alloc, sign.place, left, right)?, rest, counts))
}

/// Operands with infix signs of a level between them, and of closer ones between signs of that.
#[cycle(exprs)]
fn level(
    alloc: Global,
    level: Level,
    tokens: &[Token],
    counts: Counts,
) -> Result<(Expr, &[Token], Counts), Fault>
    ensures reads { MatchResult result (λ x. Reads (Infix level) tokens.now counts x.0 x.1.now x.2) (λ e. Fails (Infix level) tokens.now counts e) }
    ensures shorter { IfOk result (λ x. length x.1.now < length tokens.now) }
{
    let (mut left, mut rest, mut now) = prefix(alloc, tokens, counts)?;
    let mut levels = levels_to(level);
    'signs: while let Some(sign) = infix_sign(levels, rest) {
        now = operator(now, rest.len())?;
        (left, rest, now) = with_operand(alloc, left, sign, now)?;
        levels = sign.levels;
    }
    Ok((left, rest, now))
}

/// An expression with this sign after it, and the right operand that comes next.
#[cycle(exprs)]
fn with_operand<'a>(
    alloc: Global,
    left: Expr,
    sign: InfixSign<'a>,
    counts: Counts,
) -> Result<(Expr, &'a [Token], Counts), Fault>
    ensures reads { MatchResult result
        (λ x. (right : Expr) × Reads (Operand sign.entry.level) sign.entry.after.now counts right x.1.now x.2 × (x.0 ≡ at sign.entry.token.now.place (form.Binary sign.entry.operator left right)))
        (λ e. Fails (Operand sign.entry.level) sign.entry.after.now counts e) }
    ensures shorter { IfOk result (λ x. length x.1.now < length sign.entry.after.now) }
{
    let (right, rest, counts) = operand(alloc, sign.level, sign.after, counts)?;
    let whole = infix(alloc, sign.token.place, sign.operator, left, right)?;
    Ok((whole, rest, counts))
}

/// An operand of the infix signs of a level.
#[cycle(exprs)]
fn operand(
    alloc: Global,
    around: Level,
    tokens: &[Token],
    counts: Counts,
) -> Result<(Expr, &[Token], Counts), Fault>
    ensures reads { MatchResult result (λ x. Reads (Operand around) tokens.now counts x.0 x.1.now x.2) (λ e. Fails (Operand around) tokens.now counts e) }
    ensures shorter { IfOk result (λ x. length x.1.now < length tokens.now) }
{
    match around {
        Level::Or => level(alloc, Level::And, tokens, counts),
        Level::And => level(alloc, Level::Comparison, tokens, counts),
        Level::Comparison => level(alloc, Level::Sum, tokens, counts),
        Level::Sum => level(alloc, Level::Product, tokens, counts),
        Level::Product => prefix(alloc, tokens, counts),
    }
}

#[cycle(exprs)]
fn prefix(
    alloc: Global,
    tokens: &[Token],
    counts: Counts,
) -> Result<(Expr, &[Token], Counts), Fault>
    ensures reads { MatchResult result (λ x. Reads Prefix tokens.now counts x.0 x.1.now x.2) (λ e. Fails Prefix tokens.now counts e) }
    ensures shorter { IfOk result (λ x. length x.1.now < length tokens.now) }
{
    if let Some((number, rest)) = take(Kind::Number, tokens) {
        return Ok((constant(number), rest, counts));
    }
    if starts_signed(tokens) {
        return signed(alloc, tokens, counts);
    }
    atom(alloc, tokens, counts)
}

/// An operand with a prefix sign.
#[cycle(exprs)]
fn signed(
    alloc: Global,
    tokens: &[Token],
    counts: Counts,
) -> Result<(Expr, &[Token], Counts), Fault>
    ensures reads { MatchResult result (λ x. Reads Signed tokens.now counts x.0 x.1.now x.2) (λ e. Fails Signed tokens.now counts e) }
    ensures shorter { IfOk result (λ x. length x.1.now < length tokens.now) }
{
    if let Some((word, rest)) = take(Kind::Not, tokens) {
        let counts = operator(counts, tokens.len())?;
        let (operand, rest, counts) = prefix(alloc, rest, counts)?;
        let whole = unary(alloc, word.place, UnaryOp::Not, operand)?;
        return Ok((whole, rest, counts));
    }
    if let Some((word, rest)) = take(Kind::Pre, tokens) {
        let counts = operator(counts, tokens.len())?;
        let (operand, rest, counts) = prefix(alloc, rest, counts)?;
        return Ok((pre(alloc, word.place, operand)?, rest, counts));
    }
    if let Some((word, rest)) = take(Kind::Bang, tokens) {
        let counts = operator(counts, tokens.len())?;
        let (operand, rest, counts) = prefix(alloc, rest, counts)?;
        return Ok((get(alloc, word.place, operand)?, rest, counts));
    }
    let (minus, rest) = want(Kind::Minus, tokens)?;
    let counts = operator(counts, tokens.len())?;
    after_minus(alloc, minus.place, rest, counts)
}

/// What comes after a minus at a place, with that minus.
#[cycle(exprs)]
fn after_minus(
    alloc: Global,
    place: Place,
    tokens: &[Token],
    counts: Counts,
) -> Result<(Expr, &[Token], Counts), Fault>
    ensures reads { MatchResult result
        (λ x. (v : Value After_minus) × Reads After_minus tokens.now counts v x.1.now x.2 × (x.0 ≡ negated place v))
        (λ e. Fails After_minus tokens.now counts e) }
    ensures shorter { IfOk result (λ x. length x.1.now < length tokens.now) }
{
    if let Some((number, rest)) = take(Kind::Number, tokens) {
        return Ok((negative(place, number), rest, counts));
    }
    if starts_signed(tokens) {
        let (operand, rest, counts) = signed(alloc, tokens, counts)?;
        let whole = unary(alloc, place, UnaryOp::Minus, operand)?;
        return Ok((whole, rest, counts));
    }
    let (operand, rest, counts) = atom(alloc, tokens, counts)?;
    Ok((unary(alloc, place, UnaryOp::Minus, operand)?, rest, counts))
}

#[cycle(exprs)]
fn atom(alloc: Global, tokens: &[Token], counts: Counts) -> Result<(Expr, &[Token], Counts), Fault>
    ensures reads { MatchResult result (λ x. Reads Atom tokens.now counts x.0 x.1.now x.2) (λ e. Fails Atom tokens.now counts e) }
    ensures shorter { IfOk result (λ x. length x.1.now < length tokens.now) }
{
    if let Some((name, rest)) = take(Kind::Lower, tokens) {
        return variable(alloc, name, rest, counts);
    }
    if let Some((open, rest)) = take(Kind::OpenParen, tokens) {
        return parenthesised(alloc, open, rest, counts);
    }
    if let Some((word, rest)) = take(Kind::Merge, tokens) {
        return merged(alloc, word, rest, counts);
    }
    if let Some((word, rest)) = take(Kind::Async, tokens) {
        return asynchronous(alloc, word, rest, counts);
    }
    literal(alloc, tokens, counts)
}

/// A variable, or a call, that begins with this name.
#[cycle(exprs)]
fn variable<'a>(
    alloc: Global,
    name: &Token,
    tokens: &'a [Token],
    counts: Counts,
) -> Result<(Expr, &'a [Token], Counts), Fault>
    requires { name.now.kind ≡ Kind.Lower }
    ensures reads { MatchResult result
        (λ x. Reads Atom (name.now ∷ tokens.now) counts x.0 x.1.now x.2)
        (λ e. Fails Atom (name.now ∷ tokens.now) counts e) }
    ensures shorter { IfOk result (λ x. length x.1.now ≤ length tokens.now) }
{
    let (args, rest, counts) = call_tail(alloc, tokens, counts)?;
    Ok((named(alloc, name, args)?, rest, counts))
}

/// An expression after this parenthesis.
#[cycle(exprs)]
fn parenthesised<'a>(
    alloc: Global,
    paren: &Token,
    tokens: &'a [Token],
    counts: Counts,
) -> Result<(Expr, &'a [Token], Counts), Fault>
    requires { paren.now.kind ≡ Kind.OpenParen }
    ensures reads { MatchResult result
        (λ x. Reads Atom (paren.now ∷ tokens.now) counts x.0 x.1.now x.2)
        (λ e. Fails Atom (paren.now ∷ tokens.now) counts e) }
    ensures shorter { IfOk result (λ x. length x.1.now ≤ length tokens.now) }
{
    let counts = operator(counts, 1 + tokens.len())?;
    let (inner, end, counts) = expression(alloc, tokens, counts)?;
    let (_, rest) = want(Kind::CloseParen, end)?;
    Ok((inner, rest, counts))
}

/// A `merge` that begins with this word.
#[cycle(exprs)]
fn merged<'a>(
    alloc: Global,
    word: &Token,
    tokens: &'a [Token],
    counts: Counts,
) -> Result<(Expr, &'a [Token], Counts), Fault>
    requires { word.now.kind ≡ Kind.Merge }
    ensures reads { MatchResult result
        (λ x. Reads Atom (word.now ∷ tokens.now) counts x.0 x.1.now x.2)
        (λ e. Fails Atom (word.now ∷ tokens.now) counts e) }
    ensures shorter { IfOk result (λ x. length x.1.now ≤ length tokens.now) }
{
    let counts = operator(counts, 1 + tokens.len())?;
    let (form, rest, counts) = merging(alloc, tokens, counts)?;
    Ok((placed(word, form), rest, counts))
}

/// A constant or a call that begins with this word `async`.
#[cycle(exprs)]
fn asynchronous<'a>(
    alloc: Global,
    word: &Token,
    tokens: &'a [Token],
    counts: Counts,
) -> Result<(Expr, &'a [Token], Counts), Fault>
    requires { word.now.kind ≡ Kind.Async }
    ensures reads { MatchResult result
        (λ x. Reads Atom (word.now ∷ tokens.now) counts x.0 x.1.now x.2)
        (λ e. Fails Atom (word.now ∷ tokens.now) counts e) }
    ensures shorter { IfOk result (λ x. length x.1.now ≤ length tokens.now) }
{
    let counts = operator(counts, 1 + tokens.len())?;
    let (form, rest, counts) = async_tail(alloc, tokens, counts)?;
    Ok((placed(word, form), rest, counts))
}

/// The arguments after a name, if there are any.
#[cycle(exprs)]
fn call_tail(
    alloc: Global,
    tokens: &[Token],
    counts: Counts,
) -> Result<(Option<Items<Expr>>, &[Token], Counts), Fault>
    ensures reads { MatchResult result (λ x. Reads Call_tail tokens.now counts x.0 x.1.now x.2) (λ e. Fails Call_tail tokens.now counts e) }
    ensures shorter { IfOk result (λ x. length x.1.now ≤ length tokens.now) }
{
    match take(Kind::OpenParen, tokens) {
        None => Ok((None, tokens, counts)),
        Some((_, _)) => {
            let (args, rest, counts) = called(alloc, tokens, counts)?;
            Ok((Some(args), rest, counts))
        }
    }
}

#[cycle(exprs)]
fn args(
    alloc: Global,
    tokens: &[Token],
    counts: Counts,
) -> Result<(Items<Expr>, &[Token], Counts), Fault>
    ensures reads { MatchResult result (λ x. Reads Args tokens.now counts x.0 x.1.now x.2) (λ e. Fails Args tokens.now counts e) }
    ensures shorter { IfOk result (λ x. length x.1.now ≤ length tokens.now) }
{
    let mut all = Items::new(alloc);
    if !starts_expression(tokens) {
        return Ok((all, tokens, counts));
    }
    let (first, mut rest, mut now) = expression(alloc, tokens, counts)?;
    all.push(first)?;
    'more: while let Some((_, after)) = take(Kind::Comma, rest) {
        let (next, end, then) = expression(alloc, after, now)?;
        all.push(next)?;
        rest = end;
        now = then;
    }
    Ok((all, rest, now))
}

/// What comes after the word `merge`.
#[cycle(exprs)]
fn merging(
    alloc: Global,
    tokens: &[Token],
    counts: Counts,
) -> Result<(Form, &[Token], Counts), Fault>
    ensures reads { MatchResult result (λ x. Reads Merging tokens.now counts x.0 x.1.now x.2) (λ e. Fails Merging tokens.now counts e) }
    ensures shorter { IfOk result (λ x. length x.1.now < length tokens.now) }
{
    let (token, rest) = want(Kind::Lower, tokens)?;
    let (branches, rest, counts) = merge_list(alloc, rest, counts)?;
    Ok((merge(alloc, token, branches)?, rest, counts))
}

/// The branches of a `merge`, of which there is one at least.
#[cycle(exprs)]
fn merge_list(
    alloc: Global,
    tokens: &[Token],
    counts: Counts,
) -> Result<(Items<MergeBranch>, &[Token], Counts), Fault>
    ensures reads { MatchResult result (λ x. Reads Merge_list tokens.now counts x.0 x.1.now x.2) (λ e. Fails Merge_list tokens.now counts e) }
    ensures shorter { IfOk result (λ x. length x.1.now < length tokens.now) }
{
    let mut all = Items::new(alloc);
    let (first, mut rest, mut now) = merge_branch(alloc, tokens, counts)?;
    all.push(first)?;
    'branches: while let Some((_, _)) = take(Kind::OpenParen, rest) {
        let (next, end, then) = merge_branch(alloc, rest, now)?;
        all.push(next)?;
        rest = end;
        now = then;
    }
    Ok((all, rest, now))
}

/// A branch of a `merge`.
#[cycle(exprs)]
fn merge_branch(
    alloc: Global,
    tokens: &[Token],
    counts: Counts,
) -> Result<(MergeBranch, &[Token], Counts), Fault>
    ensures reads { MatchResult result (λ x. Reads Merge_branch tokens.now counts x.0 x.1.now x.2) (λ e. Fails Merge_branch tokens.now counts e) }
    ensures shorter { IfOk result (λ x. length x.1.now < length tokens.now) }
{
    let (open, inside) = want(Kind::OpenParen, tokens)?;
    let counts = operator(counts, tokens.len())?;
    let (tag, rest, counts) = tag(alloc, inside, counts)?;
    let (_, after) = want(Kind::Arrow, rest)?;
    let (value, end, counts) = expression(alloc, after, counts)?;
    let (_, rest) = want(Kind::CloseParen, end)?;
    let place = open.place;
    Ok((MergeBranch { place, tag, value }, rest, counts))
}

/// What comes after the word `async`: a constant, or a call, with the length of its queue or without.
#[cycle(exprs)]
fn async_tail(
    alloc: Global,
    tokens: &[Token],
    counts: Counts,
) -> Result<(Form, &[Token], Counts), Fault>
    ensures reads { MatchResult result (λ x. Reads Async_tail tokens.now counts x.0 x.1.now x.2) (λ e. Fails Async_tail tokens.now counts e) }
    ensures shorter { IfOk result (λ x. length x.1.now < length tokens.now) }
{
    if let Some((name, rest)) = take(Kind::Lower, tokens) {
        let (args, end, counts) = called(alloc, rest, counts)?;
        return Ok((async_call(alloc, 2, name, args)?, end, counts));
    }
    if let Some((_, rest)) = take(Kind::OpenAngle, tokens) {
        let (number, rest) = want(Kind::Number, rest)?;
        let (_, rest) = want(Kind::CloseAngle, rest)?;
        let (name, rest) = want(Kind::Lower, rest)?;
        let (args, end, counts) = called(alloc, rest, counts)?;
        return Ok((queued_call(alloc, number, name, args)?, end, counts));
    }
    let (value, rest, counts) = initial_constant(alloc, tokens, counts)?;
    Ok((Form::AsyncConst(value), rest, counts))
}

/// Arguments in parentheses.
#[cycle(exprs)]
fn called(
    alloc: Global,
    tokens: &[Token],
    counts: Counts,
) -> Result<(Items<Expr>, &[Token], Counts), Fault>
    ensures reads { MatchResult result (λ x. Reads Called tokens.now counts x.0 x.1.now x.2) (λ e. Fails Called tokens.now counts e) }
    ensures shorter { IfOk result (λ x. length x.1.now < length tokens.now) }
{
    let (_, inside) = want(Kind::OpenParen, tokens)?;
    let counts = operator(counts, tokens.len())?;
    let (args, end, counts) = args(alloc, inside, counts)?;
    let (_, rest) = want(Kind::CloseParen, end)?;
    Ok((args, rest, counts))
}
