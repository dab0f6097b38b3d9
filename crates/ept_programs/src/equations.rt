//! Reads equations, blocks and automata.
ghost use Rattle.std.specs.Prelude.{◌≡◌, ◌<◌, ◌≤◌, ◌∷◌, [], length, IfOk, MatchResult};
ghost use Rattle.ept_grammar.specs.Grammar.{Block_of, Branch_list, Branch_of, Eq, Eqs, Escape_list, Escape_of, Escapes, Resetting, Several, State_list, State_of, Strong, Switching, Target, Transitions, Weak, names_of, place_of as place_of_text};
ghost use Rattle.ept_grammar.specs.Reading.{Fails, Reads, first, look, may_begin};

use crate::declarations::{block_locals, names};
use ept_expressions::expression;
use ept_grammar::{Counts, Fault};
use ept_steps::{closed, closed_fresh, fresh, opened, opened_fresh, tag, take, want};
use ept_tokens::{Kind, Token};
use hept_ast::{Block, Branch, Equation, Escape, Expr, Name, Place, State, copy_name};
use sqlite_items::{Boxed, Items};
use std::alloc::Global;

/// Whether a transition restarts its target, and the target.
fn target(
    alloc: Global,
    tokens: &[Token],
    counts: Counts,
) -> Result<(bool, Name, &[Token], Counts), Fault>
    ensures reads { MatchResult result (λ x. Reads Target tokens.now counts (x.0, x.1) x.2.now x.3) (λ e. Fails Target tokens.now counts e) }
    ensures shorter { IfOk result (λ x. length x.2.now < length tokens.now) }
{
    if let Some((_, rest)) = take(Kind::Continue, tokens) {
        let (token, rest) = want(Kind::Upper, rest)?;
        return Ok((false, copy_name(alloc, &token.name)?, rest, counts));
    }
    let (_, rest) = want(Kind::Then, tokens)?;
    let (token, end) = want(Kind::Upper, rest)?;
    Ok((true, copy_name(alloc, &token.name)?, end, counts))
}

fn place_of(tokens: &[Token]) -> Place
    ensures { result ≡ place_of_text tokens.now }
{
    match tokens.split_first() {
        None => Place(0),
        Some((token, _)) => token.place,
    }
}

/// A transition.
fn escape(
    alloc: Global,
    tokens: &[Token],
    counts: Counts,
) -> Result<(Escape, &[Token], Counts), Fault>
    ensures reads { MatchResult result (λ x. Reads Escape_of tokens.now counts x.0 x.1.now x.2) (λ e. Fails Escape_of tokens.now counts e) }
    ensures shorter { IfOk result (λ x. length x.1.now < length tokens.now) }
{
    let place = place_of(tokens);
    let (condition, rest, counts) = expression(alloc, tokens, counts)?;
    let (restart, target, rest, counts) = target(alloc, rest, counts)?;
    let escape = Escape {
        place,
        condition,
        target,
        restart,
    };
    Ok((escape, rest, counts))
}

/// Transitions with a bar between two of them, and maybe one before the first, where the counts are those before a condition.
fn escapes(
    alloc: Global,
    tokens: &[Token],
    counts: Counts,
) -> Result<(Items<Escape>, &[Token], Counts), Fault>
    ensures reads { MatchResult result (λ x. Reads Escapes tokens.now counts x.0 x.1.now x.2) (λ e. Fails Escapes tokens.now counts e) }
    ensures shorter { IfOk result (λ x. length x.1.now < length tokens.now) }
{
    match take(Kind::Bar, tokens) {
        None => escape_list(alloc, tokens, counts),
        Some((_, rest)) => escape_list(alloc, rest, fresh(counts)),
    }
}

fn escape_list(
    alloc: Global,
    tokens: &[Token],
    counts: Counts,
) -> Result<(Items<Escape>, &[Token], Counts), Fault>
    ensures reads { MatchResult result (λ x. Reads Escape_list tokens.now counts x.0 x.1.now x.2) (λ e. Fails Escape_list tokens.now counts e) }
    ensures shorter { IfOk result (λ x. length x.1.now < length tokens.now) }
{
    let mut all = Items::new(alloc);
    let (first, mut rest, mut now) = escape(alloc, tokens, counts)?;
    all.push(first)?;
    'more: while let Some((_, after)) = take(Kind::Bar, rest) {
        let (next, end, then) = escape(alloc, after, fresh(now))?;
        all.push(next)?;
        rest = end;
        now = then;
    }
    Ok((all, rest, now))
}

/// The weak transitions of a state, or none.
fn weak(
    alloc: Global,
    tokens: &[Token],
    counts: Counts,
) -> Result<(Items<Escape>, &[Token], Counts), Fault>
    ensures reads { MatchResult result (λ x. Reads Weak tokens.now counts x.0 x.1.now x.2) (λ e. Fails Weak tokens.now counts e) }
    ensures shorter { IfOk result (λ x. length x.1.now ≤ length tokens.now) }
{
    match take(Kind::Until, tokens) {
        None => Ok((Items::new(alloc), tokens, counts)),
        Some((_, rest)) => escapes(alloc, rest, fresh(counts)),
    }
}

/// The strong transitions of a state, or none.
fn strong(
    alloc: Global,
    tokens: &[Token],
    counts: Counts,
) -> Result<(Items<Escape>, &[Token], Counts), Fault>
    ensures reads { MatchResult result (λ x. Reads Strong tokens.now counts x.0 x.1.now x.2) (λ e. Fails Strong tokens.now counts e) }
    ensures shorter { IfOk result (λ x. length x.1.now ≤ length tokens.now) }
{
    match take(Kind::Unless, tokens) {
        None => Ok((Items::new(alloc), tokens, counts)),
        Some((_, rest)) => escapes(alloc, rest, fresh(counts)),
    }
}

/// The weak and the strong transitions of a state.
fn transitions(
    alloc: Global,
    tokens: &[Token],
    counts: Counts,
) -> Result<(Items<Escape>, Items<Escape>, &[Token], Counts), Fault>
    ensures reads { MatchResult result (λ x. Reads Transitions tokens.now counts (x.0, x.1) x.2.now x.3) (λ e. Fails Transitions tokens.now counts e) }
    ensures shorter { IfOk result (λ x. length x.2.now ≤ length tokens.now) }
{
    let (weak, rest, counts) = weak(alloc, tokens, counts)?;
    let (strong, rest, counts) = strong(alloc, rest, counts)?;
    Ok((weak, strong, rest, counts))
}

/// What comes after the parenthesis of an equation of several names.
fn several(
    alloc: Global,
    tokens: &[Token],
    counts: Counts,
) -> Result<(Items<Name>, Expr, &[Token], Counts), Fault>
    ensures reads { MatchResult result (λ x. Reads Several tokens.now counts (x.0, x.1) x.2.now x.3) (λ e. Fails Several tokens.now counts e) }
    ensures shorter { IfOk result (λ x. length x.2.now < length tokens.now) }
{
    let (names, rest, counts) = names(alloc, tokens, counts)?;
    let (_, closed) = want(Kind::CloseParen, rest)?;
    let (_, after) = want(Kind::Equal, closed)?;
    let (right, end, counts) = expression(alloc, after, fresh(counts))?;
    Ok((token_names(alloc, names.as_slice())?, right, end, counts))
}

fn token_names(alloc: Global, tokens: &[Token]) -> Result<Items<Name>, Fault>
    ensures { MatchResult result (λ ns. ns ≡ names_of tokens.now) (λ e. e ≡ Fault.Memory) }
{
    let mut all = Items::new(alloc);
    'tokens: for token in tokens {
        all.push(copy_name(alloc, &token.name)?)?;
    }
    Ok(all)
}

fn one_name(alloc: Global, token: &Token) -> Result<Items<Name>, Fault>
    ensures { MatchResult result (λ ns. ns ≡ token.now.name ∷ []) (λ e. e ≡ Fault.Memory) }
{
    let mut all = Items::new(alloc);
    all.push(copy_name(alloc, &token.name)?)?;
    Ok(all)
}

fn begins_equation(kind: Kind) -> bool
    ensures { result ≡ first Eq kind }
{
    match kind {
        Kind::Lower => true,
        Kind::OpenParen => true,
        Kind::Switch => true,
        Kind::Reset => true,
        Kind::Automaton => true,
        _ => false,
    }
}

fn starts_equation(tokens: &[Token]) -> bool
    ensures { result ≡ may_begin Eq (look tokens.now) }
{
    match tokens.split_first() {
        None => false,
        Some((token, _)) => begins_equation(token.kind),
    }
}

/// Equations, each of which may end in a semicolon.
#[cycle(eqs)]
pub fn equations(
    alloc: Global,
    tokens: &[Token],
    counts: Counts,
) -> Result<(Items<Equation>, &[Token], Counts), Fault>
    ensures reads { MatchResult result (λ x. Reads Eqs tokens.now counts x.0 x.1.now x.2) (λ e. Fails Eqs tokens.now counts e) }
    ensures shorter { IfOk result (λ x. length x.1.now ≤ length tokens.now) }
{
    let mut all = Items::new(alloc);
    let mut rest = tokens;
    let mut now = counts;
    'equations: while starts_equation(rest) {
        let (next, end, then) = equation(alloc, rest, now)?;
        all.push(next)?;
        now = then;
        match take(Kind::Semicolon, end) {
            None => return Ok((all, end, now)),
            Some((_, after)) => rest = after,
        }
    }
    Ok((all, rest, now))
}

#[cycle(eqs)]
fn equation(
    alloc: Global,
    tokens: &[Token],
    counts: Counts,
) -> Result<(Equation, &[Token], Counts), Fault>
    ensures reads { MatchResult result (λ x. Reads Eq tokens.now counts x.0 x.1.now x.2) (λ e. Fails Eq tokens.now counts e) }
    ensures shorter { IfOk result (λ x. length x.1.now < length tokens.now) }
{
    if let Some((open, rest)) = take(Kind::OpenParen, tokens) {
        let (left, right, rest, counts) = several(alloc, rest, counts)?;
        let place = open.place;
        return Ok((Equation::Define { place, left, right }, rest, counts));
    }
    if let Some((word, rest)) = take(Kind::Switch, tokens) {
        let counts = opened_fresh(counts, tokens.len())?;
        let (on, branches, rest, counts) = switching(alloc, rest, counts)?;
        let place = word.place;
        return Ok((
            Equation::Switch {
                place,
                on,
                branches,
            },
            rest,
            counts,
        ));
    }
    if let Some((word, rest)) = take(Kind::Reset, tokens) {
        let counts = opened(counts, tokens.len())?;
        let (block, every, rest, counts) = resetting(alloc, rest, counts)?;
        let place = word.place;
        let block = Boxed::new(alloc, block)?;
        return Ok((
            Equation::Reset {
                place,
                block,
                every,
            },
            rest,
            counts,
        ));
    }
    if let Some((word, rest)) = take(Kind::Automaton, tokens) {
        let counts = opened(counts, tokens.len())?;
        let (states, rest, counts) = state_list(alloc, rest, counts)?;
        let (_, end) = want(Kind::End, rest)?;
        let place = word.place;
        return Ok((Equation::Automaton { place, states }, end, closed(counts)));
    }
    let (name, rest) = want(Kind::Lower, tokens)?;
    let (_, after) = want(Kind::Equal, rest)?;
    let (right, end, counts) = expression(alloc, after, fresh(counts))?;
    let place = name.place;
    let left = one_name(alloc, name)?;
    Ok((Equation::Define { place, left, right }, end, counts))
}

/// What comes after the word `switch`.
#[cycle(eqs)]
fn switching(
    alloc: Global,
    tokens: &[Token],
    counts: Counts,
) -> Result<(Expr, Items<Branch>, &[Token], Counts), Fault>
    ensures reads { MatchResult result (λ x. Reads Switching tokens.now counts (x.0, x.1) x.2.now x.3) (λ e. Fails Switching tokens.now counts e) }
    ensures shorter { IfOk result (λ x. length x.2.now < length tokens.now) }
{
    let (on, rest, counts) = expression(alloc, tokens, counts)?;
    let (branches, rest, counts) = branch_list(alloc, rest, counts)?;
    let (_, end) = want(Kind::End, rest)?;
    Ok((on, branches, end, closed(counts)))
}

/// The branches of a switch, of which there is one at least.
#[cycle(eqs)]
fn branch_list(
    alloc: Global,
    tokens: &[Token],
    counts: Counts,
) -> Result<(Items<Branch>, &[Token], Counts), Fault>
    ensures reads { MatchResult result (λ x. Reads Branch_list tokens.now counts x.0 x.1.now x.2) (λ e. Fails Branch_list tokens.now counts e) }
    ensures shorter { IfOk result (λ x. length x.1.now < length tokens.now) }
{
    let mut all = Items::new(alloc);
    let (first, mut rest, mut now) = branch(alloc, tokens, counts)?;
    all.push(first)?;
    'branches: while let Some((_, _)) = take(Kind::Bar, rest) {
        let (next, end, then) = branch(alloc, rest, now)?;
        all.push(next)?;
        rest = end;
        now = then;
    }
    Ok((all, rest, now))
}

#[cycle(eqs)]
fn branch(
    alloc: Global,
    tokens: &[Token],
    counts: Counts,
) -> Result<(Branch, &[Token], Counts), Fault>
    ensures reads { MatchResult result (λ x. Reads Branch_of tokens.now counts x.0 x.1.now x.2) (λ e. Fails Branch_of tokens.now counts e) }
    ensures shorter { IfOk result (λ x. length x.1.now < length tokens.now) }
{
    let (bar, rest) = want(Kind::Bar, tokens)?;
    let (tag, rest, counts) = tag(alloc, rest, counts)?;
    let (_, after) = want(Kind::Do, rest)?;
    let (block, end, counts) = block(alloc, after, counts)?;
    let place = bar.place;
    Ok((Branch { place, tag, block }, end, counts))
}

#[cycle(eqs)]
fn block(
    alloc: Global,
    tokens: &[Token],
    counts: Counts,
) -> Result<(Block, &[Token], Counts), Fault>
    ensures reads { MatchResult result (λ x. Reads Block_of tokens.now counts x.0 x.1.now x.2) (λ e. Fails Block_of tokens.now counts e) }
    ensures shorter { IfOk result (λ x. length x.1.now ≤ length tokens.now) }
{
    let (locals, rest, counts) = block_locals(alloc, tokens, counts)?;
    let (body, end, counts) = equations(alloc, rest, counts)?;
    Ok((Block { locals, body }, end, counts))
}

/// What comes after the word `reset`.
#[cycle(eqs)]
fn resetting(
    alloc: Global,
    tokens: &[Token],
    counts: Counts,
) -> Result<(Block, Expr, &[Token], Counts), Fault>
    ensures reads { MatchResult result (λ x. Reads Resetting tokens.now counts (x.0, x.1) x.2.now x.3) (λ e. Fails Resetting tokens.now counts e) }
    ensures shorter { IfOk result (λ x. length x.2.now < length tokens.now) }
{
    let (block, rest, counts) = block(alloc, tokens, counts)?;
    let (_, after) = want(Kind::Every, rest)?;
    let (every, end, counts) = expression(alloc, after, closed_fresh(counts))?;
    Ok((block, every, end, counts))
}

/// The states of an automaton, of which there is one at least.
#[cycle(eqs)]
fn state_list(
    alloc: Global,
    tokens: &[Token],
    counts: Counts,
) -> Result<(Items<State>, &[Token], Counts), Fault>
    ensures reads { MatchResult result (λ x. Reads State_list tokens.now counts x.0 x.1.now x.2) (λ e. Fails State_list tokens.now counts e) }
    ensures shorter { IfOk result (λ x. length x.1.now < length tokens.now) }
{
    let mut all = Items::new(alloc);
    let (first, mut rest, mut now) = state(alloc, tokens, counts)?;
    all.push(first)?;
    'states: while let Some((_, _)) = take(Kind::State, rest) {
        let (next, end, then) = state(alloc, rest, now)?;
        all.push(next)?;
        rest = end;
        now = then;
    }
    Ok((all, rest, now))
}

#[cycle(eqs)]
fn state(
    alloc: Global,
    tokens: &[Token],
    counts: Counts,
) -> Result<(State, &[Token], Counts), Fault>
    ensures reads { MatchResult result (λ x. Reads State_of tokens.now counts x.0 x.1.now x.2) (λ e. Fails State_of tokens.now counts e) }
    ensures shorter { IfOk result (λ x. length x.1.now < length tokens.now) }
{
    let (word, rest) = want(Kind::State, tokens)?;
    let (title, rest) = want(Kind::Upper, rest)?;
    let (_, after) = want(Kind::Do, rest)?;
    let name = copy_name(alloc, &title.name)?;
    let (block, rest, counts) = block(alloc, after, counts)?;
    let (weak, strong, rest, counts) = transitions(alloc, rest, counts)?;
    let place = word.place;
    let state = State {
        place,
        name,
        block,
        weak,
        strong,
    };
    Ok((state, rest, counts))
}
