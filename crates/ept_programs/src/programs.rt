//! Reads the tokens of programs.
ghost use Rattle.std.specs.Prelude.{◌≡◌, ◌<◌, ◌∷◌, [], length, IfErr, IfOk, MatchResult};
ghost use Rattle.ept_grammar.specs.Grammar.{Constructor_list, Input_list, Interface, Item, Node_body, Node_dec, Output_list, Type_dec, Value, Whole};
ghost use Rattle.ept_grammar.specs.Reading.{Fails, Reads, first, look, may_begin};
ghost use Rattle.ept_grammar.specs.Text.{IsRefused, IsText, RefusesExactly};

use crate::declarations::{decls, inputs, locals};
use crate::equations::equations;
use ept_grammar::{Counts, Fault};
use ept_steps::{take, want};
use ept_tokens::{Kind, Token};
use hept_ast::{Block, Decl, Name, Node, Program, TypeDec, copy_name};
use sqlite_items::Items;
use std::alloc::Global;

/// Constructors with a bar between two of them.
fn constructors(
    alloc: Global,
    tokens: &[Token],
    counts: Counts,
) -> Result<(Items<Name>, &[Token], Counts), Fault>
    ensures reads { MatchResult result (λ x. Reads Constructor_list tokens.now counts x.0 x.1.now x.2) (λ e. Fails Constructor_list tokens.now counts e) }
    ensures shorter { IfOk result (λ x. length x.1.now < length tokens.now) }
{
    let (first, mut rest) = want(Kind::Upper, tokens)?;
    let mut all = Items::new(alloc);
    all.push(copy_name(alloc, &first.name)?)?;
    'more: while let Some((_, after)) = take(Kind::Bar, rest) {
        let (next, end) = want(Kind::Upper, after)?;
        all.push(copy_name(alloc, &next.name)?)?;
        rest = end;
    }
    Ok((all, rest, counts))
}

fn type_dec(
    alloc: Global,
    tokens: &[Token],
    counts: Counts,
) -> Result<(TypeDec, &[Token], Counts), Fault>
    ensures reads { MatchResult result (λ x. Reads Type_dec tokens.now counts x.0 x.1.now x.2) (λ e. Fails Type_dec tokens.now counts e) }
    ensures shorter { IfOk result (λ x. length x.1.now < length tokens.now) }
{
    let (word, rest) = want(Kind::Type, tokens)?;
    let (title, rest) = want(Kind::Lower, rest)?;
    let (_, after) = want(Kind::Equal, rest)?;
    let (constructors, end, counts) = constructors(alloc, after, counts)?;
    let name = copy_name(alloc, &title.name)?;
    let place = word.place;
    let dec = TypeDec {
        place,
        name,
        constructors,
    };
    Ok((dec, end, counts))
}

/// The inputs and the outputs of a node.
fn interface(
    alloc: Global,
    tokens: &[Token],
    counts: Counts,
) -> Result<(Items<Decl>, Items<Decl>, &[Token], Counts), Fault>
    ensures reads { MatchResult result (λ x. Reads Interface tokens.now counts (x.0, x.1) x.2.now x.3) (λ e. Fails Interface tokens.now counts e) }
    ensures shorter { IfOk result (λ x. length x.2.now < length tokens.now) }
{
    let (inputs, rest, counts) = input_list(alloc, tokens, counts)?;
    let (_, returned) = want(Kind::Returns, rest)?;
    let (outputs, end, counts) = output_list(alloc, returned, counts)?;
    Ok((inputs, outputs, end, counts))
}

fn input_list(
    alloc: Global,
    tokens: &[Token],
    counts: Counts,
) -> Result<(Items<Decl>, &[Token], Counts), Fault>
    ensures reads { MatchResult result (λ x. Reads Input_list tokens.now counts x.0 x.1.now x.2) (λ e. Fails Input_list tokens.now counts e) }
    ensures shorter { IfOk result (λ x. length x.1.now < length tokens.now) }
{
    let (_, inside) = want(Kind::OpenParen, tokens)?;
    let (all, rest, counts) = inputs(alloc, inside, counts)?;
    let (_, end) = want(Kind::CloseParen, rest)?;
    Ok((all, end, counts))
}

fn output_list(
    alloc: Global,
    tokens: &[Token],
    counts: Counts,
) -> Result<(Items<Decl>, &[Token], Counts), Fault>
    ensures reads { MatchResult result (λ x. Reads Output_list tokens.now counts x.0 x.1.now x.2) (λ e. Fails Output_list tokens.now counts e) }
    ensures shorter { IfOk result (λ x. length x.1.now < length tokens.now) }
{
    let (_, inside) = want(Kind::OpenParen, tokens)?;
    let (all, rest, counts) = decls(alloc, inside, counts)?;
    let (_, end) = want(Kind::CloseParen, rest)?;
    Ok((all, end, counts))
}

/// The locals and the equations of a node.
fn node_body(
    alloc: Global,
    tokens: &[Token],
    counts: Counts,
) -> Result<(Block, &[Token], Counts), Fault>
    ensures reads { MatchResult result (λ x. Reads Node_body tokens.now counts x.0 x.1.now x.2) (λ e. Fails Node_body tokens.now counts e) }
    ensures shorter { IfOk result (λ x. length x.1.now < length tokens.now) }
{
    let (locals, rest, counts) = locals(alloc, tokens, counts)?;
    let (_, after) = want(Kind::Let, rest)?;
    let (body, rest, counts) = equations(alloc, after, counts)?;
    let (_, end) = want(Kind::Tel, rest)?;
    Ok((Block { locals, body }, end, counts))
}

fn node(alloc: Global, tokens: &[Token], counts: Counts) -> Result<(Node, &[Token], Counts), Fault>
    ensures reads { MatchResult result (λ x. Reads Node_dec tokens.now counts x.0 x.1.now x.2) (λ e. Fails Node_dec tokens.now counts e) }
    ensures shorter { IfOk result (λ x. length x.1.now < length tokens.now) }
{
    let (word, rest) = want(Kind::Node, tokens)?;
    let (title, rest) = want(Kind::Lower, rest)?;
    let (inputs, outputs, rest, counts) = interface(alloc, rest, counts)?;
    let (block, end, counts) = node_body(alloc, rest, counts)?;
    let name = copy_name(alloc, &title.name)?;
    let place = word.place;
    let node = Node {
        place,
        name,
        inputs,
        outputs,
        block,
    };
    Ok((node, end, counts))
}

fn with_type(alloc: Global, dec: TypeDec) -> Result<Program, Fault>
    ensures { MatchResult result (λ p. p ≡ record { types = dec ∷ []; nodes = [] }) (λ e. e ≡ Fault.Memory) }
{
    let mut types = Items::new(alloc);
    types.push(dec)?;
    let nodes = Items::new(alloc);
    Ok(Program { types, nodes })
}

fn with_node(alloc: Global, node: Node) -> Result<Program, Fault>
    ensures { MatchResult result (λ p. p ≡ record { types = []; nodes = node ∷ [] }) (λ e. e ≡ Fault.Memory) }
{
    let mut nodes = Items::new(alloc);
    nodes.push(node)?;
    let types = Items::new(alloc);
    Ok(Program { types, nodes })
}

/// A program of one type or one node.
fn item(
    alloc: Global,
    tokens: &[Token],
    counts: Counts,
) -> Result<(Program, &[Token], Counts), Fault>
    ensures reads { MatchResult result (λ x. Reads Item tokens.now counts x.0 x.1.now x.2) (λ e. Fails Item tokens.now counts e) }
    ensures shorter { IfOk result (λ x. length x.1.now < length tokens.now) }
{
    if let Some((_, _)) = take(Kind::Type, tokens) {
        let (dec, rest, counts) = type_dec(alloc, tokens, counts)?;
        return Ok((with_type(alloc, dec)?, rest, counts));
    }
    let (node, rest, counts) = node(alloc, tokens, counts)?;
    Ok((with_node(alloc, node)?, rest, counts))
}

fn begins_item(kind: Kind) -> bool
    ensures { result ≡ first Item kind }
{
    match kind {
        Kind::Node => true,
        Kind::Type => true,
        _ => false,
    }
}

fn starts_item(tokens: &[Token]) -> bool
    ensures { result ≡ may_begin Item (look tokens.now) }
{
    match tokens.split_first() {
        None => false,
        Some((token, _)) => begins_item(token.kind),
    }
}

fn program(
    alloc: Global,
    tokens: &[Token],
    counts: Counts,
) -> Result<(Program, &[Token], Counts), Fault>
    ensures { MatchResult result (λ x. Reads Whole tokens.now counts x.0 x.1.now x.2) (λ e. Fails Whole tokens.now counts e) }
{
    let mut types = Items::new(alloc);
    let mut nodes = Items::new(alloc);
    let mut rest = tokens;
    let mut now = counts;
    'items: while starts_item(rest) {
        let (next, end, then) = item(alloc, rest, now)?;
        let Program {
            types: more_types,
            nodes: more_nodes,
        } = next;
        types.append(more_types)?;
        nodes.append(more_nodes)?;
        rest = end;
        now = then;
    }
    Ok((Program { types, nodes }, rest, now))
}

/// Reads the tokens of a program.
pub fn read_tokens(alloc: Global, tokens: &[Token]) -> Result<Program, Fault>
    // What is read is what the tokens stand for.
    ensures text { IfOk result (λ p. IsText Whole tokens.now p) }
    // They stand for nothing else, and a text is read, unless memory runs out.
    ensures only { (p : Value Whole) → IsText Whole tokens.now p → MatchResult result (λ q. q ≡ p) (λ f. f ≡ Fault.Memory) }
    // A refusal stands at its place.
    ensures refused { IfErr result (λ f. IsRefused Whole tokens.now f) }
    // What stands there is refused so, unless memory runs out.
    ensures exactly { RefusesExactly Whole tokens.now result }
{
    let counts = Counts {
        operators: 0,
        blocks: 0,
    };
    let (whole, rest, _) = program(alloc, tokens, counts)?;
    if rest.is_empty() {
        Ok(whole)
    } else {
        Err(Fault::Unexpected(rest.len()))
    }
}
