//! What the equations of a block define.
ghost use Rattle.std.specs.Prelude.{◌≡◌, ◌++◌, ◌||◌, IfOk, OnOk, [], map};
ghost use Rattle.std.specs.List.{flat_map, list_any};
ghost use Rattle.hept_ast.specs.Faults.{second_definitions};
ghost use Rattle.hept_ast.specs.Limits.{earlier_of, earliest};
ghost use Rattle.hept_ast.specs.Parts.{equation_case, place_of, sets_of};
ghost use Rattle.hept_ast.specs.Texts.{Name as NameText, is_in};
ghost use Rattle.block_definitions.specs.Defined.{again_fault, block_faults, last_in, left_faults_by, undefined_fault};

use declared_types::note_decls;
use earliest_fault::{Found, Kind, NameSet, has_name, insert_names, no_names};
use hept_ast::{Decl, Equation, Memory, Name, Node, Place, TypeDec};
use node_text::{declaration, is_declared_in, push_sets};
use std::alloc::Global;

fn note_if_undefined(found: &mut Found, decl: &Decl, sets: &NameSet<'_>)
    ensures { found.new ≡ earlier_of found.old (earliest (undefined_fault (map (λ r. r.now) sets.now.keys) decl.now)) }
{
    let defined = has_name(sets, &decl.name);
    found.note_if(decl.place, Kind::NotDefined, !defined);
}

#[tactic(auto, using(hept_ast::proofs::Earliest::earliest_of))]
fn note_undefined(found: &mut Found, decls: &[Decl], sets: &NameSet<'_>)
    ensures { found.new ≡ earlier_of found.old (earliest (flat_map (undefined_fault (map (λ r. r.now) sets.now.keys)) decls.now)) }
{
    for decl in decls {
        note_if_undefined(found, decl, sets);
    }
}

#[tactic(auto, using(crate::proofs::Again::places_of))]
fn place_of(equation: &Equation) -> Place
    ensures { result.0 ≡ place_of equation.now }
{
    match equation {
        Equation::Define { place, .. } => *place,
        Equation::Switch { place, .. } => *place,
        Equation::Reset { place, .. } => *place,
        Equation::Automaton { place, .. } => *place,
    }
}

fn is_one_met(names: &[&Name], met: &NameSet<'_>) -> bool
    ensures { result ≡ list_any (λ r. is_in r.now (map (λ r. r.now) met.now.keys)) names.now }
{
    names.iter().any(|name| has_name(met, name))
}

fn is_any_met(names: &[&Name], met: &NameSet<'_>) -> bool
    ensures { result ≡ list_any (λ x. is_in x (map (λ r. r.now) met.now.keys)) (map (λ r. r.now) names.now) }
{
    is_one_met(names, met)
}

/// Notes an equation that defines what one before it does, and adds what it defines to those.
fn note_again<'a>(
    alloc: Global,
    found: &mut Found,
    earlier: &mut NameSet<'a>,
    equation: &'a Equation,
) -> Result<(), Memory>
    ensures noted { OnOk result (found.new ≡ earlier_of found.old (earliest (again_fault (map (λ r. r.now) earlier.old.keys) (equation_case equation.now)))) }
    ensures earlier { OnOk result ((x : NameText) → is_in x (map (λ r. r.now) earlier.new.keys) ≡ (is_in x (map (λ r. r.now) earlier.old.keys) || is_in x (sets_of equation.now))) }
{
    let mut own = Vec::new(alloc);
    push_sets(alloc, &mut own, equation)?;
    let again = is_any_met(own.as_slice(), earlier);
    found.note_if(place_of(equation), Kind::Duplicate, again);
    insert_names(earlier, own.as_slice())
}

/// Notes each equation of a block that defines what an earlier one does.
#[tactic(auto, using(hept_ast::proofs::Earliest::earliest_of))]
fn note_second_definitions(
    alloc: Global,
    found: &mut Found,
    body: &[Equation],
) -> Result<(), Memory>
    ensures { OnOk result (found.new ≡ earlier_of found.old (earliest (second_definitions [] (map equation_case body.now)))) }
{
    let mut earlier = no_names(alloc);
    for equation in body {
        note_again(alloc, found, &mut earlier, equation)?;
    }
    Ok(())
}

fn all_sets<'a>(alloc: Global, body: &'a [Equation]) -> Result<Vec<&'a Name>, Memory>
    ensures { IfOk result (λ v. map (λ r. r.now) v.items ≡ flat_map sets_of body.now) }
{
    let mut sets = Vec::new(alloc);
    for equation in body {
        push_sets(alloc, &mut sets, equation)?;
    }
    Ok(sets)
}

/// What the equations of a block define.
fn defined<'a>(alloc: Global, body: &'a [Equation]) -> Result<NameSet<'a>, Memory>
    ensures { IfOk result (λ names. (x : NameText) → is_in x (map (λ r. r.now) names.keys) ≡ is_in x (flat_map sets_of body.now)) }
{
    let sets = all_sets(alloc, body)?;
    let mut names = no_names(alloc);
    insert_names(&mut names, sets.as_slice())?;
    Ok(names)
}

/// Notes what is wrong with what a block declares, and with what its equations define of it.
#[tactic(auto, using(hept_ast::proofs::Earliest::earliest_of))]
pub fn note_block(
    alloc: Global,
    found: &mut Found,
    types: &[TypeDec],
    decls: &[Decl],
    body: &[Equation],
) -> Result<(), Memory>
    ensures { OnOk result (found.new ≡ earlier_of found.old (earliest (block_faults types.now decls.now body.now))) }
{
    note_decls(found, types, decls);
    let sets = defined(alloc, body)?;
    note_undefined(found, decls, &sets);
    note_second_definitions(alloc, found, body)?;
    Ok(())
}

/// The same of a node's own block, which declares the outputs too.
pub fn note_node_block(
    alloc: Global,
    found: &mut Found,
    types: &[TypeDec],
    node: &Node,
) -> Result<(), Memory>
    ensures { OnOk result (found.new ≡ earlier_of found.old (earliest (block_faults types.now (node.now.outputs ++ node.now.block.locals) node.now.block.body))) }
{
    let outputs = node.outputs.as_slice();
    let locals = node.block.locals.as_slice();
    let body = node.block.body.as_slice();
    note_decls(found, types, outputs);
    note_decls(found, types, locals);
    let sets = defined(alloc, body)?;
    note_undefined(found, outputs, &sets);
    note_undefined(found, locals, &sets);
    note_second_definitions(alloc, found, body)
}

/// Whether a name is that of a variable with `last`.
pub(crate) fn has_last(seen: &[&Decl], name: &Name) -> bool
    ensures { result ≡ last_in (map (λ r. r.now) seen.now) name.now }
{
    match declaration(seen, name) {
        Some(decl) => decl.init.is_some(),
        None => false,
    }
}

#[tactic(auto, using(hept_ast::proofs::Earliest::earliest_of))]
fn note_left(found: &mut Found, inputs: &[Decl], seen: &[&Decl], place: Place, name: &Name)
    ensures { found.new ≡ earlier_of found.old (earliest (left_faults_by inputs.now (map (λ r. r.now) seen.now) place.0 name.now)) }
{
    let known = declaration(seen, name).is_some();
    found.note_if(place, Kind::UnknownName, !known);
    let input = is_declared_in(name, inputs);
    found.note_if(place, Kind::Duplicate, input);
}

/// Notes each name on a left side that is not seen or is an input.
#[tactic(auto, using(hept_ast::proofs::Earliest::earliest_of))]
pub fn note_left_side(
    found: &mut Found,
    inputs: &[Decl],
    seen: &[&Decl],
    place: Place,
    left: &[Name],
)
    ensures { found.new ≡ earlier_of found.old (earliest (flat_map (left_faults_by inputs.now (map (λ r. r.now) seen.now) place.0) left.now)) }
{
    for name in left {
        note_left(found, inputs, seen, place, name);
    }
}
