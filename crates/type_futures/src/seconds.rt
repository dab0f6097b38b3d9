//! Second declarations of types, of constructors, of nodes and of a node's variables.
ghost use Rattle.std.specs.Prelude.{◌≡◌, ◌++◌, [], OnOk, map};
ghost use Rattle.std.specs.List.{flat_map};
ghost use Rattle.hept_ast.specs.Faults.{seconds};
ghost use Rattle.hept_ast.specs.InnerParts.{decl_label};
ghost use Rattle.hept_ast.specs.Limits.{earlier_of, earliest};
ghost use Rattle.hept_ast.specs.Parts.{variables};
ghost use Rattle.hept_ast.specs.Texts.{same};
ghost use Rattle.earliest_fault.specs.Labels.{label_of};
ghost use Rattle.type_futures.specs.Labels.{constructor_labels, node_label, second_declarations, type_label};

use earliest_fault::{Found, Label, note_seconds, push_label, push_names};
use hept_ast::{Decl, Memory, Node, Program, TypeDec};
use node_text::node_declarations;
use std::alloc::Global;

fn push_types<'a>(labels: &mut Vec<Label<'a>>, types: &'a [TypeDec]) -> Result<(), Memory>
    ensures { OnOk result (map label_of labels.new.items ≡ map label_of labels.old.items ++ map type_label types.now) }
{
    for declared in types {
        push_label(labels, declared.place, &declared.name)?;
    }
    Ok(())
}

fn push_nodes<'a>(labels: &mut Vec<Label<'a>>, nodes: &'a [Node]) -> Result<(), Memory>
    ensures { OnOk result (map label_of labels.new.items ≡ map label_of labels.old.items ++ map node_label nodes.now) }
{
    for node in nodes {
        push_label(labels, node.place, &node.name)?;
    }
    Ok(())
}

fn push_constructors<'a>(labels: &mut Vec<Label<'a>>, declared: &'a TypeDec) -> Result<(), Memory>
    ensures { OnOk result (map label_of labels.new.items ≡ map label_of labels.old.items ++ constructor_labels declared.now) }
{
    push_names(labels, declared.place, declared.constructors.as_slice())
}

fn push_all_constructors<'a>(
    labels: &mut Vec<Label<'a>>,
    types: &'a [TypeDec],
) -> Result<(), Memory>
    ensures { OnOk result (map label_of labels.new.items ≡ map label_of labels.old.items ++ flat_map constructor_labels types.now) }
{
    for declared in types {
        push_constructors(labels, declared)?;
    }
    Ok(())
}

fn push_declared<'a>(labels: &mut Vec<Label<'a>>, decls: &[&'a Decl]) -> Result<(), Memory>
    ensures { OnOk result (map label_of labels.new.items ≡ map label_of labels.old.items ++ map decl_label (map (λ r. r.now) decls.now)) }
{
    for decl in decls {
        push_label(labels, decl.place, &decl.name)?;
    }
    Ok(())
}

/// Notes each second declaration of a type, of a constructor or of a node.
#[tactic(auto, using(hept_ast::proofs::Earliest::earliest_of))]
pub(crate) fn note_second_declarations(
    alloc: Global,
    found: &mut Found,
    program: &Program,
) -> Result<(), Memory>
    ensures { OnOk result (found.new ≡ earlier_of found.old (earliest (second_declarations program.now))) }
{
    let mut types = Vec::new(alloc);
    push_types(&mut types, program.types.as_slice())?;
    note_seconds(alloc, found, types.as_slice())?;
    let mut constructors = Vec::new(alloc);
    push_all_constructors(&mut constructors, program.types.as_slice())?;
    note_seconds(alloc, found, constructors.as_slice())?;
    let mut nodes = Vec::new(alloc);
    push_nodes(&mut nodes, program.nodes.as_slice())?;
    note_seconds(alloc, found, nodes.as_slice())
}

/// Notes each variable of a node, those of its blocks included, whose name an earlier one has.
pub(crate) fn note_second_variables(
    alloc: Global,
    found: &mut Found,
    node: &Node,
) -> Result<(), Memory>
    ensures { OnOk result (found.new ≡ earlier_of found.old (earliest (seconds same [] (map decl_label (variables node.now))))) }
{
    let decls = node_declarations(alloc, node)?;
    let mut labels = Vec::new(alloc);
    push_declared(&mut labels, &decls)?;
    note_seconds(alloc, found, labels.as_slice())
}
