//! Names that stand twice.
ghost use Rattle.std.specs.Prelude.{◌≡◌, ◌++◌, ◌∷◌, [], OnOk, map};
ghost use Rattle.hept_ast.specs.Faults.{seconds};
ghost use Rattle.hept_ast.specs.Limits.{earlier_of, earliest};
ghost use Rattle.hept_ast.specs.Texts.{same};
ghost use Rattle.earliest_fault.specs.Labels.{label_of, names_at};

use crate::faults::{Found, Kind};
use crate::name_set::{insert_name, no_names};
use hept_ast::{Memory, Name, Place};
use std::alloc::Global;

/// A name with the place that a second one is noted at.
#[derive(Clone, Copy)]
pub struct Label<'a> {
    pub place: Place,
    pub name: &'a Name,
}

pub fn push_label<'a>(
    labels: &mut Vec<Label<'a>>,
    place: Place,
    name: &'a Name,
) -> Result<(), Memory>
    ensures { OnOk result (map label_of labels.new.items ≡ map label_of labels.old.items ++ (place.0, name.now) ∷ []) }
{
    match labels.push(Label { place, name }) {
        Ok(()) => Ok(()),
        Err(_) => Err(Memory),
    }
}

/// Appends names that have one place.
pub fn push_names<'a>(
    labels: &mut Vec<Label<'a>>,
    place: Place,
    names: &'a [Name],
) -> Result<(), Memory>
    ensures { OnOk result (map label_of labels.new.items ≡ map label_of labels.old.items ++ names_at place.0 names.now) }
{
    for name in names {
        push_label(labels, place, name)?;
    }
    Ok(())
}

/// Notes each label that an earlier one equals.
#[tactic(auto, using(hept_ast::proofs::Earliest::earliest_of))]
pub fn note_seconds(alloc: Global, found: &mut Found, labels: &[Label<'_>]) -> Result<(), Memory>
    ensures { OnOk result (found.new ≡ earlier_of found.old (earliest (seconds same [] (map label_of labels.now)))) }
{
    let mut names = no_names(alloc);
    for label in labels {
        let added = insert_name(&mut names, label.name)?;
        found.note_if(label.place, Kind::Duplicate, !added);
    }
    Ok(())
}

/// Notes each of some names that stand at one place, as those of a left side, that an earlier one equals.
pub fn note_second_names(
    alloc: Global,
    found: &mut Found,
    place: Place,
    names: &[Name],
) -> Result<(), Memory>
    ensures { OnOk result (found.new ≡ earlier_of found.old (earliest (seconds same [] (names_at place.0 names.now)))) }
{
    let mut labels = Vec::new(alloc);
    push_names(&mut labels, place, names)?;
    note_seconds(alloc, found, labels.as_slice())
}
