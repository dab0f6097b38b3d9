//! `when` and `merge`: their variables, tags and branches.
ghost use Rattle.std.specs.Prelude.{◌≡◌, ◌++◌, ◌∷◌, [], map};
ghost use Rattle.std.specs.List.{list_any};
ghost use Rattle.std.specs.Option.{option_map};
ghost use Rattle.hept_ast.specs.Faults.{Duplicate, UnknownName, branch_fit, fault, lack_faults, read_faults, unknown_tag, when_fit};
ghost use Rattle.hept_ast.specs.Limits.{earlier_of, earliest};
ghost use Rattle.hept_ast.specs.Types.{same_tag};
ghost use Rattle.expression_types.specs.Fits.{fit_of, given, stands};
ghost use Rattle.expression_types.specs.Judgings.{is_lacking_if, merge_faults, merge_with, tag_faults, when_faults};
ghost use Rattle.expression_types.specs.Scene.{judging_of};
ghost use Rattle.declared_types.specs.Types.{type_in, types_in};

use crate::fits::{Fit, alike_one};
use crate::reads::{note_read, note_unknown_tag};
use crate::scenes::Scene;
use declared_types::{Type, Types, fits_tag, has_tags, lacks_tag, tag_type};
use earliest_fault::{Found, Kind};
use hept_ast::{MergeBranch, Name, Place, Tag};
use node_text::is_same_tag;

/// Notes what is wrong with the tag and the variable of a `when`, and says whether something is.
#[tactic(auto, using(hept_ast::proofs::Earliest::earliest_of))]
pub(crate) fn note_when(
    found: &mut Found,
    scene: &Scene<'_>,
    place: Place,
    tag: &Tag,
    name: &Name,
) -> bool
    ensures noted { found.new ≡ earlier_of found.old (earliest (when_faults (judging_of scene.now) place.0 tag.now name.now)) }
    ensures stands { result ≡ stands (when_faults (judging_of scene.now) place.0 tag.now name.now) }
{
    let wrong = note_read(found, scene, place, name);
    let unknown = note_unknown_tag(found, scene, place, tag);
    wrong || unknown
}

pub(crate) fn when_fit<'a>(
    scene: &Scene<'a>,
    tag: &Tag,
    on: Option<Type<'_>>,
    operand: Option<Types<'a>>,
) -> Option<Fit<'a>>
    ensures { option_map fit_of result ≡ option_map (when_fit (judging_of scene.now) tag.now (option_map type_in on.entry)) (given (option_map types_in operand.entry ∷ [])) }
{
    let alike = alike_one(operand)?;
    match on {
        Some(on) => {
            let fits = fits_tag(tag_type(scene.around.types, tag), on);
            if fits && has_tags(on) {
                Some(alike)
            } else {
                Some(Fit::Misfit)
            }
        }
        None => Some(Fit::Untyped),
    }
}

fn lacks(scene: &Scene<'_>, on: Option<Type<'_>>, branches: &[MergeBranch]) -> bool
    ensures { result ≡ is_lacking_if scene.now.around.types.now branches.now (option_map type_in on.entry) }
{
    match on {
        Some(on) => lacks_tag(scene.around.types, on, branches),
        None => false,
    }
}

/// Notes what is wrong with the variable of a `merge`, and a tag that it lacks, and says whether something is.
#[tactic(auto, using(hept_ast::proofs::Earliest::earliest_of))]
pub(crate) fn note_merge(
    found: &mut Found,
    scene: &Scene<'_>,
    place: Place,
    name: &Name,
    on: Option<Type<'_>>,
    branches: &[MergeBranch],
) -> bool
    ensures noted { found.new ≡ earlier_of found.old (earliest (merge_faults (judging_of scene.now) place.0 name.now (option_map type_in on.entry) branches.now)) }
    ensures stands { result ≡ stands (merge_faults (judging_of scene.now) place.0 name.now (option_map type_in on.entry) branches.now) }
{
    let wrong = note_read(found, scene, place, name);
    let lacking = lacks(scene, on, branches);
    found.note_if(place, Kind::NotDefined, lacking);
    wrong || lacking
}

/// Of a merge, by whether its branches are of one type.
pub(crate) fn merge_fit<'a>(on: Option<Type<'_>>, alike: Option<Fit<'a>>) -> Option<Fit<'a>>
    ensures { option_map fit_of result ≡ option_map (merge_with (option_map type_in on.entry)) (option_map fit_of alike.entry) }
{
    let alike = alike?;
    match on {
        Some(on) => {
            if has_tags(on) {
                Some(alike)
            } else {
                Some(Fit::Misfit)
            }
        }
        None => Some(Fit::Untyped),
    }
}

/// Notes a tag that nobody declared, or that an earlier branch has, and says whether it is one.
#[tactic(auto, using(hept_ast::proofs::Earliest::earliest_of))]
pub(crate) fn note_tag(
    found: &mut Found,
    scene: &Scene<'_>,
    branch: &MergeBranch,
    again: bool,
) -> bool
    ensures noted { found.new ≡ earlier_of found.old (earliest (tag_faults (judging_of scene.now) again branch.now)) }
    ensures stands { result ≡ stands (tag_faults (judging_of scene.now) again branch.now) }
{
    let unknown = note_unknown_tag(found, scene, branch.place, &branch.tag);
    found.note_if(branch.place, Kind::Duplicate, again);
    unknown || again
}

pub(crate) fn branch_fit<'a>(
    scene: &Scene<'a>,
    tag: &Tag,
    on: Option<Type<'_>>,
    value: Option<Types<'a>>,
) -> Option<Fit<'a>>
    ensures { option_map fit_of result ≡ option_map (branch_fit (judging_of scene.now) tag.now (option_map type_in on.entry)) (option_map types_in value.entry) }
{
    let value = value?;
    match on {
        Some(on) => {
            if fits_tag(tag_type(scene.around.types, tag), on) {
                Some(Fit::Fits(value))
            } else {
                Some(Fit::Misfit)
            }
        }
        None => Some(Fit::Fits(value)),
    }
}

/// Whether a branch has a tag.
pub(crate) fn has_tag(branches: &[MergeBranch], tag: &Tag) -> bool
    ensures { result ≡ list_any (λ b. same_tag tag.now b.tag) branches.now }
{
    branches.iter().any(|branch| is_same_tag(tag, &branch.tag))
}
