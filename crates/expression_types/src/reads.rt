//! What constants and variables give, and readings that keep a future.
ghost use Rattle.std.specs.Prelude.{◌≡◌, ◌++◌, false, not};
ghost use Rattle.std.specs.Option.{option_map, option_map_or};
ghost use Rattle.hept_ast.specs.Faults.{UnknownName, const_judged, fault, is_kept, last_judged, read_faults, type_of_variable, unknown_tag, var_judged};
ghost use Rattle.hept_ast.specs.Limits.{earlier_of, earliest};
ghost use Rattle.hept_ast.specs.Parts.{declaration};
ghost use Rattle.hept_ast.specs.Types.{type_of_const};
ghost use Rattle.hept_ast.specs.declared.tree.Ty.TheVariants as ty_;
ghost use Rattle.expression_types.specs.Fits.{stands};
ghost use Rattle.expression_types.specs.Scene.{judging_of};
ghost use Rattle.declared_types.specs.Types.{type_in, types_in};

use crate::scenes::Scene;
use declared_types::{Type, Types, const_type, declared_type, is_plain, tag_type};
use earliest_fault::{Found, Kind};
use hept_ast::{Const, Name, Place, Tag};
use node_text::{declaration, is_declared_in};

/// The type of a variable, where it is seen.
pub(crate) fn variable_type<'a>(scene: &Scene<'a>, name: &Name) -> Option<Type<'a>>
    ensures { option_map type_in result ≡ type_of_variable (judging_of scene.now) name.now }
{
    match declaration(scene.seen, name) {
        Some(decl) => Some(declared_type(&decl.ty)),
        None => None,
    }
}

/// Whether a reading that is no operand of `!` keeps a future: that of an input of future type, in a node that an
/// async call names.
fn is_kept(scene: &Scene<'_>, name: &Name, held: Type<'_>) -> bool
    ensures { result ≡ is_kept (judging_of scene.now) name.now (type_in held.entry) }
{
    let plain = is_plain(held);
    let input = is_declared_in(name, scene.around.node.inputs.as_slice());
    !plain && input && scene.around.is_async
}

#[tactic(auto, using(hept_ast::proofs::Earliest::earliest_of))]
pub(crate) fn judge_const<'a>(
    found: &mut Found,
    scene: &Scene<'a>,
    place: Place,
    value: &Const,
) -> Option<Types<'a>>
    ensures noted { found.new ≡ earlier_of found.old (earliest (const_judged (judging_of scene.now) place.0 (type_of_const scene.now.around.types.now value.now) ty_.Plain).faults) }
    ensures types { option_map types_in result ≡ (const_judged (judging_of scene.now) place.0 (type_of_const scene.now.around.types.now value.now) ty_.Plain).types }
{
    match const_type(scene.around.types, value) {
        Some(held) => Some(Types::One(Type::Plain(held))),
        None => {
            found.note(place, Kind::UnknownName);
            None
        }
    }
}

/// A constant that is written with `async`.
#[tactic(auto, using(hept_ast::proofs::Earliest::earliest_of))]
pub(crate) fn judge_ready<'a>(
    found: &mut Found,
    scene: &Scene<'a>,
    place: Place,
    value: &Const,
) -> Option<Types<'a>>
    ensures noted { found.new ≡ earlier_of found.old (earliest (const_judged (judging_of scene.now) place.0 (type_of_const scene.now.around.types.now value.now) ty_.Future).faults) }
    ensures types { option_map types_in result ≡ (const_judged (judging_of scene.now) place.0 (type_of_const scene.now.around.types.now value.now) ty_.Future).types }
{
    match const_type(scene.around.types, value) {
        Some(held) => Some(Types::One(Type::Future(held))),
        None => {
            found.note(place, Kind::UnknownName);
            None
        }
    }
}

#[tactic(auto, using(hept_ast::proofs::Earliest::earliest_of))]
pub(crate) fn judge_var<'a>(
    found: &mut Found,
    scene: &Scene<'a>,
    under_get: bool,
    place: Place,
    name: &Name,
) -> Option<Types<'a>>
    ensures noted { found.new ≡ earlier_of found.old (earliest (var_judged (judging_of scene.now) place.0 under_get name.now (type_of_variable (judging_of scene.now) name.now)).faults) }
    ensures types { option_map types_in result ≡ (var_judged (judging_of scene.now) place.0 under_get name.now (type_of_variable (judging_of scene.now) name.now)).types }
{
    match variable_type(scene, name) {
        Some(held) => {
            let kept = is_kept(scene, name, held);
            let wrong = !under_get && kept;
            found.note_if(place, Kind::FutureKept, wrong);
            if wrong { None } else { Some(Types::One(held)) }
        }
        None => {
            found.note(place, Kind::UnknownName);
            None
        }
    }
}

#[tactic(auto, using(hept_ast::proofs::Earliest::earliest_of))]
pub(crate) fn judge_last<'a>(
    found: &mut Found,
    scene: &Scene<'a>,
    place: Place,
    name: &Name,
) -> Option<Types<'a>>
    ensures noted { found.new ≡ earlier_of found.old (earliest (last_judged (judging_of scene.now) place.0 (declaration (judging_of scene.now).seen name.now)).faults) }
    ensures types { option_map types_in result ≡ (last_judged (judging_of scene.now) place.0 (declaration (judging_of scene.now).seen name.now)).types }
{
    match declaration(scene.seen, name) {
        Some(decl) => {
            let without = decl.init.is_none();
            found.note_if(place, Kind::UnknownName, without);
            if without {
                None
            } else {
                Some(Types::One(declared_type(&decl.ty)))
            }
        }
        None => {
            found.note(place, Kind::UnknownName);
            None
        }
    }
}

fn is_future_kept(scene: &Scene<'_>, name: &Name) -> bool
    ensures { result ≡ option_map_or (is_kept (judging_of scene.now) name.now) (type_of_variable (judging_of scene.now) name.now) false }
{
    match variable_type(scene, name) {
        Some(held) => is_kept(scene, name, held),
        None => false,
    }
}

/// Notes what is wrong with the variable of a `when` or a `merge`, and says whether something is.
#[tactic(auto, using(hept_ast::proofs::Earliest::earliest_of))]
pub(crate) fn note_read(found: &mut Found, scene: &Scene<'_>, place: Place, name: &Name) -> bool
    ensures noted { found.new ≡ earlier_of found.old (earliest (read_faults (judging_of scene.now) place.0 name.now)) }
    ensures stands { result ≡ stands (read_faults (judging_of scene.now) place.0 name.now) }
{
    let unknown = declaration(scene.seen, name).is_none();
    found.note_if(place, Kind::UnknownName, unknown);
    let kept = is_future_kept(scene, name);
    found.note_if(place, Kind::FutureKept, kept);
    unknown || kept
}

/// Notes a tag that no type has, and says whether it is one.
#[tactic(auto, using(hept_ast::proofs::Earliest::earliest_of))]
pub(crate) fn note_unknown_tag(
    found: &mut Found,
    scene: &Scene<'_>,
    place: Place,
    tag: &Tag,
) -> bool
    ensures noted { found.new ≡ earlier_of found.old (earliest (fault place.0 UnknownName (unknown_tag (judging_of scene.now) tag.now))) }
    ensures stands { result ≡ unknown_tag (judging_of scene.now) tag.now }
{
    let unknown = tag_type(scene.around.types, tag).is_none();
    found.note_if(place, Kind::UnknownName, unknown);
    unknown
}
