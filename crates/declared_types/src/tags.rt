//! Tags of branches.
ghost use Rattle.std.specs.Prelude.{◌≡◌, Some, not};
ghost use Rattle.std.specs.List.{list_any};
ghost use Rattle.std.specs.Option.{option_map};
ghost use Rattle.hept_ast.specs.Limits.{earlier_of, earliest};
ghost use Rattle.hept_ast.specs.Types.{constructors_of, same_tag};
ghost use Rattle.hept_ast.specs.declared.tree.Tag.{Tag as TagText};
ghost use Rattle.hept_ast.specs.declared.tree.Tag.TheVariants as tag_;
ghost use Rattle.hept_ast.specs.declared.tree.Ty.TheVariants as ty_;
ghost use Rattle.declared_types.specs.Tags.{branch_tag_faults, fits_tag, is_lacking, is_left_out, lack_fault, tag_faults_by};
ghost use Rattle.declared_types.specs.Types.{type_in};
ghost use Rattle.declared_types.specs.Typing.{plain_of};

use crate::given::{Type, has_tags, is_same_type};
use crate::typing::{PlainType, tag_type};
use earliest_fault::{Found, Kind};
use hept_ast::{Branch, MergeBranch, Name, Place, Tag, TypeDec};
use node_text::{is_constructor, is_same, is_truth};

/// A branch, of a switch or of a merge.
pub trait Tagged {
    ghost tag_of: { Self → TagText };

    fn tag(&self) -> &Tag
        ensures { result.now ≡ tag_of self.now };
}

impl Tagged for Branch {
    ghost tag_of = { λ b. b.tag };

    fn tag(&self) -> &Tag {
        &self.tag
    }
}

impl Tagged for MergeBranch {
    ghost tag_of = { λ b. b.tag };

    fn tag(&self) -> &Tag {
        &self.tag
    }
}

/// Whether a tag, by the type that it is of, is one of a type. It is asked only of a type with tags,
/// and of a known tag.
pub fn fits_tag(held: Option<PlainType<'_>>, on: Type<'_>) -> bool
    ensures { result ≡ fits_tag (option_map plain_of held.entry) (type_in on.entry) }
{
    match held {
        None => true,
        Some(held) => !has_tags(on) || is_same_type(Type::Plain(held), on),
    }
}

#[tactic(auto, using(hept_ast::proofs::Earliest::earliest_of))]
fn note_tag(found: &mut Found, types: &[TypeDec], place: Place, tag: &Tag, on: Option<Type<'_>>)
    ensures { found.new ≡ earlier_of found.old (earliest (tag_faults_by types.now place.0 tag.now (option_map type_in on.entry))) }
{
    let held = tag_type(types, tag);
    found.note_if(place, Kind::UnknownName, held.is_none());
    if let Some(on) = on {
        let fits = fits_tag(held, on);
        found.note_if(place, Kind::Mismatch, !fits);
    }
}

/// Notes each branch whose tag nobody declared, or is of another type than the scrutinee.
#[tactic(auto, using(hept_ast::proofs::Earliest::earliest_of))]
pub fn note_tags(found: &mut Found, types: &[TypeDec], on: Option<Type<'_>>, branches: &[Branch])
    ensures { found.new ≡ earlier_of found.old (earliest (branch_tag_faults types.now (option_map type_in on.entry) branches.now)) }
{
    for branch in branches {
        note_tag(found, types, branch.place, &branch.tag, on);
    }
}

fn has_truth<B: Tagged>(branches: &[B], value: bool) -> bool
    ensures { result ≡ list_any (λ b. same_tag (tag_.Truth value) (B.tag_of b)) branches.now }
{
    branches.iter().any(|branch| is_truth(branch.tag(), value))
}

fn has_constructor<B: Tagged>(branches: &[B], name: &Name) -> bool
    ensures { result ≡ list_any (λ b. same_tag (tag_.Constructor name.now) (B.tag_of b)) branches.now }
{
    branches
        .iter()
        .any(|branch| is_constructor(branch.tag(), name))
}

fn lacks_constructor<B: Tagged>(branches: &[B], name: &Name) -> bool
    ensures { result ≡ is_left_out B.tag_of branches.now (tag_.Constructor name.now) }
{
    let has = has_constructor(branches, name);
    !has
}

fn lacks_truth<B: Tagged>(branches: &[B], value: bool) -> bool
    ensures { result ≡ is_left_out B.tag_of branches.now (tag_.Truth value) }
{
    let has = has_truth(branches, value);
    !has
}

/// The constructors of a type.
fn constructors_of<'a>(types: &'a [TypeDec], name: &Name) -> &'a [Name]
    ensures { result.now ≡ constructors_of types.now name.now }
{
    for declared in types {
        if is_same(name, &declared.name) {
            return declared.constructors.as_slice();
        }
    }
    &[]
}

fn lacks_one_of<B: Tagged>(branches: &[B], constructors: &[Name]) -> bool
    ensures { result ≡ list_any (λ c. is_left_out B.tag_of branches.now (tag_.Constructor c)) constructors.now }
{
    constructors
        .iter()
        .any(|name| lacks_constructor(branches, name))
}

fn lacks_of_plain<B: Tagged>(types: &[TypeDec], plain: PlainType<'_>, branches: &[B]) -> bool
    ensures { result ≡ is_lacking types.now B.tag_of branches.now (ty_.Plain (plain_of plain.entry)) }
{
    match plain {
        PlainType::Int => false,
        PlainType::Bool => lacks_truth(branches, true) || lacks_truth(branches, false),
        PlainType::Named(name) => lacks_one_of(branches, constructors_of(types, name)),
    }
}

/// Whether a tag of the type is that of no branch.
pub fn lacks_tag<B: Tagged>(types: &[TypeDec], on: Type<'_>, branches: &[B]) -> bool
    ensures { result ≡ is_lacking types.now B.tag_of branches.now (type_in on.entry) }
{
    match on {
        Type::Plain(plain) => lacks_of_plain(types, plain, branches),
        Type::Future(_) => false,
    }
}

/// Notes a switch that lacks a tag of its scrutinee's type.
#[tactic(auto, using(hept_ast::proofs::Earliest::earliest_of))]
pub fn note_lacking(
    found: &mut Found,
    types: &[TypeDec],
    place: Place,
    on: Option<Type<'_>>,
    branches: &[Branch],
)
    ensures { found.new ≡ earlier_of found.old (earliest (lack_fault types.now place.0 branches.now (option_map type_in on.entry))) }
{
    if let Some(on) = on {
        let lacking = lacks_tag(types, on, branches);
        found.note_if(place, Kind::NotDefined, lacking);
    }
}
