//! Types, and what is declared with them.
ghost use Rattle.std.specs.Prelude.{◌≡◌, Some, not};
ghost use Rattle.std.specs.List.{flat_map, list_any};
ghost use Rattle.std.specs.Option.{option_map};
ghost use Rattle.hept_ast.specs.Faults.{Mismatch, fault};
ghost use Rattle.hept_ast.specs.Limits.{earlier_of, earliest};
ghost use Rattle.hept_ast.specs.Texts.{same};
ghost use Rattle.hept_ast.specs.Types.{same_plain, same_type, type_is_known, type_of_const, type_of_constructor, type_of_tag};
ghost use Rattle.hept_ast.specs.declared.tree.Plain.TheVariants as plain_type;
ghost use Rattle.hept_ast.specs.declared.tree.Ty.TheVariants as ty_;
ghost use Rattle.declared_types.specs.Typing.{decl_faults_by, init_faults_by, init_fits, plain_of, type_with};

use earliest_fault::{Found, Kind};
use hept_ast::{Const, Decl, Init, Name, Plain, Tag, Ty, TypeDec};
use node_text::{is_among, is_same};

/// A type that is no future.
#[derive(Clone, Copy)]
pub enum PlainType<'a> {
    Int,
    Bool,
    Named(&'a Name),
}

fn is_plain_named(plain: &Plain, name: &Name) -> bool
    ensures { result ≡ same_plain (plain_type.Named name.now) plain.now }
{
    match plain {
        Plain::Int => false,
        Plain::Bool => false,
        Plain::Named(other) => is_same(name, other),
    }
}

/// Whether a type is that of a declaration.
fn is_same_plain(held: PlainType<'_>, plain: &Plain) -> bool
    ensures { result ≡ same_plain (plain_of held.entry) plain.now }
{
    match held {
        PlainType::Int => matches!(plain, Plain::Int),
        PlainType::Bool => matches!(plain, Plain::Bool),
        PlainType::Named(name) => is_plain_named(plain, name),
    }
}

/// The type that declares a constructor.
fn constructor_type<'a>(types: &'a [TypeDec], constructor: &Name) -> Option<PlainType<'a>>
    ensures { option_map plain_of result ≡ type_of_constructor types.now constructor.now }
{
    for declared in types {
        if is_among(constructor, declared.constructors.as_slice()) {
            return Some(PlainType::Named(&declared.name));
        }
    }
    None
}

pub fn const_type<'a>(types: &'a [TypeDec], value: &Const) -> Option<PlainType<'a>>
    ensures { option_map plain_of result ≡ type_of_const types.now value.now }
{
    match value {
        Const::Number(_) => Some(PlainType::Int),
        Const::Truth(_) => Some(PlainType::Bool),
        Const::Constructor(name) => constructor_type(types, name),
    }
}

pub fn tag_type<'a>(types: &'a [TypeDec], tag: &Tag) -> Option<PlainType<'a>>
    ensures { option_map plain_of result ≡ type_of_tag types.now tag.now }
{
    match tag {
        Tag::Truth(_) => Some(PlainType::Bool),
        Tag::Constructor(name) => constructor_type(types, name),
    }
}

fn is_declared(types: &[TypeDec], name: &Name) -> bool
    ensures { result ≡ list_any (λ d. same name.now d.name) types.now }
{
    types.iter().any(|declared| is_same(name, &declared.name))
}

fn is_plain_known(types: &[TypeDec], plain: &Plain) -> bool
    ensures { result ≡ type_is_known types.now (ty_.Plain plain.now) }
{
    match plain {
        Plain::Int => true,
        Plain::Bool => true,
        Plain::Named(name) => is_declared(types, name),
    }
}

fn is_future_known(types: &[TypeDec], plain: &Plain) -> bool
    ensures { result ≡ type_is_known types.now (ty_.Future plain.now) }
{
    match plain {
        Plain::Int => true,
        Plain::Bool => true,
        Plain::Named(name) => is_declared(types, name),
    }
}

fn is_known(types: &[TypeDec], ty: &Ty) -> bool
    ensures { result ≡ type_is_known types.now ty.now }
{
    match ty {
        Ty::Plain(plain) => is_plain_known(types, plain),
        Ty::Future(plain) => is_future_known(types, plain),
    }
}

/// Whether a constant of this type fits a declaration: one written with `async` a future.
fn fits_type(ty: &Ty, ready: bool, held: PlainType<'_>) -> bool
    ensures { result ≡ same_type (type_with ready (plain_of held.entry)) ty.now }
{
    match ty {
        Ty::Plain(plain) => !ready && is_same_plain(held, plain),
        Ty::Future(plain) => ready && is_same_plain(held, plain),
    }
}

#[tactic(auto, using(hept_ast::proofs::Earliest::earliest_of))]
fn note_unfit(found: &mut Found, decl: &Decl, ready: bool, held: Option<PlainType<'_>>)
    ensures { found.new ≡ earlier_of found.old (earliest (fault decl.now.place.0 Mismatch (not (init_fits decl.now.ty ready (option_map plain_of held.entry))))) }
{
    if let Some(held) = held {
        let fits = fits_type(&decl.ty, ready, held);
        found.note_if(decl.place, Kind::Mismatch, !fits);
    }
}

#[tactic(auto, using(hept_ast::proofs::Earliest::earliest_of))]
fn note_init(found: &mut Found, types: &[TypeDec], decl: &Decl, init: &Init)
    ensures { found.new ≡ earlier_of found.old (earliest (init_faults_by types.now decl.now (Some init.now))) }
{
    let held = const_type(types, &init.value);
    found.note_if(decl.place, Kind::UnknownName, held.is_none());
    note_unfit(found, decl, init.ready, held);
}

/// Notes a declaration of a type that nobody declared, and an initial constant that doesn't fit.
#[tactic(auto, using(hept_ast::proofs::Earliest::earliest_of))]
fn note_decl(found: &mut Found, types: &[TypeDec], decl: &Decl)
    ensures { found.new ≡ earlier_of found.old (earliest (decl_faults_by types.now decl.now)) }
{
    let known = is_known(types, &decl.ty);
    found.note_if(decl.place, Kind::UnknownName, !known);
    if let Some(init) = &decl.init {
        note_init(found, types, decl, init);
    }
}

#[tactic(auto, using(hept_ast::proofs::Earliest::earliest_of))]
pub fn note_decls(found: &mut Found, types: &[TypeDec], decls: &[Decl])
    ensures { found.new ≡ earlier_of found.old (earliest (flat_map (decl_faults_by types.now) decls.now)) }
{
    for decl in decls {
        note_decl(found, types, decl);
    }
}
