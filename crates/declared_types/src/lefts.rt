//! The types of the names on a left side.
ghost use Rattle.std.specs.Prelude.{◌≡◌, is_some, map, true};
ghost use Rattle.std.specs.Option.{option_map, option_map_or};
ghost use Rattle.hept_ast.specs.Parts.{declaration};
ghost use Rattle.hept_ast.specs.Types.{future_of, types_of};
ghost use Rattle.declared_types.specs.Lefts.{are_seen, fit_names, has_type, have_types};
ghost use Rattle.declared_types.specs.Types.{type_in, types_in};

use crate::given::{Type, Types, declared_type, future_of, is_same_type};
use hept_ast::{Decl, Name};
use node_text::declaration;

fn has_type(seen: &[&Decl], name: &Name, held: Type<'_>) -> bool
    ensures { result ≡ has_type (map (λ r. r.now) seen.now) name.now (type_in held.entry) }
{
    match declaration(seen, name) {
        Some(decl) => is_same_type(declared_type(&decl.ty), held),
        None => false,
    }
}

fn have_one(seen: &[&Decl], names: &[Name], held: Type<'_>) -> bool
    ensures { result ≡ have_types (map (λ r. r.now) seen.now) names.now (types_in (Types.One held.entry)) }
{
    match names {
        [name] => has_type(seen, name, held),
        _ => false,
    }
}

fn have_declared(seen: &[&Decl], names: &[Name], decls: &[Decl]) -> bool
    ensures { result ≡ have_types (map (λ r. r.now) seen.now) names.now (types_of decls.now) }
{
    if names.len() != decls.len() {
        return false;
    }
    for (index, name) in names.iter().enumerate() {
        if !has_type(seen, name, declared_type(&decls[index].ty)) {
            return false;
        }
    }
    true
}

fn have_futures(seen: &[&Decl], names: &[Name], decls: &[Decl]) -> bool
    ensures { result ≡ have_types (map (λ r. r.now) seen.now) names.now (map future_of (types_of decls.now)) }
{
    if names.len() != decls.len() {
        return false;
    }
    for (index, name) in names.iter().enumerate() {
        if !has_type(seen, name, future_of(declared_type(&decls[index].ty))) {
            return false;
        }
    }
    true
}

fn have_types(seen: &[&Decl], names: &[Name], types: Types<'_>) -> bool
    ensures { result ≡ have_types (map (λ r. r.now) seen.now) names.now (types_in types.entry) }
{
    match types {
        Types::One(held) => have_one(seen, names, held),
        Types::Outputs(outputs) => have_declared(seen, names, outputs),
        Types::Futures(outputs) => have_futures(seen, names, outputs),
    }
}

fn is_seen(seen: &[&Decl], name: &Name) -> bool
    ensures { result ≡ is_some (declaration (map (λ r. r.now) seen.now) name.now) }
{
    declaration(seen, name).is_some()
}

fn are_seen(seen: &[&Decl], names: &[Name]) -> bool
    ensures { result ≡ are_seen (map (λ r. r.now) seen.now) names.now }
{
    names.iter().all(|name| is_seen(seen, name))
}

/// Whether the types are those of the names, or there are none. Nothing is said of names that are
/// not all seen.
pub fn fit_names(seen: &[&Decl], names: &[Name], types: Option<Types<'_>>) -> bool
    ensures { result ≡ option_map_or (fit_names (map (λ r. r.now) seen.now) names.now) (option_map types_in types.entry) true }
{
    match types {
        None => true,
        Some(types) => !are_seen(seen, names) || have_types(seen, names, types),
    }
}
