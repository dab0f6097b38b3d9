//! The types that expressions give.
ghost use Rattle.std.specs.Prelude.{◌≡◌};
ghost use Rattle.std.specs.Option.{option_copied, option_map};
ghost use Rattle.hept_ast.specs.Types.{future_of, has_tags, is_plain, same_plain, same_type, types_of};
ghost use Rattle.hept_ast.specs.declared.tree.Plain.TheVariants as plain_type;
ghost use Rattle.declared_types.specs.Typing.{plain_of};
ghost use Rattle.declared_types.specs.Types.{only, type_in, types_in};

use crate::typing::PlainType;
use hept_ast::{Decl, Name, Plain, Ty};
use node_text::is_same;

/// A type.
#[derive(Clone, Copy)]
pub enum Type<'a> {
    Plain(PlainType<'a>),
    Future(PlainType<'a>),
}

/// The types that an expression gives.
#[derive(Clone, Copy)]
pub enum Types<'a> {
    One(Type<'a>),
    /// Those of a node's outputs.
    Outputs(&'a [Decl]),
    /// Futures of a node's outputs.
    Futures(&'a [Decl]),
}

fn held_plain(plain: &Plain) -> PlainType<'_>
    ensures { plain_of result ≡ plain.now }
{
    match plain {
        Plain::Int => PlainType::Int,
        Plain::Bool => PlainType::Bool,
        Plain::Named(name) => PlainType::Named(name),
    }
}

/// The type of a declaration.
pub fn declared_type(ty: &Ty) -> Type<'_>
    ensures { type_in result ≡ ty.now }
{
    match ty {
        Ty::Plain(plain) => Type::Plain(held_plain(plain)),
        Ty::Future(plain) => Type::Future(held_plain(plain)),
    }
}

fn is_named(plain: PlainType<'_>, name: &Name) -> bool
    ensures { result ≡ same_plain (plain_of plain.entry) (plain_type.Named name.now) }
{
    match plain {
        PlainType::Int => false,
        PlainType::Bool => false,
        PlainType::Named(other) => is_same(other, name),
    }
}

fn is_same_held(plain: PlainType<'_>, other: PlainType<'_>) -> bool
    ensures { result ≡ same_plain (plain_of plain.entry) (plain_of other.entry) }
{
    match other {
        PlainType::Int => matches!(plain, PlainType::Int),
        PlainType::Bool => matches!(plain, PlainType::Bool),
        PlainType::Named(name) => is_named(plain, name),
    }
}

/// Whether two types are one.
pub fn is_same_type(held: Type<'_>, other: Type<'_>) -> bool
    ensures { result ≡ same_type (type_in held.entry) (type_in other.entry) }
{
    match (held, other) {
        (Type::Plain(held), Type::Plain(other)) => is_same_held(held, other),
        (Type::Future(held), Type::Future(other)) => is_same_held(held, other),
        _ => false,
    }
}

pub fn is_plain(held: Type<'_>) -> bool
    ensures { result ≡ is_plain (type_in held.entry) }
{
    match held {
        Type::Plain(_) => true,
        Type::Future(_) => false,
    }
}

/// Whether a switch or a merge may branch on values of this type.
pub fn has_tags(held: Type<'_>) -> bool
    ensures { result ≡ has_tags (type_in held.entry) }
{
    match held {
        Type::Plain(PlainType::Int) => false,
        Type::Plain(PlainType::Bool) => true,
        Type::Plain(PlainType::Named(_)) => true,
        Type::Future(_) => false,
    }
}

pub fn future_of(held: Type<'_>) -> Type<'_>
    ensures { type_in result ≡ future_of (type_in held.entry) }
{
    match held {
        Type::Plain(plain) => Type::Future(plain),
        Type::Future(plain) => Type::Future(plain),
    }
}

fn only_declared(decls: &[Decl]) -> Option<Type<'_>>
    ensures { option_map type_in result ≡ only (types_of decls.now) }
{
    match decls {
        [decl] => Some(declared_type(&decl.ty)),
        _ => None,
    }
}

impl<'a> Types<'a> {
    /// The one type, where there is just one.
    pub fn only(self) -> Option<Type<'a>>
        ensures { option_map type_in result ≡ only (types_in self.entry) }
    {
        match self {
            Types::One(held) => Some(held),
            Types::Outputs(outputs) => only_declared(outputs),
            Types::Futures(outputs) => match only_declared(outputs) {
                Some(held) => Some(future_of(held)),
                None => None,
            },
        }
    }
}
