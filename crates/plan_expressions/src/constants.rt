//! Positions of names, and the values of constants and tags.
ghost use Rattle.std.specs.Prelude.{◌≡◌, ◌≢◌, IfOk};
ghost use Rattle.hept_ast.specs.Texts.{const_value, constructor_value, place_in, tag_value};
ghost use Rattle.plan_expressions.specs.Computable.{HasDivisor, IsDivisorOf};

use hept_ast::{Const, Expr, Form, Memory, Name, Tag, TypeDec};

/// The position of a name in a list, or the length of the list.
pub fn position(names: &[Name], name: &Name) -> usize
    ensures { result ≡ place_in name.now names.now }
{
    for (i, other) in names.iter().enumerate() {
        if name.bytes() == other.bytes() {
            return i;
        }
    }
    names.len()
}

/// The position of a constructor in the first type that declares it, and 0 where none does. A type within the
/// limits has few enough constructors for each position to be a value.
fn constructor(types: &[TypeDec], name: &Name) -> Result<u32, Memory>
    ensures { IfOk result (λ v. v ≡ constructor_value types.now name.now) }
{
    for ty in types {
        let constructors = ty.constructors.as_slice();
        let place = position(constructors, name);
        if place < constructors.len() {
            if place > u32::MAX as usize {
                return Err(Memory);
            }
            return Ok(place as u32);
        }
    }
    Ok(0)
}

/// The value of a constant.
pub fn constant(types: &[TypeDec], constant: &Const) -> Result<u32, Memory>
    ensures { IfOk result (λ v. v ≡ const_value types.now constant.now) }
{
    match constant {
        Const::Number(z) => Ok(z.cast_unsigned()),
        Const::Truth(b) => Ok(u32::from(*b)),
        Const::Constructor(name) => constructor(types, name),
    }
}

/// The value of a tag.
pub fn tag(types: &[TypeDec], tag: &Tag) -> Result<u32, Memory>
    ensures { IfOk result (λ v. v ≡ tag_value types.now tag.now) }
{
    match tag {
        Tag::Truth(b) => Ok(u32::from(*b)),
        Tag::Constructor(name) => constructor(types, name),
    }
}

/// The value of a constant divisor.
pub(crate) fn divisor(types: &[TypeDec], e: &Expr) -> Result<u32, Memory>
    requires { HasDivisor types.now e.now }
    ensures { IfOk result (λ v. IsDivisorOf types.now e.now v) }
{
    match &e.form {
        Form::Const(k) => constant(types, k),
        _ => unreachable!(),
    }
}
