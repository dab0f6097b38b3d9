//! Values of constants and tags, and what operators give.
ghost use Rattle.std.specs.Prelude.{◌≡◌, ◌==◌, IfSome, slice_get};
ghost use Rattle.std.specs.List.{find};
ghost use Rattle.hept_ast.specs.Texts.{const_value, constructor_value, same, tag_value};
ghost use Rattle.hept_ast.specs.Values.{binary_value, unary_value};
ghost use Rattle.erased_meaning.specs.Found.{IsPlaceIn};

use hept_ast::{BinaryOp, Const, MergeBranch, Name, Tag, TypeDec, UnaryOp, binary, unary};

fn is_same(left: &Name, right: &Name) -> bool
    ensures { result ≡ same left.now right.now }
{
    left.bytes() == right.bytes()
}

/// The position of a name in a list.
pub fn position_of(names: &[Name], name: &Name) -> Option<usize>
    ensures { IsPlaceIn name.now names.now result }
{
    for (position, other) in names.iter().enumerate() {
        if is_same(name, other) {
            return Some(position);
        }
    }
    None
}

/// The position of a constructor in its type.
fn constructor_value(types: &[TypeDec], name: &Name) -> usize
    ensures { result ≡ constructor_value types.now name.now }
{
    for declared in types {
        if let Some(position) = position_of(declared.constructors.as_slice(), name) {
            return position;
        }
    }
    0
}

/// The value of a constant, where a constructor's position has 32 bits.
pub fn const_value(types: &[TypeDec], constant: &Const) -> Option<u32>
    ensures { IfSome result (λ v. v ≡ const_value types.now constant.now) }
{
    match constant {
        Const::Number(number) => Some(number.cast_unsigned()),
        Const::Truth(truth) => Some(u32::from(*truth)),
        Const::Constructor(name) => u32::try_from(constructor_value(types, name)).ok(),
    }
}

pub fn tag_value(types: &[TypeDec], tag: &Tag) -> usize
    ensures { result ≡ tag_value types.now tag.now }
{
    match tag {
        Tag::Truth(truth) => usize::from(*truth),
        Tag::Constructor(name) => constructor_value(types, name),
    }
}

/// What an operator gives of a value, whatever the value is.
pub fn unary_of(op: UnaryOp, value: u32) -> u32
    ensures { result ≡ unary_value op value }
{
    match op {
        UnaryOp::Minus => unary(UnaryOp::Minus, value),
        UnaryOp::Not => 1u32.saturating_sub(value),
    }
}

/// What an operator gives of two values, whatever they are; none for a division by 0.
pub fn binary_of(op: BinaryOp, left: u32, right: u32) -> Option<u32>
    ensures { IfSome result (λ v. v ≡ binary_value op left right) }
{
    match op {
        BinaryOp::Or => Some(u32::from(left == 1 || right == 1)),
        BinaryOp::And => Some(u32::from(left == 1 && right == 1)),
        BinaryOp::Div => {
            if right == 0 {
                None
            } else {
                Some(binary(BinaryOp::Div, left, right))
            }
        }
        BinaryOp::Rem => {
            if right == 0 {
                None
            } else {
                Some(binary(BinaryOp::Rem, left, right))
            }
        }
        _ => Some(binary(op, left, right)),
    }
}

fn has_tag(types: &[TypeDec], tag: &Tag, value: u32) -> bool
    ensures { result ≡ (tag_value types.now tag.now == value) }
{
    tag_value(types, tag) == value as usize
}

/// The branch of a value, with its position.
pub fn merge_branch<'a>(
    types: &[TypeDec],
    branches: &'a [MergeBranch],
    value: u32,
) -> Option<(usize, &'a MergeBranch)>
    ensures { IfSome result (λ f. (slice_get branches.now f.0 ≡ Some f.1.now) × (find (λ b. tag_value types.now b.tag == value) branches.now ≡ Some f.1.now)) }
{
    for (position, branch) in branches.iter().enumerate() {
        if has_tag(types, &branch.tag, value) {
            return Some((position, branch));
        }
    }
    None
}
