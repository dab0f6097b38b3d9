ghost use Rattle.std.specs.Prelude.{◌≡◌};
ghost use Rattle.hept_ast.specs.Values.{BinaryTakes, UnaryTakes, binary_value, unary_value};

use crate::tree::{BinaryOp, UnaryOp};

/// What an operator gives of a value. A number is its two's complement bits, and a negation wraps; false is
/// 0 and true is 1.
pub fn unary(op: UnaryOp, value: u32) -> u32
    requires { UnaryTakes op value }
    ensures { result ≡ unary_value op value }
{
    match op {
        UnaryOp::Minus => value.wrapping_neg(),
        UnaryOp::Not => 1 - value,
    }
}

/// What an operator gives of two values. Sums, differences and products wrap; a division truncates
/// towards zero, and its remainder has the dividend's sign.
pub fn binary(op: BinaryOp, left: u32, right: u32) -> u32
    requires { BinaryTakes op left right }
    ensures { result ≡ binary_value op left right }
{
    match op {
        BinaryOp::Add => left.wrapping_add(right),
        BinaryOp::Sub => left.wrapping_sub(right),
        BinaryOp::Mul => left.wrapping_mul(right),
        BinaryOp::Div => divided(left, right),
        BinaryOp::Rem => remainder(left, right),
        BinaryOp::Or => u32::from(left == 1 || right == 1),
        BinaryOp::And => u32::from(left == 1 && right == 1),
        BinaryOp::Eq => u32::from(left == right),
        BinaryOp::Ne => u32::from(left != right),
        BinaryOp::Lt => u32::from(left.cast_signed() < right.cast_signed()),
        BinaryOp::Le => u32::from(left.cast_signed() <= right.cast_signed()),
        BinaryOp::Gt => u32::from(left.cast_signed() > right.cast_signed()),
        BinaryOp::Ge => u32::from(left.cast_signed() >= right.cast_signed()),
    }
}

fn divided(left: u32, right: u32) -> u32
    requires { BinaryTakes BinaryOp.Div left right }
    ensures { result ≡ binary_value BinaryOp.Div left right }
{
    left.cast_signed()
        .wrapping_div(right.cast_signed())
        .cast_unsigned()
}

fn remainder(left: u32, right: u32) -> u32
    requires { BinaryTakes BinaryOp.Rem left right }
    ensures { result ≡ binary_value BinaryOp.Rem left right }
{
    left.cast_signed()
        .wrapping_rem(right.cast_signed())
        .cast_unsigned()
}
