//! The instructions of operators.
ghost use Rattle.std.specs.Prelude.{◌≡◌, ◌≢◌, ◌<◌, ℕ, true, false};
ghost use Rattle.step_plans.specs.Operations.{Binary_of, Divided_by, In_values, Unary_of, operation_of};
ghost use Rattle.step_engine.specs.Running.{IsDivision, IsNoDivision, IsWithin};

use hept_ast::{BinaryOp, UnaryOp};
use step_plans::Instruction;

pub(crate) fn unary(op: UnaryOp, a: u32) -> Instruction
    ensures operation { operation_of result ≡ Unary_of op (In_values a) }
    ensures within { (n m : ℕ) → a < n → IsWithin n m result }
{
    match op {
        UnaryOp::Minus => Instruction::Minus(a),
        UnaryOp::Not => Instruction::Not(a),
    }
}

pub(crate) fn is_division(op: BinaryOp) -> bool
    ensures divides { result ≡ true → IsDivision op }
    ensures undivided { result ≡ false → IsNoDivision op }
{
    match op {
        BinaryOp::Div | BinaryOp::Rem => true,
        _ => false,
    }
}

pub(crate) fn binary(op: BinaryOp, a: u32, b: u32) -> Instruction
    requires { IsNoDivision op }
    ensures operation { operation_of result ≡ Binary_of op (In_values a) (In_values b) }
    ensures within { (n m : ℕ) → a < n → b < n → IsWithin n m result }
{
    match op {
        BinaryOp::Add | BinaryOp::Div | BinaryOp::Rem => Instruction::Add(a, b),
        BinaryOp::Sub => Instruction::Subtract(a, b),
        BinaryOp::Mul => Instruction::Multiply(a, b),
        BinaryOp::Or => Instruction::Or(a, b),
        BinaryOp::And => Instruction::And(a, b),
        BinaryOp::Eq => Instruction::Equal(a, b),
        BinaryOp::Ne => Instruction::Different(a, b),
        BinaryOp::Lt => Instruction::Less(a, b),
        BinaryOp::Le => Instruction::AtMost(a, b),
        BinaryOp::Gt => Instruction::Greater(a, b),
        BinaryOp::Ge => Instruction::AtLeast(a, b),
    }
}

pub(crate) fn divided(op: BinaryOp, a: u32, k: u32) -> Instruction
    requires { IsDivision op }
    ensures operation { operation_of result ≡ Divided_by op (In_values a) k }
    ensures within { (n m : ℕ) → a < n → k ≢ 0 → IsWithin n m result }
{
    if op == BinaryOp::Rem {
        Instruction::Remainder(a, k)
    } else {
        Instruction::Quotient(a, k)
    }
}
