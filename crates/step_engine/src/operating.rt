ghost use Rattle.std.specs.Prelude.{◌≡◌, ◌≢◌, ◌==◌, if◌then◌else◌, length};
ghost use Rattle.hept_ast.specs.Values.{binary_value, unary_value};
ghost use Rattle.step_engine.specs.Running.{IsDivision, IsFutureWithin, IsNoDivision, IsWithin, given, moved};

use hept_ast::{BinaryOp, UnaryOp, binary};
use step_cells::Cell;
use step_plans::{FutureInstruction, Instruction};

fn unary(op: UnaryOp, value: u32) -> u32
    ensures { result ≡ unary_value op value }
{
    match op {
        UnaryOp::Minus => value.wrapping_neg(),
        UnaryOp::Not => 1u32.saturating_sub(value),
    }
}

fn undivided(op: BinaryOp, left: u32, right: u32) -> u32
    requires { IsNoDivision op }
    ensures { result ≡ binary_value op left right }
{
    match op {
        BinaryOp::Add => left.wrapping_add(right),
        BinaryOp::Sub => left.wrapping_sub(right),
        BinaryOp::Mul => left.wrapping_mul(right),
        BinaryOp::Div | BinaryOp::Rem => 0,
        BinaryOp::Or => u32::from(left == 1 || right == 1),
        BinaryOp::And => u32::from(left == 1 && right == 1),
        BinaryOp::Eq => u32::from(left == right),
        BinaryOp::Ne => u32::from(left != right),
        BinaryOp::Lt => u32::from(left.cast_signed() < right.cast_signed()),
        BinaryOp::Le => u32::from(left.cast_signed() <= right.cast_signed()),
        BinaryOp::Gt => u32::from(left.cast_signed() > right.cast_signed()),
        BinaryOp::Ge => u32::from(left.cast_signed() >= right.cast_signed()),
    }
}

fn divided(op: BinaryOp, left: u32, right: u32) -> u32
    requires operator { IsDivision op }
    requires divisor { right ≢ 0 }
    ensures { result ≡ binary_value op left right }
{
    binary(op, left, right)
}

/// The first where the condition is this number, or else the other.
fn choose(condition: u32, number: u32, first: u32, other: u32) -> u32
    ensures { result ≡ (if condition == number then first else other) }
{
    if condition == number { first } else { other }
}

/// The number that an instruction gives.
pub(crate) fn value_of(instruction: &Instruction, cells: &[u32], values: &[u32]) -> u32
    requires { IsWithin (length values.now) (length cells.now) instruction.now }
    ensures { result ≡ given cells.now values.now instruction.now }
{
    match instruction {
        Instruction::Constant(k) => *k,
        Instruction::Minus(a) => unary(UnaryOp::Minus, values[*a as usize]),
        Instruction::Not(a) => unary(UnaryOp::Not, values[*a as usize]),
        Instruction::Add(a, b) => undivided(
            BinaryOp::Add,
            values[*a as usize],
            values[*b as usize],
        ),
        Instruction::Subtract(a, b) => undivided(
            BinaryOp::Sub,
            values[*a as usize],
            values[*b as usize],
        ),
        Instruction::Multiply(a, b) => undivided(
            BinaryOp::Mul,
            values[*a as usize],
            values[*b as usize],
        ),
        Instruction::Or(a, b) => undivided(BinaryOp::Or, values[*a as usize], values[*b as usize]),
        Instruction::And(a, b) => undivided(
            BinaryOp::And,
            values[*a as usize],
            values[*b as usize],
        ),
        Instruction::Equal(a, b) => undivided(
            BinaryOp::Eq,
            values[*a as usize],
            values[*b as usize],
        ),
        Instruction::Different(a, b) => undivided(
            BinaryOp::Ne,
            values[*a as usize],
            values[*b as usize],
        ),
        Instruction::Less(a, b) => undivided(
            BinaryOp::Lt,
            values[*a as usize],
            values[*b as usize],
        ),
        Instruction::AtMost(a, b) => undivided(
            BinaryOp::Le,
            values[*a as usize],
            values[*b as usize],
        ),
        Instruction::Greater(a, b) => undivided(
            BinaryOp::Gt,
            values[*a as usize],
            values[*b as usize],
        ),
        Instruction::AtLeast(a, b) => undivided(
            BinaryOp::Ge,
            values[*a as usize],
            values[*b as usize],
        ),
        Instruction::Quotient(a, k) => divided(BinaryOp::Div, values[*a as usize], *k),
        Instruction::Remainder(a, k) => divided(BinaryOp::Rem, values[*a as usize], *k),
        Instruction::Select(c, k, a, b) => choose(
            values[*c as usize],
            *k,
            values[*a as usize],
            values[*b as usize],
        ),
        Instruction::Flag(h, x, k) => u32::from(
            values[*h as usize] == 1 && values[*x as usize] == *k,
        ),
        Instruction::Again(g, h, x) => u32::from(
            values[*g as usize] == 1 || (values[*h as usize] == 1 && values[*x as usize] == 1),
        ),
        Instruction::Read(m) => cells[*m as usize],
        Instruction::ReadUnless(g, m, k) => choose(values[*g as usize], 1, *k, cells[*m as usize]),
    }
}

/// The cell that an instruction on futures gives.
pub(crate) fn cell_of(instruction: &FutureInstruction, values: &[u32], futures: &[Cell]) -> Cell
    requires { IsFutureWithin (length values.now) (length futures.now) instruction.now }
    ensures { result ≡ moved values.now futures.now instruction.now }
{
    match instruction {
        FutureInstruction::Ready(value) => Cell::Ready(*value),
        FutureInstruction::Select(c, k, a, b) => {
            if values[*c as usize] == *k {
                futures[*a as usize]
            } else {
                futures[*b as usize]
            }
        }
        FutureInstruction::Read(m) => futures[*m as usize],
        FutureInstruction::ReadUnless(g, m, value) => {
            if values[*g as usize] == 1 {
                Cell::Ready(*value)
            } else {
                futures[*m as usize]
            }
        }
    }
}
