//! Literals and operators by their places among them.
ghost use Rattle.std.specs.Prelude.{◌≡◌};
ghost use Rattle.values_modules.specs.Same.{literal_number, unary_number, binary_number};

use syntax_tree::{BinaryOp, Literal, UnaryOp};

/// Returns the place of a literal among the literals.
pub fn literal_number(x: Literal) -> u8
    ensures { result ≡ literal_number x }
{
    match x {
        Literal::NoneValue => 0,
        Literal::TrueValue => 1,
        Literal::FalseValue => 2,
    }
}

/// Returns the place of an operator before one operand among these operators.
pub fn unary_number(x: UnaryOp) -> u8
    ensures { result ≡ unary_number x }
{
    match x {
        UnaryOp::Not => 0,
        UnaryOp::Plus => 1,
        UnaryOp::Minus => 2,
    }
}

/// Returns the place of an operator between two operands among these operators.
pub fn binary_number(x: BinaryOp) -> u8
    ensures { result ≡ binary_number x }
{
    match x {
        BinaryOp::Or => 0,
        BinaryOp::And => 1,
        BinaryOp::Equal => 2,
        BinaryOp::NotEqual => 3,
        BinaryOp::Less => 4,
        BinaryOp::LessEqual => 5,
        BinaryOp::Greater => 6,
        BinaryOp::GreaterEqual => 7,
        BinaryOp::In => 8,
        BinaryOp::NotIn => 9,
        BinaryOp::Add => 10,
        BinaryOp::Subtract => 11,
        BinaryOp::Multiply => 12,
        BinaryOp::Divide => 13,
        BinaryOp::Remainder => 14,
    }
}
