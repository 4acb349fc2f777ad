//! The types of the operands and results of operators.
ghost use Rattle.std.specs.Prelude.{◌≡◌};
ghost use Rattle.formula_trees.specs.Operators.{numeric_type, sum_type, difference_type, product_type, quotient_type, common_type, comparison_type, logic_type, binary_value, unary_value, binary_type, unary_type, branch_type, ternary_type, valued};

use crate::token::BinaryOperator;
use crate::tree::UnaryOperator;
use crate::value_types::{ExprType, ValueType};

/// Arithmetic of two doubles is a double; a vector goes with a double or a vector.
fn numeric_type(a: ValueType, b: ValueType) -> Option<ValueType>
    ensures { result ≡ numeric_type a b }
{
    match (a, b) {
        (ValueType::Double, ValueType::Double) => Some(ValueType::Double),
        (ValueType::Double, ValueType::DoubleVec)
        | (ValueType::DoubleVec, ValueType::Double)
        | (ValueType::DoubleVec, ValueType::DoubleVec) => Some(ValueType::DoubleVec),
        _ => None,
    }
}

/// a + b
fn sum_type(a: ValueType, b: ValueType) -> Option<ValueType>
    ensures { result ≡ sum_type a b }
{
    match (a, b) {
        (ValueType::TimeInterval, ValueType::TimeInterval) => Some(ValueType::TimeInterval),
        (ValueType::Timestamp, ValueType::TimeInterval)
        | (ValueType::TimeInterval, ValueType::Timestamp) => Some(ValueType::Timestamp),
        _ => numeric_type(a, b),
    }
}

/// a - b
fn difference_type(a: ValueType, b: ValueType) -> Option<ValueType>
    ensures { result ≡ difference_type a b }
{
    match (a, b) {
        (ValueType::Timestamp, ValueType::TimeInterval) => Some(ValueType::Timestamp),
        (ValueType::TimeInterval, ValueType::TimeInterval)
        | (ValueType::Timestamp, ValueType::Timestamp) => Some(ValueType::TimeInterval),
        _ => numeric_type(a, b),
    }
}

/// a * b
fn product_type(a: ValueType, b: ValueType) -> Option<ValueType>
    ensures { result ≡ product_type a b }
{
    match (a, b) {
        (ValueType::Double, ValueType::TimeInterval)
        | (ValueType::TimeInterval, ValueType::Double) => Some(ValueType::TimeInterval),
        _ => numeric_type(a, b),
    }
}

/// a / b
fn quotient_type(a: ValueType, b: ValueType) -> Option<ValueType>
    ensures { result ≡ quotient_type a b }
{
    match (a, b) {
        (ValueType::TimeInterval, ValueType::Double) => Some(ValueType::TimeInterval),
        _ => numeric_type(a, b),
    }
}

/// The type that both have, if it is one type.
pub fn common_type(a: ValueType, b: ValueType) -> Option<ValueType>
    ensures { result ≡ common_type a b }
{
    match (a, b) {
        (ValueType::Double, ValueType::Double)
        | (ValueType::DoubleVec, ValueType::DoubleVec)
        | (ValueType::Text, ValueType::Text)
        | (ValueType::Timestamp, ValueType::Timestamp)
        | (ValueType::TimeInterval, ValueType::TimeInterval) => Some(a),
        _ => None,
    }
}

/// Like types but vectors can be compared.
fn comparison_type(a: ValueType, b: ValueType) -> Option<ValueType>
    ensures { result ≡ comparison_type a b }
{
    match (a, b) {
        (ValueType::Double, ValueType::Double)
        | (ValueType::Text, ValueType::Text)
        | (ValueType::Timestamp, ValueType::Timestamp)
        | (ValueType::TimeInterval, ValueType::TimeInterval) => Some(ValueType::Double),
        _ => None,
    }
}

/// `&&` and `||` take doubles.
fn logic_type(a: ValueType, b: ValueType) -> Option<ValueType>
    ensures { result ≡ logic_type a b }
{
    match (a, b) {
        (ValueType::Double, ValueType::Double) => Some(ValueType::Double),
        _ => None,
    }
}

/// The type of a binary operator with values of these types. None if they do not go together.
fn binary_value(operator: BinaryOperator, a: ValueType, b: ValueType) -> Option<ValueType>
    ensures { result ≡ binary_value operator a b }
{
    match operator {
        BinaryOperator::Or | BinaryOperator::And => logic_type(a, b),
        BinaryOperator::Equal
        | BinaryOperator::NotEqual
        | BinaryOperator::Less
        | BinaryOperator::AtMost
        | BinaryOperator::Greater
        | BinaryOperator::AtLeast => comparison_type(a, b),
        BinaryOperator::Add => sum_type(a, b),
        BinaryOperator::Subtract => difference_type(a, b),
        BinaryOperator::Multiply => product_type(a, b),
        BinaryOperator::Divide => quotient_type(a, b),
    }
}

/// The type of a unary operator with a value of this type. None if it does not take one.
fn unary_value(operator: UnaryOperator, a: ValueType) -> Option<ValueType>
    ensures { result ≡ unary_value operator a }
{
    match (operator, a) {
        (UnaryOperator::Negate, ValueType::Double)
        | (UnaryOperator::Negate, ValueType::DoubleVec)
        | (UnaryOperator::Negate, ValueType::TimeInterval)
        | (UnaryOperator::Invert, ValueType::Double) => Some(a),
        _ => None,
    }
}

/// The type of a binary operator with two operands. None if they do not go together.
pub fn binary_type(operator: BinaryOperator, left: ExprType, right: ExprType) -> Option<ExprType>
    ensures { result ≡ binary_type operator left right }
{
    match (left, right) {
        (ExprType::Value(a), ExprType::Value(b)) => valued(binary_value(operator, a, b)),
        _ => None,
    }
}

/// The type of a unary operator with an operand. None if it does not take one.
pub fn unary_type(operator: UnaryOperator, operand: ExprType) -> Option<ExprType>
    ensures { result ≡ unary_type operator operand }
{
    match operand {
        ExprType::Value(a) => valued(unary_value(operator, a)),
        ExprType::Stop => None,
    }
}

/// An expression with a value, if there is one.
fn valued(value: Option<ValueType>) -> Option<ExprType>
    ensures { result ≡ valued value }
{
    match value {
        Some(value) => Some(ExprType::Value(value)),
        None => None,
    }
}

/// The branches of a ternary have one type; one that stops the evaluation fits beside any.
fn branch_type(yes: ExprType, other: ExprType) -> Option<ExprType>
    ensures { result ≡ branch_type yes other }
{
    match (yes, other) {
        (ExprType::Stop, _) => Some(other),
        (ExprType::Value(_), ExprType::Stop) => Some(yes),
        (ExprType::Value(a), ExprType::Value(b)) => valued(common_type(a, b)),
    }
}

/// The type of a ternary, whose condition is a double. None if its parts do not go together.
pub fn ternary_type(condition: ExprType, yes: ExprType, other: ExprType) -> Option<ExprType>
    ensures { result ≡ ternary_type condition yes other }
{
    match condition {
        ExprType::Value(ValueType::Double) => branch_type(yes, other),
        _ => None,
    }
}
