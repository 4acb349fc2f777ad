//! Types of values and expressions.

/// The type of a value.
#[derive(Clone, Copy, PartialEq, Eq, Debug)]
pub enum ValueType {
    Double,
    /// A list of doubles.
    DoubleVec,
    Text,
    Timestamp,
    TimeInterval,
}

/// The type of an expression.
#[derive(Clone, Copy, PartialEq, Eq, Debug)]
pub enum ExprType {
    Value(ValueType),
    /// It has no value: it ends the evaluation of the formula.
    Stop,
}
