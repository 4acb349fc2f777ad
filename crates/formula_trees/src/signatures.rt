//! The types of the arguments and results of functions and methods.
ghost use Rattle.std.specs.Prelude.{◌≡◌, Bool};
ghost use Rattle.std.specs.List.{list_all};
ghost use Rattle.formula_trees.specs.Signatures.{is_double, is_vector, is_text, is_timestamp, is_moment, is_numeric, are_none, are_one, are_two, are_three, are_numeric, function_takes, function_result, method_takes, method_result};

use crate::names::{Function, Method};
use crate::value_types::{ExprType, ValueType};

/// Whether an argument is a double.
pub fn is_double(argument: ExprType) -> bool
    ensures { result ≡ is_double argument }
{
    matches!(argument, ExprType::Value(ValueType::Double))
}

fn is_vector(argument: ExprType) -> bool
    ensures { result ≡ is_vector argument }
{
    matches!(argument, ExprType::Value(ValueType::DoubleVec))
}

fn is_text(argument: ExprType) -> bool
    ensures { result ≡ is_text argument }
{
    matches!(argument, ExprType::Value(ValueType::Text))
}

/// Whether an argument is a timestamp.
pub fn is_timestamp(argument: ExprType) -> bool
    ensures { result ≡ is_timestamp argument }
{
    matches!(argument, ExprType::Value(ValueType::Timestamp))
}

/// A timestamp, or a timeinterval that is counted back from now.
fn is_moment(argument: ExprType) -> bool
    ensures { result ≡ is_moment argument }
{
    match argument {
        ExprType::Value(ValueType::Timestamp) => true,
        ExprType::Value(ValueType::TimeInterval) => true,
        _ => false,
    }
}

/// A double, or a vector of doubles.
fn is_numeric(argument: ExprType) -> bool
    ensures { result ≡ is_numeric argument }
{
    match argument {
        ExprType::Value(ValueType::Double) => true,
        ExprType::Value(ValueType::DoubleVec) => true,
        _ => false,
    }
}

/// Whether all items are doubles.
pub fn are_doubles(items: &[ExprType]) -> bool
    ensures { result ≡ list_all is_double items.now }
{
    for item in items {
        if !is_double(*item) {
            return false;
        }
    }
    true
}

fn all_numeric(arguments: &[ExprType]) -> bool
    ensures { result ≡ list_all is_numeric arguments.now }
{
    for argument in arguments {
        if !is_numeric(*argument) {
            return false;
        }
    }
    true
}

/// One or more doubles and vectors.
fn are_numeric(arguments: &[ExprType]) -> bool
    ensures { result ≡ are_numeric arguments.now }
{
    match arguments {
        [] => false,
        [first, others @ ..] => is_numeric(*first) && all_numeric(others),
    }
}

fn is_one_double(arguments: &[ExprType]) -> bool
    ensures { result ≡ are_one is_double arguments.now }
{
    match arguments {
        [one] => is_double(*one),
        _ => false,
    }
}

fn is_one_vector(arguments: &[ExprType]) -> bool
    ensures { result ≡ are_one is_vector arguments.now }
{
    match arguments {
        [one] => is_vector(*one),
        _ => false,
    }
}

fn is_one_text(arguments: &[ExprType]) -> bool
    ensures { result ≡ are_one is_text arguments.now }
{
    match arguments {
        [one] => is_text(*one),
        _ => false,
    }
}

fn is_one_moment(arguments: &[ExprType]) -> bool
    ensures { result ≡ are_one is_moment arguments.now }
{
    match arguments {
        [one] => is_moment(*one),
        _ => false,
    }
}

fn are_vector_and_double(arguments: &[ExprType]) -> bool
    ensures { result ≡ are_two is_vector is_double arguments.now }
{
    match arguments {
        [first, second] => is_vector(*first) && is_double(*second),
        _ => false,
    }
}

fn are_moment_and_double(arguments: &[ExprType]) -> bool
    ensures { result ≡ are_two is_moment is_double arguments.now }
{
    match arguments {
        [first, second] => is_moment(*first) && is_double(*second),
        _ => false,
    }
}

fn are_two_moments(arguments: &[ExprType]) -> bool
    ensures { result ≡ are_two is_moment is_moment arguments.now }
{
    match arguments {
        [first, second] => is_moment(*first) && is_moment(*second),
        _ => false,
    }
}

fn are_two_moments_and_double(arguments: &[ExprType]) -> bool
    ensures { result ≡ are_three is_moment is_moment is_double arguments.now }
{
    match arguments {
        [first, second, third] => is_moment(*first) && is_moment(*second) && is_double(*third),
        _ => false,
    }
}

fn is_empty(arguments: &[ExprType]) -> bool
    ensures { result ≡ are_none arguments.now }
{
    match arguments {
        [] => true,
        _ => false,
    }
}

/// Whether a function takes these arguments.
pub fn function_takes(function: Function, arguments: &[ExprType]) -> bool
    ensures { result ≡ function_takes function arguments.now }
{
    match function {
        Function::Avg | Function::Max | Function::Min | Function::Sum | Function::Range => {
            are_numeric(arguments)
        }
        Function::Len | Function::Norm => is_one_vector(arguments),
        Function::Percentile | Function::Val => are_vector_and_double(arguments),
        Function::Ceil | Function::Floor | Function::Round => is_one_double(arguments),
        Function::Time => is_empty(arguments) || is_one_text(arguments),
        Function::Stop => is_empty(arguments),
    }
}

/// The type of a function's result. `stop()` has no value.
pub fn function_result(function: Function) -> ExprType
    ensures { result ≡ function_result function }
{
    match function {
        Function::Time => ExprType::Value(ValueType::Timestamp),
        Function::Stop => ExprType::Stop,
        _ => ExprType::Value(ValueType::Double),
    }
}

/// Whether a metric's method takes these arguments.
pub fn method_takes(method: Method, arguments: &[ExprType]) -> bool
    ensures { result ≡ method_takes method arguments.now }
{
    match method {
        Method::GetSample => {
            is_one_double(arguments)
                || is_one_moment(arguments)
                || are_moment_and_double(arguments)
                || are_two_moments(arguments)
                || are_two_moments_and_double(arguments)
        }
        Method::GetSamplePercent => is_one_moment(arguments) || are_two_moments(arguments),
        Method::GetSamplePeriod | Method::Count | Method::HistoryBeginTime => is_empty(arguments),
    }
}

/// The type of the result of a metric's method.
pub fn method_result(method: Method) -> ExprType
    ensures { result ≡ method_result method }
{
    match method {
        Method::GetSample => ExprType::Value(ValueType::DoubleVec),
        Method::GetSamplePercent | Method::Count => ExprType::Value(ValueType::Double),
        Method::GetSamplePeriod => ExprType::Value(ValueType::TimeInterval),
        Method::HistoryBeginTime => ExprType::Value(ValueType::Timestamp),
    }
}
