//! The value at a token, once its operands or arguments have values.
ghost use Rattle.std.specs.Prelude.{◌≡◌};
ghost use Rattle.bt_base.specs.Fails.{Gives};
ghost use Rattle.formula_trees.specs.Names.{function_named, member_named};
ghost use Rattle.formula_types.specs.Scopes.{part as part_of};
ghost use Rattle.formula_trees.specs.View.{tree_of};
ghost use Rattle.formula_values.specs.Operators.{unary_value, binary_value};
ghost use Rattle.formula_values.specs.Functions.{function_value};
ghost use Rattle.formula_eval.specs.Evaluation.{at, call_at, member_at, metric_of, decided};
ghost use Rattle.formula_eval.specs.Contexts.{name_in, method_of_values};

use crate::context::EvalContext;
use crate::fault::{EvalFault, Interrupt};
use crate::names::name_value;
use bt_base::{Fail, Moment};
use formula_trees::{
    BinaryOperator, Expr, Function, Metric, Span, UnaryOperator, function_named, member_named,
    method_named, metric_named,
};
use formula_types::part;
use formula_values::{Value, ValueFault, binary, call, is_true, member, truth, unary, whole};
use std::alloc::Global;

/// A fault, with the place of a token.
pub fn fault_at(span: Span, fault: ValueFault) -> Interrupt
    ensures { result ≡ Interrupt.Fault (record { fault = fault; place = span.from }) }
{
    Interrupt::Fault(EvalFault {
        fault,
        place: span.from,
    })
}

/// The value of a name alone.
pub fn name_at(alloc: Global, context: &EvalContext, span: Span) -> Result<Value, Fail<Interrupt>>
    ensures { Gives result (name_in context.entry.now span) }
{
    match name_value(
        alloc,
        context.metrics,
        context.set,
        part(context.text, span),
    ) {
        Ok(found) => Ok(found),
        Err(Fail::Memory) => Err(Fail::Memory),
        Err(Fail::Why(fault)) => Err(Fail::Why(fault_at(span, fault))),
    }
}

/// The result of a unary operator.
pub fn unary_at(
    alloc: Global,
    operator: UnaryOperator,
    span: Span,
    operand: &Value,
) -> Result<Value, Fail<Interrupt>>
    ensures { Gives result (at span (unary_value operator operand.now)) }
{
    match unary(alloc, operator, operand) {
        Ok(found) => Ok(found),
        Err(Fail::Memory) => Err(Fail::Memory),
        Err(Fail::Why(fault)) => Err(Fail::Why(fault_at(span, fault))),
    }
}

/// The result of a binary operator.
pub fn binary_at(
    alloc: Global,
    operator: BinaryOperator,
    span: Span,
    left: &Value,
    right: &Value,
) -> Result<Value, Fail<Interrupt>>
    ensures { Gives result (at span (binary_value operator left.now right.now)) }
{
    match binary(alloc, operator, left, right) {
        Ok(found) => Ok(found),
        Err(Fail::Memory) => Err(Fail::Memory),
        Err(Fail::Why(fault)) => Err(Fail::Why(fault_at(span, fault))),
    }
}

/// The result of `&&` or `||`, if the left side decides it alone.
pub fn decided(operator: BinaryOperator, left: &Value) -> Option<Value>
    ensures { result ≡ decided operator left.now }
{
    match operator {
        BinaryOperator::And => {
            if is_true(left) {
                None
            } else {
                Some(truth(false))
            }
        }
        BinaryOperator::Or => {
            if is_true(left) {
                Some(truth(true))
            } else {
                None
            }
        }
        _ => None,
    }
}

/// The result of a function of these arguments.
fn function_at(
    alloc: Global,
    now: Moment,
    span: Span,
    function: Function,
    arguments: &[Value],
) -> Result<Value, Fail<Interrupt>>
    ensures { Gives result (at span (function_value function arguments.now now)) }
{
    match call(alloc, function, arguments, now) {
        Ok(found) => Ok(found),
        Err(Fail::Memory) => Err(Fail::Memory),
        Err(Fail::Why(fault)) => Err(Fail::Why(fault_at(span, fault))),
    }
}

/// The result of the function of this name with these arguments. `stop()` ends the evaluation.
pub fn call_at(
    alloc: Global,
    text: &[u8],
    now: Moment,
    span: Span,
    arguments: &[Value],
) -> Result<Value, Fail<Interrupt>>
    ensures { Gives result (call_at now span (function_named (part_of text.now span)) arguments.now) }
{
    match function_named(part(text, span)) {
        Some(Function::Stop) => Err(Fail::Why(Interrupt::Stop)),
        Some(function) => function_at(alloc, now, span, function, arguments),
        None => Ok(whole(0)),
    }
}

/// The value of the member of this name.
pub fn member_at(text: &[u8], span: Span, operand: &Value) -> Value
    ensures { result ≡ member_at (member_named (part_of text.now span)) operand.now }
{
    match member_named(part(text, span)) {
        Some(named) => member(named, operand),
        None => whole(0),
    }
}

/// The metric that a method is of.
pub fn metric_of(text: &[u8], operand: &Expr) -> Option<Metric>
    ensures { result ≡ metric_of text.now (tree_of operand.now) }
{
    match operand {
        Expr::Name(span) => metric_named(part(text, *span)),
        _ => None,
    }
}

/// The result of the method of this name with these arguments.
pub fn method_at(
    alloc: Global,
    context: &EvalContext,
    span: Span,
    metric: Option<Metric>,
    arguments: &[Value],
) -> Result<Value, Fail<Interrupt>>
    ensures { Gives result (method_of_values context.entry.now span metric arguments.now) }
{
    let Some(metric) = metric else {
        return Ok(whole(0));
    };
    let Some(method) = method_named(part(context.text, span)) else {
        return Ok(whole(0));
    };
    match context
        .metrics
        .part(metric)
        .call(alloc, method, arguments, context.now)
    {
        Ok(found) => Ok(found),
        Err(Fail::Memory) => Err(Fail::Memory),
        Err(Fail::Why(fault)) => Err(Fail::Why(fault_at(span, fault))),
    }
}
