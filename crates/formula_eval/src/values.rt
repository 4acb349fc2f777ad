//! The values of expressions.
ghost use Rattle.bt_base.specs.Fails.{Gives, GivesAs};
ghost use Rattle.formula_trees.specs.View.{tree_of, trees_of};
ghost use Rattle.formula_eval.specs.Contexts.{value_in, values_in, call_in, list_in, method_in, right_in, node_in};

use crate::calls::{
    binary_at, call_at, decided, member_at, method_at, metric_of, name_at, unary_at,
};
use crate::context::EvalContext;
use crate::fault::Interrupt;
use crate::spine::spine;
use crate::strings::string_value;
use bt_base::{Fail, List};
use formula_trees::{BinaryOperator, Expr, Metric, Span};
use formula_types::part;
use formula_values::{Value, flattened, is_true, whole};
use std::alloc::Global;

/// The values of arguments or items.
#[cycle(values)]
fn values_of(
    alloc: Global,
    context: &EvalContext,
    items: &[Expr],
) -> Result<Vec<Value>, Fail<Interrupt>>
    ensures { GivesAs (λ values. values.items) result (values_in context.entry.now (trees_of items.now)) }
{
    let mut values = Vec::new(alloc);
    for item in items {
        let found = value_of(alloc, context, item)?;
        values.push(found)?;
    }
    Ok(values)
}

/// The result of a function of these arguments.
#[cycle(values)]
fn call_value(
    alloc: Global,
    context: &EvalContext,
    span: Span,
    arguments: &[Expr],
) -> Result<Value, Fail<Interrupt>>
    ensures { Gives result (call_in context.entry.now span (trees_of arguments.now)) }
{
    let values = values_of(alloc, context, arguments)?;
    call_at(alloc, context.text, context.now, span, &values)
}

/// A vector of these items.
#[cycle(values)]
fn list_value(
    alloc: Global,
    context: &EvalContext,
    items: &[Expr],
) -> Result<Value, Fail<Interrupt>>
    ensures { Gives result (list_in context.entry.now (trees_of items.now)) }
{
    let values = values_of(alloc, context, items)?;
    let numbers = flattened(alloc, &values)?;
    Ok(Value::DoubleVec(List::of_vec(numbers)))
}

/// The result of a method of a metric with these arguments.
#[cycle(values)]
fn method_value(
    alloc: Global,
    context: &EvalContext,
    span: Span,
    metric: Option<Metric>,
    arguments: &[Expr],
) -> Result<Value, Fail<Interrupt>>
    ensures { Gives result (method_in context.entry.now span metric (trees_of arguments.now)) }
{
    let values = values_of(alloc, context, arguments)?;
    method_at(alloc, context, span, metric, &values)
}

/// The result of a binary operator whose left side does not decide it.
#[cycle(values)]
fn right_value(
    alloc: Global,
    context: &EvalContext,
    operator: BinaryOperator,
    span: Span,
    left: &Value,
    right: &Expr,
) -> Result<Value, Fail<Interrupt>>
    ensures { Gives result (right_in context.entry.now operator span left.now (tree_of right.now)) }
{
    let right = value_of(alloc, context, right)?;
    binary_at(alloc, operator, span, left, &right)
}

/// The value of a node whose first operand has this value, if it has one.
#[cycle(values)]
fn node_value(
    alloc: Global,
    context: &EvalContext,
    node: &Expr,
    first: &Value,
) -> Result<Value, Fail<Interrupt>>
    ensures { Gives result (node_in context.entry.now (tree_of node.now) first.now) }
{
    match node {
        Expr::Number(number, _) => Ok(Value::Double(*number)),
        Expr::Text(span) => Ok(string_value(alloc, part(context.text, *span))?),
        Expr::Name(span) => name_at(alloc, context, *span),
        Expr::Call(span, arguments) => call_value(alloc, context, *span, arguments),
        Expr::List(_, items) => list_value(alloc, context, items),
        Expr::Member(_, span) => Ok(member_at(context.text, *span, first)),
        Expr::Method(operand, span, arguments) => {
            let metric = metric_of(context.text, operand);
            method_value(alloc, context, *span, metric, arguments)
        }
        Expr::Unary(operator, span, _) => unary_at(alloc, *operator, *span, first),
        Expr::Binary(operator, span, _, right) => match decided(*operator, first) {
            Some(known) => Ok(known),
            None => right_value(alloc, context, *operator, *span, first, right),
        },
        Expr::Ternary(_, _, yes, other) => {
            if is_true(first) {
                value_of(alloc, context, yes)
            } else {
                value_of(alloc, context, other)
            }
        }
    }
}

/// The value of an expression, or what ends its evaluation. Operators that group to the left can be nested as deep as the text is
/// long, so a loop goes through them.
#[cycle(values)]
pub fn value_of(alloc: Global, context: &EvalContext, expr: &Expr) -> Result<Value, Fail<Interrupt>>
    ensures { Gives result (value_in context.entry.now (tree_of expr.now)) }
{
    let mut nodes = spine(alloc, expr)?;
    let mut found = whole(0);
    'up: while let Some(node) = nodes.pop() {
        found = node_value(alloc, context, node, &found)?;
    }
    Ok(found)
}
