//! The types of expressions.
ghost use Rattle.std.specs.Prelude.{◌≡◌, ◌↔◌, ◌<◌, ◌≤◌, ℕ, List, Some, None, Ok, MatchOption, IfOk, All};
ghost use Rattle.bt_base.specs.Fails.{Gives, GivesAs};
ghost use Rattle.formula_trees.specs.declared.tree.Expr.{size-Expr};
ghost use Rattle.formula_trees.specs.View.{tree_of, trees_of};
ghost use Rattle.formula_trees.specs.declared.value_types.ExprType.{ExprType as AType};
ghost use Rattle.formula_trees.specs.Names.{function_named, member_named, method_named};
ghost use Rattle.formula_types.specs.Scopes as scopes;
ghost use Rattle.formula_types.specs.Scopes.{part as part_of};
ghost use Rattle.formula_types.specs.Typing.{type_of, types_of, or_mismatch, name_at, call_at, list_at, member_at, method_at, is_metric};
ghost use Rattle.formula_types.specs.Nodes.{first_of, node_type, through};
ghost use Rattle.formula_types.specs.View.{types_in};
ghost use Rattle.formula_types.specs.Rules.{HasType};
ghost use Rattle.formula_trees.specs.Tree.{Tree};

use crate::fault::TypeFault;
use crate::scope::{Scope, part};
use bt_base::Fail;
use formula_trees::{
    Expr, ExprType, Span, ValueType, are_doubles, binary_type, function_named, function_result,
    function_takes, is_timestamp, member_named, method_named, method_result, method_takes,
    metric_named, ternary_type, unary_type,
};
use std::alloc::{AllocError, Global};

/// The type of an operator's result, unless its operands do not go together.
fn or_mismatch(span: Span, found: Option<ExprType>) -> Result<ExprType, Fail<TypeFault>>
    ensures { Gives result (or_mismatch span found) }
{
    match found {
        Some(found) => Ok(found),
        None => Err(Fail::Why(TypeFault::TypeMismatch(span.from))),
    }
}

/// The type of a name alone.
fn name_at(text: &[u8], scope: &Scope, span: Span) -> Result<ExprType, Fail<TypeFault>>
    ensures { Gives result (name_at span (scopes.name_type (types_in scope.now) (part_of text.now span))) }
{
    match scope.name_type(part(text, span)) {
        Some(value) => Ok(ExprType::Value(value)),
        None => Err(Fail::Why(TypeFault::UnknownName(span.from))),
    }
}

/// The type of a function of arguments of these types.
fn call_at(text: &[u8], span: Span, arguments: &[ExprType]) -> Result<ExprType, Fail<TypeFault>>
    ensures { Gives result (call_at span (function_named (part_of text.now span)) arguments.now) }
{
    match function_named(part(text, span)) {
        None => Err(Fail::Why(TypeFault::UnknownName(span.from))),
        Some(function) => {
            if function_takes(function, arguments) {
                Ok(function_result(function))
            } else {
                Err(Fail::Why(TypeFault::WrongArguments(span.from)))
            }
        }
    }
}

/// The type of a list of items of these types.
fn list_at(span: Span, items: &[ExprType]) -> Result<ExprType, Fail<TypeFault>>
    ensures { Gives result (list_at span items.now) }
{
    if are_doubles(items) {
        Ok(ExprType::Value(ValueType::DoubleVec))
    } else {
        Err(Fail::Why(TypeFault::TypeMismatch(span.from)))
    }
}

/// The type of a member of an operand of this type.
fn member_at(text: &[u8], span: Span, operand: ExprType) -> Result<ExprType, Fail<TypeFault>>
    ensures { Gives result (member_at span (member_named (part_of text.now span)) operand) }
{
    match member_named(part(text, span)) {
        None => Err(Fail::Why(TypeFault::UnknownName(span.from))),
        Some(_) => {
            if is_timestamp(operand) {
                Ok(ExprType::Value(ValueType::Double))
            } else {
                Err(Fail::Why(TypeFault::TypeMismatch(span.from)))
            }
        }
    }
}

/// The type of a method of arguments of these types.
fn method_at(
    text: &[u8],
    span: Span,
    is_metric: bool,
    arguments: &[ExprType],
) -> Result<ExprType, Fail<TypeFault>>
    ensures { Gives result (method_at span (method_named (part_of text.now span)) is_metric arguments.now) }
{
    match method_named(part(text, span)) {
        None => Err(Fail::Why(TypeFault::UnknownName(span.from))),
        Some(method) => {
            if !is_metric {
                Err(Fail::Why(TypeFault::TypeMismatch(span.from)))
            } else if method_takes(method, arguments) {
                Ok(method_result(method))
            } else {
                Err(Fail::Why(TypeFault::WrongArguments(span.from)))
            }
        }
    }
}

/// Whether an expression is a metric alone.
fn is_metric(text: &[u8], expr: &Expr) -> bool
    ensures { result ≡ is_metric text.now (tree_of expr.now) }
{
    match expr {
        Expr::Name(span) => metric_named(part(text, *span)).is_some(),
        _ => false,
    }
}

/// The operand that is typed first.
fn first_operand(expr: &Expr) -> Option<&Expr>
    ensures value { MatchOption result (first_of (tree_of expr.now) ≡ None) (λ first. first_of (tree_of expr.now) ≡ Some (tree_of first.now)) }
    ensures within { MatchOption result (first_of (tree_of expr.now) ≡ None) (λ first. size-Expr first.now < size-Expr expr.now) }
{
    match expr {
        Expr::Member(operand, _) => Some(&**operand),
        Expr::Method(operand, _, _) => Some(&**operand),
        Expr::Unary(_, _, operand) => Some(&**operand),
        Expr::Binary(_, _, left, _) => Some(&**left),
        Expr::Ternary(_, condition, _, _) => Some(&**condition),
        _ => None,
    }
}

/// The nodes of an expression from the whole down to the operand that is typed first.
fn spine(alloc: Global, expr: &Expr) -> Result<Vec<&Expr>, AllocError>
    ensures value { IfOk result (λ nodes. (text : List ℕ) (set : scopes.Variables) (any : AType) → through text set nodes.items (Ok any) ≡ type_of text set (tree_of expr.now)) }
    ensures within { IfOk result (λ nodes. All (λ node. size-Expr node.now ≤ size-Expr expr.now) nodes.items) }
{
    let mut nodes = Vec::new(alloc);
    let mut inner = expr;
    'down: while let Some(operand) = first_operand(inner) {
        nodes.push(inner)?;
        inner = operand;
    }
    nodes.push(inner)?;
    Ok(nodes)
}

/// The types of arguments or items.
#[cycle(typing)]
fn types_of(
    alloc: Global,
    text: &[u8],
    scope: &Scope,
    items: &[Expr],
) -> Result<Vec<ExprType>, Fail<TypeFault>>
    ensures { GivesAs (λ types. types.items) result (types_of text.now (types_in scope.now) (trees_of items.now)) }
{
    let mut types = Vec::new(alloc);
    for item in items {
        let found = type_of(alloc, text, scope, item)?;
        types.push(found)?;
    }
    Ok(types)
}

/// The type of a node whose first operand has this type, if it has one.
#[cycle(typing)]
fn node_type(
    alloc: Global,
    text: &[u8],
    scope: &Scope,
    node: &Expr,
    first: ExprType,
) -> Result<ExprType, Fail<TypeFault>>
    ensures { Gives result (node_type text.now (types_in scope.now) (tree_of node.now) first) }
{
    match node {
        Expr::Number(_, _) => Ok(ExprType::Value(ValueType::Double)),
        Expr::Text(_) => Ok(ExprType::Value(ValueType::Text)),
        Expr::Name(span) => name_at(text, scope, *span),
        Expr::Call(span, arguments) => {
            let types = types_of(alloc, text, scope, arguments)?;
            call_at(text, *span, &types)
        }
        Expr::List(span, items) => {
            let types = types_of(alloc, text, scope, items)?;
            list_at(*span, &types)
        }
        Expr::Member(_, span) => member_at(text, *span, first),
        Expr::Method(operand, span, arguments) => {
            let types = types_of(alloc, text, scope, arguments)?;
            method_at(text, *span, is_metric(text, operand), &types)
        }
        Expr::Unary(operator, span, _) => or_mismatch(*span, unary_type(*operator, first)),
        Expr::Binary(operator, span, _, right) => {
            let right = type_of(alloc, text, scope, right)?;
            or_mismatch(*span, binary_type(*operator, first, right))
        }
        Expr::Ternary(span, _, yes, other) => {
            let met = type_of(alloc, text, scope, yes)?;
            let unmet = type_of(alloc, text, scope, other)?;
            or_mismatch(*span, ternary_type(first, met, unmet))
        }
    }
}

/// The type of an expression, or its first fault. Operators that group to the left can be nested as deep as the text is long, so a
/// loop goes through them.
#[cycle(typing)]
pub fn type_of(
    alloc: Global,
    text: &[u8],
    scope: &Scope,
    expr: &Expr,
) -> Result<ExprType, Fail<TypeFault>>
    ensures { Gives result (type_of text.now (types_in scope.now) (tree_of expr.now)) }
{
    let mut nodes = spine(alloc, expr)?;
    let mut found = ExprType::Stop;
    'up: while let Some(node) = nodes.pop() {
        found = node_type(alloc, text, scope, node, found)?;
    }
    Ok(found)
}

/// An expression gets a type exactly if the rules allow it.
pub fn types_by_rules()
    ensures { (text : List ℕ) (set : scopes.Variables) (tree : Tree) (found : AType) → type_of text set tree ≡ Ok found ↔ HasType text set tree found }
{}
