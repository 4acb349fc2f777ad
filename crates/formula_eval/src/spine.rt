//! The nodes of an expression from the whole down to the operand that is evaluated first.
ghost use Rattle.std.specs.Prelude.{◌≡◌, ◌<◌, ◌≤◌, ℕ, List, Some, None, Ok, MatchOption, IfOk, All};
ghost use Rattle.formula_trees.specs.declared.tree.Expr.{size-Expr};
ghost use Rattle.formula_trees.specs.View.{tree_of};
ghost use Rattle.formula_values.specs.declared.value.Value.{Value as AValue};
ghost use Rattle.formula_metrics.specs.declared.metrics.Metrics.{Metrics as AllMetrics};
ghost use Rattle.formula_eval.specs.declared.outcome.Outcome.{Outcome as AnOutcome};
ghost use Rattle.formula_eval.specs.Evaluation.{value_of};
ghost use Rattle.formula_eval.specs.Walks.{first_of, through};

use formula_trees::Expr;
use std::alloc::{AllocError, Global};

/// The operand that is evaluated first.
fn first_operand(expr: &Expr) -> Option<&Expr>
    ensures value { MatchOption result (first_of (tree_of expr.now) ≡ None) (λ first. first_of (tree_of expr.now) ≡ Some (tree_of first.now)) }
    ensures within { MatchOption result (first_of (tree_of expr.now) ≡ None) (λ first. size-Expr first.now < size-Expr expr.now) }
{
    match expr {
        Expr::Member(operand, _) => Some(&**operand),
        Expr::Unary(_, _, operand) => Some(&**operand),
        Expr::Binary(_, _, left, _) => Some(&**left),
        Expr::Ternary(_, condition, _, _) => Some(&**condition),
        _ => None,
    }
}

/// The nodes of an expression from the whole down to the operand that is evaluated first.
pub fn spine(alloc: Global, expr: &Expr) -> Result<Vec<&Expr>, AllocError>
    ensures value { IfOk result (λ nodes. (text : List ℕ) (metrics : AllMetrics) (now : ℕ) (set : AnOutcome) (any : AValue) → through text metrics now set nodes.items (Ok any) ≡ value_of text metrics now set (tree_of expr.now)) }
    ensures within { IfOk result (λ nodes. All (λ node. size-Expr node.now ≤ size-Expr expr.now) nodes.items) }
{
    let mut nodes = Vec::new(alloc);
    let mut inner = expr;
    'down: while let Some(operand) = first_operand(inner) {
        nodes.push(inner)?;
        inner = operand;
    }
    nodes.push(inner)?;
    Ok(nodes)
}
