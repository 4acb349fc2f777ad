//! Evaluation of a whole formula.
ghost use Rattle.std.specs.Prelude.{◌≡◌};
ghost use Rattle.bt_base.specs.Fails.{Gives};
ghost use Rattle.formula_trees.specs.View.{tree_of, statement_of, statements_of};
ghost use Rattle.formula_eval.specs.Outcomes.{at_start};
ghost use Rattle.formula_eval.specs.Statements.{expression_of, evaluated};
ghost use Rattle.formula_eval.specs.Walks.{IsDone};

use crate::context::EvalContext;
use crate::fault::{EvalFault, Interrupt};
use crate::outcome::{Outcome, Targets, Variables};
use crate::settings::settle;
use crate::values::value_of;
use bt_base::{Dealloc, Fail, Moment};
use formula_metrics::Metrics;
use formula_trees::{Expr, Statement};
use formula_types::Formula;
use std::alloc::Global;

/// What is set before the first statement.
fn at_start(alloc: Global, start: Targets) -> Outcome
    ensures { result ≡ at_start start }
{
    Outcome {
        targets: start,
        option: Dealloc::Requeue,
        variables: Variables::empty(alloc),
    }
}

/// The expression of a statement.
fn expression(statement: &Statement) -> &Expr
    ensures { tree_of result.now ≡ expression_of (statement_of statement.now) }
{
    match statement {
        Statement::Assign(_, expr) => expr,
        Statement::Expression(expr) => expr,
    }
}

/// Evaluates a statement after those before it. False if `stop()` ends the evaluation.
fn step(
    alloc: Global,
    text: &[u8],
    metrics: &Metrics,
    now: Moment,
    set: &mut Outcome,
    statement: &Statement,
) -> Result<bool, Fail<EvalFault>>
    ensures { IsDone text.now metrics.now now set.old (statement_of statement.now) set.new result }
{
    let context = EvalContext {
        text,
        metrics,
        now,
        set,
    };
    match value_of(alloc, &context, expression(statement)) {
        Ok(value) => {
            settle(alloc, text, set, statement, value)?;
            Ok(true)
        }
        Err(Fail::Memory) => Err(Fail::Memory),
        Err(Fail::Why(Interrupt::Stop)) => Ok(false),
        Err(Fail::Why(Interrupt::Fault(fault))) => Err(Fail::Why(fault)),
    }
}

/// Evaluates a formula with these metrics, at this moment and with these targets at first. The error is the formula's first fault, or
/// out of memory: operands are evaluated from the left, and `&&`, `||` and the ternary evaluate only what they need. `stop()` ends
/// the evaluation with what was set before.
pub fn evaluate(
    alloc: Global,
    formula: &Formula,
    metrics: &Metrics,
    now: Moment,
    start: Targets,
) -> Result<Outcome, Fail<EvalFault>>
    ensures { Gives result (evaluated formula.now.text (statements_of formula.now.statements.items) metrics.now now start) }
{
    let text = formula.text().as_bytes();
    let mut outcome = at_start(alloc, start);
    for statement in formula.statements() {
        if !step(alloc, text, metrics, now, &mut outcome, statement)? {
            return Ok(outcome);
        }
    }
    Ok(outcome)
}
