//! Formulas of pools: compiled, and evaluated over a pool.
ghost use Rattle.std.specs.Prelude.{◌≡◌, ◌≤◌, Ok, Err, IfOk};
ghost use Rattle.bt_base.specs.Moments.{last_moment};
ghost use Rattle.formula_trees.specs.View.{statements_of};
ghost use Rattle.formula_eval.specs.Results.{error_text};
ghost use Rattle.formula_eval.specs.Statements.{evaluated};
ghost use Rattle.batch_model.specs.Formulas.{formula_ran, formula_refusal, or_error, pool_metrics, start_targets};
ghost use Rattle.machine_plans.specs.Plans.{with_moment};
ghost use Rattle.pool_samples.specs.Conditions.{CanSample};
ghost use Rattle.pool_scaling.specs.Evaluations.{IsChecked, IsCompiled, ran_of};

use crate::gathering::metrics_of;
use bt_base::{Dealloc, Fail, Moment, NoMemory, Text};
use bt_rows::pool::PoolRow;
use bt_rows::refusal::Refusal;
use formula_eval::{Outcome, Targets, error_text, evaluate, results_text};
use formula_types::{Formula, compile};
use machine_index::IndexedTables;
use std::alloc::Global;

/// What an evaluation of a formula over a pool gave.
pub struct Ran {
    /// The text of the results, or of the fault.
    pub text: Text,
    /// The targets and what becomes of the tasks of nodes that leave; None if there was a fault.
    pub given: Option<(Targets, Dealloc)>,
}

impl Drop for Ran {
    fn drop(self) {
        let Ran {
            text: _text,
            given: _given,
        } = self;
    }
}

/// The formula of a text. A text with a fault is refused with its first one.
#[tactic(auto, using(crate::proofs::Evaluated::refused_if_fault))]
pub fn formula_of(alloc: Global, text: &str) -> Result<Formula, Fail<Refusal>>
    ensures { IsCompiled text.now result }
{
    match compile(alloc, text) {
        Ok(formula) => Ok(formula),
        Err(Fail::Memory) => Err(Fail::Memory),
        Err(Fail::Why(fault)) => Err(Fail::Why(Refusal::FormulaRefused(fault))),
    }
}

/// Refuses a text that is not a formula, as `FormulaRefused` with its first fault. The only other error is out of memory.
#[tactic(auto, using(crate::proofs::Evaluated::taken_if_compiled))]
pub fn check_formula(alloc: Global, text: &str) -> Result<(), Fail<Refusal>>
    ensures { IsChecked (formula_refusal text.now) result }
{
    let _formula = formula_of(alloc, text)?;
    Ok(())
}

/// What results gave.
fn of_outcome(alloc: Global, outcome: &Outcome) -> Result<Ran, NoMemory>
    ensures { IfOk result (λ ran. ran ≡ ran_of (Ok outcome.now)) }
{
    Ok(Ran {
        text: results_text(alloc, outcome)?,
        given: Some((outcome.targets, outcome.option)),
    })
}

/// What the fault of this name at this place gave.
fn of_fault(alloc: Global, name: &str, place: usize) -> Result<Ran, NoMemory>
    ensures { IfOk result (λ ran. ran ≡ ran_of (Err (error_text name.now place))) }
{
    Ok(Ran {
        text: error_text(alloc, name, place)?,
        given: None,
    })
}

/// What the formula gives over the pool at this moment. The only error is out of memory.
pub fn evaluate_formula(
    alloc: Global,
    indexed: &IndexedTables,
    now: Moment,
    pool: &PoolRow,
    formula: &Formula,
) -> Result<Ran, NoMemory>
    requires { CanSample indexed.now.state }
    ensures { IfOk result (λ ran. ran ≡ ran_of (or_error (evaluated formula.now.text (statements_of formula.now.statements.items) (pool_metrics indexed.now.state pool.now) now (start_targets pool.now)))) }
{
    let metrics = metrics_of(alloc, indexed, pool)?;
    let start = Targets {
        dedicated: pool.dedicated,
        low: pool.low,
    };
    match evaluate(alloc, formula, &metrics, now, start) {
        Ok(outcome) => of_outcome(alloc, &outcome),
        Err(Fail::Memory) => Err(NoMemory),
        Err(Fail::Why(fault)) => {
            let place = fault.place;
            of_fault(alloc, fault.name(), place)
        }
    }
}

/// What the text gives over the pool at this moment, as a formula. The only error is out of memory.
#[tactic(auto, using(crate::proofs::Evaluated::ran_over, crate::proofs::Evaluated::ran_if_fault))]
pub fn evaluate_text(
    alloc: Global,
    indexed: &IndexedTables,
    now: Moment,
    pool: &PoolRow,
    text: &str,
) -> Result<Ran, NoMemory>
    requires { CanSample indexed.now.state }
    ensures { IfOk result (λ ran. ran ≡ ran_of (formula_ran (with_moment now indexed.now.state) pool.now text.now)) }
{
    match compile(alloc, text) {
        Ok(formula) => evaluate_formula(alloc, indexed, now, pool, &formula),
        Err(Fail::Memory) => Err(NoMemory),
        Err(Fail::Why(fault)) => of_fault(alloc, fault.name(), fault.place()),
    }
}

/// The moment with these milliseconds since 1970.
pub fn moment_of(ms: u64) -> Moment
    requires { ms ≤ last_moment }
    ensures { result ≡ ms }
{
    match Moment::of_ms(ms) {
        Some(moment) => moment,
        None => unreachable!(),
    }
}
