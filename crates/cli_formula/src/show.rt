//! From the bytes of a formula to its output.
ghost use Rattle.std.specs.Prelude.{◌≡◌, ℕ, List, Result, IfOk};
ghost use Rattle.formula_trees.specs.View.{statements_of};
ghost use Rattle.formula_metrics.specs.Parts.{blank_metrics};
ghost use Rattle.formula_eval.specs.Statements.{evaluated};
ghost use Rattle.cli_formula.specs.Showing.{Shows, ShownFault, targets_of};
ghost use Rattle.cli_formula.specs.Shown.{shown_of, evaluation_shown};

use crate::shown::{Shown, of_fault, of_outcome};
use bt_base::{Fail, NoMemory};
use cli_words::FormulaOptions;
use formula_eval::{Targets, evaluate};
use formula_metrics::Metrics;
use formula_types::{Formula, compile, one_answer};
use std::alloc::Global;

/// The output of a formula, from its evaluation.
fn show_formula(
    alloc: Global,
    options: FormulaOptions,
    formula: &Formula,
) -> Result<Shown, NoMemory>
    ensures { IfOk result (λ shown. shown_of shown ≡ evaluation_shown
        (evaluated formula.now.text (statements_of formula.now.statements.items) blank_metrics options.now (targets_of options.dedicated))) }
{
    let metrics = Metrics::new(alloc)?;
    let start = Targets {
        dedicated: options.dedicated,
        low: 0,
    };
    match evaluate(alloc, formula, &metrics, options.now, start) {
        Ok(outcome) => of_outcome(alloc, &outcome),
        Err(Fail::Memory) => Err(NoMemory),
        Err(Fail::Why(fault)) => {
            let place = fault.place;
            of_fault(alloc, fault.name(), place)
        }
    }
}

/// The output of a text.
fn show_text(alloc: Global, options: FormulaOptions, text: &str) -> Result<Shown, NoMemory>
    ensures { IfOk result (λ shown. Shows options.now options.dedicated text.now (shown_of shown)) }
{
    match compile(alloc, text) {
        Ok(formula) => show_formula(alloc, options, &formula),
        Err(Fail::Memory) => Err(NoMemory),
        Err(Fail::Why(fault)) => of_fault(alloc, fault.name(), fault.place()),
    }
}

/// The output of these bytes.
pub fn show(alloc: Global, options: FormulaOptions, bytes: &[u8]) -> Result<Shown, NoMemory>
    ensures { IfOk result (λ shown. Shows options.now options.dedicated bytes.now (shown_of shown)) }
{
    match std::str::from_utf8(bytes) {
        Ok(text) => show_text(alloc, options, text),
        Err(error) => of_fault(alloc, "BadCharacter", error.valid_up_to()),
    }
}

/// The same bytes have one output at a moment and with a number of nodes wanted before.
pub fn one_showing()
    ensures { (now nodes : ℕ) (bytes : List ℕ) (one other : Result (List ℕ) ShownFault) → Shows now nodes bytes one → Shows now nodes bytes other → one ≡ other }
{
    one_answer();
}
