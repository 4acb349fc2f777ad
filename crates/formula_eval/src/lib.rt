//! Evaluation of formulas: `specs/Evaluation.antt` says which value an expression has, `specs/Statements.antt` what a formula
//! sets, `specs/Results.antt` how the results and faults are written.
#![tactic(auto)]

mod calls;
mod context;
mod fault;
mod formula;
mod names;
mod outcome;
mod results;
mod settings;
mod spine;
mod strings;
mod values;

pub use fault::EvalFault;
pub use formula::evaluate;
pub use outcome::{Outcome, Targets, Variable, Variables};
pub use results::{error_text, results_text};
