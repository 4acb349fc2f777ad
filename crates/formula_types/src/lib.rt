//! Types of formulas, and formulas as their text is compiled: `specs/Typing.antt` says which expression has which type and which
//! fault is the first, `specs/Compiled.antt` what a whole text is.
#![tactic(auto)]

mod compiler;
mod fault;
mod formula;
mod scope;
mod statement;
mod typing;

pub use compiler::{compile, compiled_is_the_formula, one_answer};
pub use fault::{FormulaFault, TypeFault};
pub use formula::Formula;
pub use scope::part;
pub use typing::types_by_rules;
