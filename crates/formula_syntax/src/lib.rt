//! The grammar of formulas: from tokens to statements, or the first fault of the syntax.
#![tactic(auto)]

mod expression;
mod formula;
mod stack;

pub use formula::{one_reading, parse};
