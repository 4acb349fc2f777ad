//! The command `formula`: the formula of a source is evaluated over metrics without samples and without current values, and its
//! results, or its fault with its place, are written to the sink. It uses no keeper and no tables.
#![tactic(auto)]

mod end;
mod position;
mod run;
mod show;
mod shown;

pub use end::End;
pub use position::Position;
pub use run::run_formula;
pub use show::one_showing;
