//! Laws of formulas, over the definitions alone: values have the types of their expressions, and strings are their bytes.
#![tactic(auto)]

mod strings;
mod values;

pub use strings::strings_are_their_bytes;
pub use values::{statements_are_reached, values_have_types};
