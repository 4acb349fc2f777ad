//! The fields of rows as JSON: how each is written, and how it is read. An array has no names, so that a field is found by its
//! place in it; an enum is the name of its variant. What is written reads back, which is a clause of every writer. The format
//! is this project's own.
#![tactic(auto)]

mod array;
mod fault;
mod field;
mod named;
mod parts;
mod payload_enums;
mod places;
mod scalars;
mod texts;
mod tuples;
mod unit_enums;

pub use array::ArrayBuilder;
pub use fault::RowFault;
pub use field::{Field, not_a_row};
pub use named::UnitEnum;
pub use places::{field_at, list_at, option_at, require_length, shared_list_at};
