//! The names of the variants of the enums that rows have: the trait `Named`, and each enum with it. A row is written and read
//! with these names.
#![tactic(auto)]

mod named;
mod payload_enums;
mod unit_enums;

pub use named::Named;
