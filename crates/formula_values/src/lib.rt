//! Values of formulas: the results of operators, functions and members, and the texts of values.
#![tactic(auto)]

mod arithmetic;
mod fault;
mod functions;
mod items;
mod members;
mod norm;
mod operators;
mod percentile;
mod rounding;
mod texts;
mod times;
mod value;

pub use fault::ValueFault;
pub use functions::call;
pub use items::flattened;
pub use members::member;
pub use operators::{binary, is_true, truth, unary};
pub use rounding::floor_of;
pub use times::{TimeInterval, Timestamp, interval_value, timestamp_value};
pub use value::{Value, whole};
