//! The rows of the tables as texts, and rows from texts. A text is a compact JSON array (RFC 8259) of the fields of the row, in the
//! order of its struct: an absent value is `null`, a list and a struct are arrays, a variant is its name, or an array of its name
//! and its value, and a number with decimals is its millionths. The format is this project's own.
#![tactic(auto)]

mod job;
mod node;
mod pool;
mod prep;
mod row;
mod run;
mod sample;
mod scale;
mod table_row;
mod task;
mod text;

pub use row::{Row, RowKind, row_of, row_text};
pub use row_fields::RowFault;
pub use table_row::TableRow;
pub use text::{read_row, write_row};
