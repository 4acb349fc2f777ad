//! Whether tables are well formed, as `batch_model` defines it: what a store that is read may hold. Each rule is decided by one pass
//! over the rows, in constant time for each row on average, and exactly, also of tables that break other rules. `first_fault` then names a
//! rule that is broken, and a row.
#![tactic(auto)]

mod check;
mod distinct;
mod fault;
mod keys;
mod labels;
mod named;
mod naming;
mod numbers;
mod pools;
mod quiet;
mod row_name;
mod tries;
mod values;

pub use check::well_formed;
pub use fault::{Rule, TablesFault};
pub use naming::first_fault;
pub use row_name::RowName;
