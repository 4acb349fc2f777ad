//! The opening of tables that an earlier run left, as the changes that lead to it: unended runs are withdrawn, tasks that were
//! cut short are to be requeued, nodes and preparations go, and pools are filled again.
#![tactic(auto)]

mod open;

pub use open::opening_changes;
