//! A ledger of the slots of nodes: which pool a node is of, how many slots it has and how many of them are held, and which node
//! a pool's fill type chooses.
#![tactic(auto)]

mod ledger;

pub use ledger::{Entry, Ledger, held_is_sum};
