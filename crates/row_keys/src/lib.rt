//! Passes over rows that have keys: whether no key is there twice, and how often each key is there. Each looks at every row once,
//! in constant time on average, by a hash map from the texts of keys to numbers. A key that not every row has is a `RowKey`.
#![tactic(auto)]

mod key_numbers;
mod passes;
mod row_key;

pub use key_numbers::KeyNumbers;
pub use passes::{are_distinct, are_own_keys_distinct, count_keys};
pub use row_key::{OwnKey, RowKey, key_of_text};
