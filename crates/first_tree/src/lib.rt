//! A list of numbers in blocks of 16, with a segment tree of minima over the blocks: the first number that is at most a bound is found,
//! and a number is changed, in a number of steps that grows with the logarithm of the length, and the least number in constant time.
//! Only `new` and `reserve` allocate.
#![tactic(auto)]

mod blocks;
mod min_tree;
mod nodes;
mod tree;

pub use min_tree::NO_RANK;
pub use tree::FirstTree;
