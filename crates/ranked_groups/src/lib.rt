//! A list of items, each with a group and a rank. The first item of a group whose rank is at most a bound is found, and an item is
//! added or changed, in a number of steps that grows with the logarithm of the length: each group has its ranks in a
//! `FirstTree` of its own. Only `new` and `reserve` allocate.
#![tactic(auto)]

mod entry;
mod group;
mod names;
mod ranked_groups;

pub use ranked_groups::RankedGroups;
