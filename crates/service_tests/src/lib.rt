//! Tests of the service over parts in memory: the shared desk and its lock, runs of child programs and their words, the crew, and the
//! command `serve`.
#![tactic(auto)]

#[cfg(test)]
mod batch_crew_tests;
#[cfg(test)]
mod batch_serve_tests;
#[cfg(test)]
mod child_runs_tests;
#[cfg(test)]
mod child_words_tests;
#[cfg(test)]
mod counted_lock_tests;
#[cfg(test)]
mod shared_desk_tests;
