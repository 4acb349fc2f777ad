//! Tests of the crates on which the machines, the command line and formulas stand.
#![tactic(auto)]

#[cfg(test)]
mod bt_base_tests;
#[cfg(test)]
mod bt_times_tests;
#[cfg(test)]
mod cli_words_tests;
#[cfg(test)]
mod dependency_counts_tests;
#[cfg(test)]
mod first_tree_tests;
#[cfg(test)]
mod formula_eval_tests;
#[cfg(test)]
mod hash_index_tests;
#[cfg(test)]
mod kept_table_tests;
#[cfg(test)]
mod option_words_tests;
#[cfg(test)]
mod ranked_groups_tests;
#[cfg(test)]
mod row_keys_tests;
#[cfg(test)]
mod slot_ledger_tests;
#[cfg(test)]
mod text_chains_tests;
