//! Tests of texts of rows, of stores in files, and of keepers over a store.
#![tactic(auto)]

#[cfg(test)]
mod foreign_file_tests;
#[cfg(test)]
mod keeper_store_tests;
#[cfg(test)]
mod random_edit_tests;
#[cfg(test)]
mod row_texts_tests;
#[cfg(test)]
mod sql_files;
#[cfg(test)]
mod sql_keeper_tests;
#[cfg(test)]
mod sql_store_tests;
#[cfg(test)]
mod sql_sync_tests;
#[cfg(test)]
mod store_keeper_tests;
