//! Lemmas on lists of rows: tests of them, rows that are added, changed and put, keys, sums and counts. No event and no due
//! rule stands in them. They stand in `proofs/`.
#![tactic(auto)]
