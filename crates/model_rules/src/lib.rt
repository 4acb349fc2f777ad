//! Lemmas on due rules and on the opening: each keeps each part of sound tables, and each due rule lowers the list of
//! numbers. They stand in `proofs/`.
#![tactic(auto)]
