//! Lists of changes that put or drop some rows of a list, each in its turn, and what they lead to. They stand in `specs/`, and the
//! lemmas on them in `proofs/`.
#![tactic(auto)]
