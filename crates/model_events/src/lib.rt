//! Lemmas on events: each keeps each part of sound tables, and a refused one changes nothing but the last moment. They
//! stand in `proofs/`.
#![tactic(auto)]
