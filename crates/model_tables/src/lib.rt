//! Lemmas on tables whose rows change, as events and due rules change them: what sound tables keep when a run moves on or
//! is queued, a node changes, or tasks are marked; and that sound tables are well formed. They stand in `proofs/`.
#![tactic(auto)]
