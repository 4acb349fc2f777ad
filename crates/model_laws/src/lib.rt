//! Laws of single steps: which runs an event or a due step makes and leaves, and how it changes the failures of tasks. The laws are
//! in `specs/`, and in `proofs/` the lemmas that every event and every due step keeps them.
#![tactic(auto)]
