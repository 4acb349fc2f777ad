//! What the service does, as definitions alone: the tables before and after each event and each due step, which tables
//! are sound, and the numbers that due steps lower. Every machine, the program and its texts cite these. Lemmas on them
//! stand in `model_lists`, `model_tables`, `model_events` and `model_rules`.
#![tactic(auto)]
