//! A pool of one node, a job and a task.
#![tactic(auto, unfolding(bt_base::specs::Ids::same, bt_base::proofs::Turns::lex_lt))]

ghost use Rattle.std.specs.Prelude.{◌≡◌, true};
ghost use Rattle.model_scripts.specs.Scripts.{lines_of, rows_after};
ghost use Rattle.model_scripts.specs.Checks.{is_good};
ghost use Rattle.model_scripts.specs.FirstPath as row;

/// No calls: no lines, and empty tables.
pub fn nothing_comes_of_no_calls()
    ensures lines { lines_of row.no_calls ≡ row.no_calls_lines }
    ensures rows { rows_after row.no_calls ≡ row.no_calls_rows }
    ensures good { is_good row.no_calls ≡ true }
{}

/// A task is placed, taken and ended with code 0, and its run ends once.
pub fn a_task_ends_with_success()
    ensures lines { lines_of row.ends_with_success ≡ row.ends_with_success_lines }
    ensures rows { rows_after row.ends_with_success ≡ row.ends_with_success_rows }
    ensures good { is_good row.ends_with_success ≡ true }
{}

/// A run that is not there, was not taken, was taken before or has ended is refused.
pub fn runs_are_taken_and_ended_once()
    ensures lines { lines_of row.refused_runs ≡ row.refused_runs_lines }
    ensures rows { rows_after row.refused_runs ≡ row.refused_runs_rows }
    ensures good { is_good row.refused_runs ≡ true }
{}
