//! Tasks that are tried again after they failed.
#![tactic(auto, unfolding(bt_base::specs::Ids::same, bt_base::proofs::Turns::lex_lt))]

ghost use Rattle.std.specs.Prelude.{◌≡◌, true};
ghost use Rattle.model_scripts.specs.Scripts.{lines_of};
ghost use Rattle.model_scripts.specs.Checks.{is_good};
ghost use Rattle.job_scripts.specs.RetryScripts as row;

/// A task that fails is tried again as often as its job says.
pub fn failures_are_below_the_limit()
    ensures lines { lines_of row.three_retries ≡ row.three_retries_lines }
    ensures attempts { row.attempts_after row.three_retries ≡ row.three_retries_attempts }
    ensures good { is_good row.three_retries ≡ true }
{}

/// A limit of -1 is none.
pub fn tasks_are_tried_again_without_limit()
    ensures lines { lines_of row.no_limit ≡ row.no_limit_lines }
    ensures attempts { row.attempts_after row.no_limit ≡ row.no_limit_attempts }
    ensures good { is_good row.no_limit ≡ true }
{}

/// A task that was not started, or whose wall time is over, is not tried again.
pub fn launch_errors_are_not_tried_again()
    ensures lines { lines_of row.not_started ≡ row.not_started_lines }
    ensures attempts { row.attempts_after row.not_started ≡ row.not_started_attempts }
    ensures good { is_good row.not_started ≡ true }
    ensures late { lines_of row.out_of_time ≡ row.out_of_time_lines }
    ensures good_late { is_good row.out_of_time ≡ true }
{}

/// The limit in force is that of the moment at which the task failed.
pub fn a_lowered_limit_counts_later()
    ensures lines { lines_of row.lowered ≡ row.lowered_lines }
    ensures good { is_good row.lowered ≡ true }
{}
