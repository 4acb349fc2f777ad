//! What an ending makes of a task.
#![tactic(auto, unfolding(bt_base::specs::Ids::same, bt_base::proofs::Turns::lex_lt))]

ghost use Rattle.std.specs.Prelude.{◌≡◌, true};
ghost use Rattle.model_scripts.specs.Scripts.{lines_of, rows_after};
ghost use Rattle.model_scripts.specs.Checks.{is_good};
ghost use Rattle.model_scripts.specs.EndingScripts as row;

/// Another code than 0, no code, and a program that could not be started.
pub fn any_other_ending_is_a_failure()
    ensures lines { lines_of row.failures ≡ row.failures_lines }
    ensures rows { rows_after row.failures ≡ row.failures_rows }
    ensures good { is_good row.failures ≡ true }
{}

/// A task that names its limit of retries is not tried as often as its job says.
pub fn the_limit_of_the_task_goes_before()
    ensures lines { lines_of row.own_limit ≡ row.own_limit_lines }
    ensures rows { rows_after row.own_limit ≡ row.own_limit_rows }
    ensures good { is_good row.own_limit ≡ true }
{}
