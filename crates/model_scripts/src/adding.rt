//! Jobs and tasks are added, and what refuses them.
#![tactic(auto, unfolding(bt_base::specs::Ids::same, bt_base::proofs::Turns::lex_lt))]

ghost use Rattle.std.specs.Prelude.{◌≡◌, true};
ghost use Rattle.model_scripts.specs.Scripts.{lines_of, rows_after};
ghost use Rattle.model_scripts.specs.Checks.{is_good};
ghost use Rattle.model_scripts.specs.AddingScripts as row;

/// A job in a missing pool, and a job that is there in other case.
pub fn jobs_are_refused()
    ensures lines { lines_of row.refused_jobs ≡ row.refused_jobs_lines }
    ensures rows { rows_after row.refused_jobs ≡ row.refused_jobs_rows }
    ensures good { is_good row.refused_jobs ≡ true }
{}

/// A task in a missing job, and a task that is there in other case. Another job may have a task of that id.
pub fn tasks_are_refused()
    ensures lines { lines_of row.refused_tasks ≡ row.refused_tasks_lines }
    ensures rows { rows_after row.refused_tasks ≡ row.refused_tasks_rows }
    ensures good { is_good row.refused_tasks ≡ true }
{}

/// A job names its pool, and a task its job, as that row spells its id.
pub fn ids_are_spelled_as_the_rows()
    ensures lines { lines_of row.spelled_otherwise ≡ row.spelled_otherwise_lines }
    ensures rows { rows_after row.spelled_otherwise ≡ row.spelled_otherwise_rows }
    ensures good { is_good row.spelled_otherwise ≡ true }
{}

/// A moment below the last one leaves the moment, and a refusal moves it.
pub fn a_moment_below_the_last_leaves_it()
    ensures lines { lines_of row.moments ≡ row.moments_lines }
    ensures rows { rows_after row.moments ≡ row.moments_rows }
    ensures good { is_good row.moments ≡ true }
{}
