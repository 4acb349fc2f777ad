//! Exit conditions of tasks, and the actions that endings do to jobs.
#![tactic(auto, unfolding(bt_base::specs::Ids::same, bt_base::proofs::Turns::lex_lt, batch_model::specs::Settling::task_failed))]

ghost use Rattle.std.specs.Prelude.{◌≡◌, true};
ghost use Rattle.model_scripts.specs.Scripts.{lines_of};
ghost use Rattle.model_scripts.specs.Checks.{is_good};
ghost use Rattle.job_scripts.specs.JobScripts.{jobs_after};
ghost use Rattle.job_scripts.specs.ConditionScripts as row;

/// A listed code goes before ranges, the first range that holds the code is taken, and other endings than code 0 have the default.
pub fn codes_go_before_ranges()
    ensures default { row.by_the_default ≡ row.all_go_on }
    ensures ranges { row.by_the_ranges ≡ row.of_the_ranges }
{}

/// Where nothing is stated code 0 does nothing and satisfies, and other endings terminate the job and block.
pub fn absent_options_are_the_usual_ones()
    ensures nothing { row.by_nothing ≡ row.usual }
    ensures parts { row.by_parts ≡ row.of_parts }
{}

/// A job that takes the actions of its tasks is terminated by a failure, once it is not tried again.
pub fn a_failure_terminates_its_job()
    ensures lines { lines_of row.failing ≡ row.failing_lines }
    ensures jobs { jobs_after row.failing ≡ row.failed_jobs }
    ensures good { is_good row.failing ≡ true }
    ensures twice { lines_of row.failing_twice ≡ row.failing_twice_lines }
    ensures good_twice { is_good row.failing_twice ≡ true }
{}

/// A job that an ending disables requeues its placed tasks.
pub fn an_ending_disables_its_job()
    ensures lines { lines_of row.disabling ≡ row.disabling_lines }
    ensures jobs { jobs_after row.disabling ≡ row.disabled_jobs }
    ensures good { is_good row.disabling ≡ true }
{}

/// A job that takes no actions stays active, and a terminated task does nothing to its job.
pub fn actions_are_asked_for()
    ensures unheeded { jobs_after row.unheeded ≡ row.active_jobs }
    ensures lines { lines_of row.terminated_task ≡ row.terminated_task_lines }
    ensures terminated { jobs_after row.terminated_task ≡ row.active_jobs }
    ensures good { is_good row.terminated_task ≡ true }
{}
