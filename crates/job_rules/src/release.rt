//! U9, the due step that makes a release run: a terminating or deleting job runs its release task on each node on which it was prepared
//! and a task of it was started.
ghost use Rattle.std.specs.Prelude.{◌≡◌, IfOk, IsTrue, Some, false, find};
ghost use Rattle.std.specs.Option.{option_and_then, option_copied, option_map_or};
ghost use Rattle.bt_rows.specs.declared.due.Due.TheVariants.{ReleaseMade};
ghost use Rattle.batch_model.specs.Finding.{has_number_left};
ghost use Rattle.batch_model.specs.JobRules.{is_being_prepared, is_releasing, release_first, release_for, release_made, release_on, releasing, wants_release};
ghost use Rattle.batch_model.specs.Rows.{job_of, prep_of};
ghost use Rattle.batch_model.specs.Runs.{job_run};
ghost use Rattle.batch_model.specs.Sound.{NumbersAreNew};
ghost use Rattle.batch_model.specs.Variants.{ReleaseRun};
ghost use Rattle.batch_model.specs.WellFormed.{KeysAreDistinct};
ghost use Rattle.machine_plans.specs.Plans.{IsPlanOf, IsRule, answer_of_step, with_moment};
ghost use Rattle.job_rules.specs.Releases.{has_release, is_to_release};

use crate::removal::is_closing;
use crate::rule::has_placed_task;
use bt_base::{Duplicate, Id, NoMemory, Shared};
use bt_rows::due::Due;
use bt_rows::job::{JobRow, ReleaseTask};
use bt_rows::node::NodeRow;
use bt_rows::plan::Plan;
use bt_rows::prep::{PrepRow, PrepState, ReleaseState};
use bt_rows::run::{RunKind, RunRow};
use bt_rows::tables::{Change, Tables};
use machine_plans::{job_run, step_three};
use std::alloc::Global;
use table_scans::{has_number_left, prepares};

/// Whether the preparation is completed, a task of its job was started on its node, and no release run was made.
fn wants_release(prep: &PrepRow) -> bool
    ensures { result ≡ wants_release prep.now }
{
    prep.state == PrepState::Completed && prep.ran && prep.release == ReleaseState::No
}

/// Whether a preparation run of the job has not ended.
fn is_being_prepared(tables: &Tables, job: &Id) -> bool
    ensures { result ≡ is_being_prepared tables.now.state job.now }
{
    tables.runs().any(|run| prepares(job, run))
}

/// Whether the job is terminating or deleting, without placed tasks and unended preparation runs.
fn is_releasing(tables: &Tables, job: &JobRow) -> bool
    ensures { result ≡ is_releasing tables.now.state job.now }
{
    is_closing(job.state)
        && !has_placed_task(tables, &job.id)
        && !is_being_prepared(tables, &job.id)
}

/// Whether the job is releasing, and has a release task.
fn has_release(tables: &Tables, job: &JobRow) -> bool
    ensures { result ≡ has_release tables.now.state job.now }
{
    job.release.is_some() && is_releasing(tables, job)
}

/// Whether the job with this id is there, is releasing, and has a release task.
fn is_job_releasing(tables: &Tables, job: &Id) -> bool
    ensures { result ≡ option_map_or (has_release tables.now.state) (job_of tables.now.state job.now) false }
{
    match tables.find_job(job) {
        None => false,
        Some(job) => has_release(tables, job),
    }
}

/// Whether a release run is to be made for the preparation.
fn is_to_release(tables: &Tables, prep: &PrepRow) -> bool
    ensures { result ≡ is_to_release tables.now.state prep.now }
{
    wants_release(prep)
        && tables.find_node(prep.node).is_some()
        && is_job_releasing(tables, &prep.job)
}

/// The first such preparation.
fn first_to_release(tables: &Tables) -> Option<&PrepRow>
    ensures { option_copied result ≡ find (is_to_release tables.now.state) tables.now.state.preps }
{
    tables.preps().find(|prep| is_to_release(tables, prep))
}

/// The preparation, whose release run is made.
fn releasing(prep: &PrepRow) -> Result<PrepRow, NoMemory>
    ensures { IfOk result (λ row. row ≡ releasing prep.now) }
{
    let mut row = prep.copy()?;
    row.release = ReleaseState::Running;
    Ok(row)
}

/// The preparation, whose release run is made, in a block of its own.
fn releasing_prep(alloc: Global, prep: &PrepRow) -> Result<Shared<PrepRow>, NoMemory>
    ensures { IfOk result (λ row. row ≡ releasing prep.now) }
{
    Shared::new(alloc, releasing(prep)?)
}

/// The run of the job's release task on the node, made at `made`, in milliseconds since 1970, in a block of its own.
fn release_run(
    alloc: Global,
    tables: &Tables,
    made: u64,
    node: &NodeRow,
    job: &JobRow,
    release: &ReleaseTask,
) -> Result<Shared<RunRow>, NoMemory>
    ensures { IfOk result (λ run. run ≡ job_run (with_moment made tables.now.state) node.now.number node.now.pool ReleaseRun release.now.line job.now.id) }
{
    let run = job_run(
        tables,
        made,
        node.number,
        &node.pool,
        RunKind::Release,
        &release.line,
        &job.id,
    )?;
    Shared::new(alloc, run)
}

/// The plan that makes a run of the job's release task on the node.
fn make(
    alloc: Global,
    tables: &Tables,
    prep: &PrepRow,
    node: &NodeRow,
    job: &JobRow,
    release: &ReleaseTask,
) -> Result<Plan, NoMemory>
    requires keys { KeysAreDistinct tables.now.state }
    requires numbers { NumbersAreNew tables.now.state }
    requires left { IsTrue (has_number_left tables.now.state.next_run) }
    requires there { prep_of tables.now.state prep.now.job prep.now.node ≡ Some prep.now }
    ensures { IfOk result (IsPlanOf (answer_of_step (release_made tables.now.state prep.now node.now job.now release.now)) tables.now.state) }
{
    let number = tables.next_run();
    let due = Due::ReleaseMade(job.id.copy()?, node.number, number);
    let row = releasing_prep(alloc, prep)?;
    let run = release_run(alloc, tables, tables.moment(), node, job, release)?;
    let counters = Change::Counters(tables.next_node(), number + 1);
    step_three(
        alloc,
        due,
        Change::PutPrep(row),
        Change::PutRun(run),
        counters,
    )
}

/// The plan that makes a release run of the job on the node, if the job is releasing and has a release task.
fn release_for(
    alloc: Global,
    tables: &Tables,
    prep: &PrepRow,
    node: &NodeRow,
    job: &JobRow,
) -> Result<Option<Plan>, NoMemory>
    requires keys { KeysAreDistinct tables.now.state }
    requires numbers { NumbersAreNew tables.now.state }
    requires left { IsTrue (has_number_left tables.now.state.next_run) }
    requires there { prep_of tables.now.state prep.now.job prep.now.node ≡ Some prep.now }
    ensures { IfOk result (IsRule (release_for tables.now.state prep.now node.now job.now) tables.now.state) }
{
    if !is_releasing(tables, job) {
        return Ok(None);
    }
    match &job.release {
        None => Ok(None),
        Some(release) => Ok(Some(make(alloc, tables, prep, node, job, release)?)),
    }
}

/// The plan that makes a release run for the preparation on this node.
fn release_at(
    alloc: Global,
    tables: &Tables,
    prep: &PrepRow,
    node: &NodeRow,
) -> Result<Option<Plan>, NoMemory>
    requires keys { KeysAreDistinct tables.now.state }
    requires numbers { NumbersAreNew tables.now.state }
    requires left { IsTrue (has_number_left tables.now.state.next_run) }
    requires there { prep_of tables.now.state prep.now.job prep.now.node ≡ Some prep.now }
    ensures { IfOk result (IsRule (option_and_then (release_for tables.now.state prep.now node.now) (job_of tables.now.state prep.now.job)) tables.now.state) }
{
    match tables.find_job(&prep.job) {
        None => Ok(None),
        Some(job) => release_for(alloc, tables, prep, node, job),
    }
}

/// The plan that makes a release run for the preparation, which wants one.
fn release_on(alloc: Global, tables: &Tables, prep: &PrepRow) -> Result<Option<Plan>, NoMemory>
    requires keys { KeysAreDistinct tables.now.state }
    requires numbers { NumbersAreNew tables.now.state }
    requires left { IsTrue (has_number_left tables.now.state.next_run) }
    requires wanted { IsTrue (wants_release prep.now) }
    requires there { prep_of tables.now.state prep.now.job prep.now.node ≡ Some prep.now }
    ensures { IfOk result (IsRule (release_on tables.now.state prep.now) tables.now.state) }
{
    match tables.find_node(prep.node) {
        None => Ok(None),
        Some(node) => release_at(alloc, tables, prep, node),
    }
}

/// The plan that makes a release run for the first preparation for which one is to be made. None is made once run numbers are used
/// up.
pub fn release_first(alloc: Global, tables: &Tables) -> Result<Option<Plan>, NoMemory>
    requires keys { KeysAreDistinct tables.now.state }
    requires numbers { NumbersAreNew tables.now.state }
    ensures { IfOk result (IsRule (release_first tables.now.state) tables.now.state) }
{
    if !has_number_left(tables.next_run()) {
        return Ok(None);
    }
    match first_to_release(tables) {
        None => Ok(None),
        Some(prep) => release_on(alloc, tables, prep),
    }
}
