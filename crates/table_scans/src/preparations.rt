//! Preparations of jobs on nodes: their runs, whether tasks wait for them, and whether they are run again.
ghost use Rattle.std.specs.Prelude.{◌≡◌};
ghost use Rattle.batch_model.specs.Finding.{is_within_limit};
ghost use Rattle.batch_model.specs.Preps.{waits_for_preparation};
ghost use Rattle.batch_model.specs.Runs.{is_at_prep, is_open_preparation, prepares};
ghost use Rattle.batch_model.specs.Starts.{is_tried_again};

use crate::attempts::is_unended;
use crate::nodes::has_number_left;
use crate::runs::names;
use bt_base::Id;
use bt_rows::job::JobRow;
use bt_rows::pool::StartTask;
use bt_rows::prep::PrepRow;
use bt_rows::run::{RunKind, RunRow};
use bt_rows::tables::Tables;

/// Whether the run is a preparation run that has not ended.
fn is_open_preparation(run: &RunRow) -> bool
    ensures { result ≡ is_open_preparation run.now }
{
    run.kind == RunKind::Prep && is_unended(run.state)
}

/// Whether the run is a preparation run of the job that has not ended.
pub fn prepares(job: &Id, run: &RunRow) -> bool
    ensures { result ≡ prepares job.now run.now }
{
    is_open_preparation(run) && names(&run.job, job)
}

/// Whether the run is of the preparation's job, and on its node.
pub fn is_at_prep(prep: &PrepRow, run: &RunRow) -> bool
    ensures { result ≡ is_at_prep prep.now run.now }
{
    names(&run.job, &prep.job) && run.node == prep.node
}

/// Whether tasks of the job wait for its preparation.
pub fn waits_for_preparation(job: &JobRow) -> bool
    ensures { result ≡ waits_for_preparation job.now }
{
    match &job.prep {
        None => false,
        Some(preparation) => preparation.wait,
    }
}

/// Whether this number of failures is within the limit; -1 is no limit.
fn is_within_limit(failures: u64, limit: i32) -> bool
    ensures { result ≡ is_within_limit failures limit }
{
    if limit < 0 {
        limit == -1
    } else {
        failures <= limit as u64
    }
}

/// Whether the start task of a pool, or the preparation of a job, is run again after this number of failures.
pub fn is_tried_again(tables: &Tables, failures: u64, start: &StartTask) -> bool
    ensures { result ≡ is_tried_again tables.now.state failures start.now }
{
    is_within_limit(failures, start.retries) && has_number_left(tables.next_run())
}
