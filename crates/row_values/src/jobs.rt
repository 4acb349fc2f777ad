//! Jobs.
ghost use Rattle.std.specs.Prelude.{◌≡◌, ◌&&◌, ◌||◌, is_some, is_none};
ghost use Rattle.bt_rows.specs.Ranges.{passes_if_some, is_priority, is_parallel, is_retry_limit, is_duration, is_start_in_range, is_release_in_range};
ghost use Rattle.batch_model.specs.WellFormed.{is_job_in_range, is_job_valid};

use crate::ranges::{is_duration_if_some, is_retry_limit, is_start_in_range};
use crate::reasons::is_reason_if_some;
use bt_rows::job::{JobRow, ReleaseTask};
use bt_rows::limits::{GREATEST_PRIORITY, LEAST_PRIORITY, RELEASE_TIME_LIMIT};

/// Whether it is -1,000 to 1,000.
fn is_priority(priority: i32) -> bool
    ensures { result ≡ is_priority priority }
{
    LEAST_PRIORITY <= priority && priority <= GREATEST_PRIORITY
}

/// Whether it is a number from 1 on, or -1 for no limit of placed tasks.
fn is_parallel(parallel: i32) -> bool
    ensures { result ≡ is_parallel parallel }
{
    -1 <= parallel && parallel != 0
}

/// Whether the longest time of the release task is at most 15 minutes in milliseconds, if there is one.
fn is_release_in_range(release: &Option<ReleaseTask>) -> bool
    ensures { result ≡ passes_if_some is_release_in_range release.now }
{
    match release {
        None => true,
        Some(release) => release.wall <= RELEASE_TIME_LIMIT,
    }
}

/// Whether the job's limits are in their ranges.
fn has_limits_in_range(job: &JobRow) -> bool
    ensures { result ≡ (is_priority job.now.priority && is_parallel job.now.parallel && is_retry_limit job.now.retries && passes_if_some is_duration job.now.wall) }
{
    is_priority(job.priority)
        && is_parallel(job.parallel)
        && is_retry_limit(job.retries)
        && is_duration_if_some(job.wall)
}

/// Whether the job's values are in their ranges. A release task comes with a preparation task only.
fn is_job_in_range(job: &JobRow) -> bool
    ensures { result ≡ is_job_in_range job.now }
{
    has_limits_in_range(job)
        && is_start_in_range(&job.prep)
        && is_release_in_range(&job.release)
        && (job.release.is_none() || job.prep.is_some())
        && is_reason_if_some(&job.reason)
}

/// Whether the job's values are in their ranges, and it was not added after `now`, in milliseconds since 1970.
pub fn is_job_valid(now: u64, job: &JobRow) -> bool
    ensures { result ≡ is_job_valid now job.now }
{
    is_job_in_range(job) && job.created <= now
}
