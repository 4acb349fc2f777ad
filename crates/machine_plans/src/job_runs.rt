//! Runs of preparation and release tasks.
ghost use Rattle.std.specs.Prelude.{◌≡◌, IfOk};
ghost use Rattle.batch_model.specs.Runs.{job_run};
ghost use Rattle.machine_plans.specs.Plans.{with_moment};

use bt_base::{CommandLine, Duplicate, Id, NoMemory};
use bt_rows::run::{RunKind, RunRow, RunState};
use bt_rows::tables::Tables;

/// A queued run of the job's preparation or release task on the pool's node with this number, made at `made`, in milliseconds since
/// 1970. It has the next number. The only error is out of memory.
pub fn job_run(
    tables: &Tables,
    made: u64,
    node: u64,
    pool: &Id,
    kind: RunKind,
    line: &CommandLine,
    job: &Id,
) -> Result<RunRow, NoMemory>
    ensures { IfOk result (λ run. run ≡ job_run (with_moment made tables.now.state) node pool.now kind line.now job.now) }
{
    Ok(RunRow {
        number: tables.next_run(),
        kind,
        node,
        pool: pool.copy()?,
        job: Some(job.copy()?),
        task: None,
        attempt: 0,
        line: line.copy()?,
        slots: 0,
        state: RunState::Queued,
        asked: false,
        made,
        taken: None,
        ended: None,
    })
}
