//! Disabled, enabling and completed jobs, which have no placed task.
ghost use Rattle.std.specs.Prelude.{◌≡◌, not, ◌&&◌, nat_lt, IfOk};
ghost use Rattle.kept_table.specs.Keys.{id_text};
ghost use Rattle.row_keys.specs.Numbers.{count_at};
ghost use Rattle.std.specs.List.{list_all};
ghost use Rattle.batch_model.specs.Jobs.{is_quiet};
ghost use Rattle.batch_model.specs.Variants.{JobRow as Job};
ghost use Rattle.tables_check.specs.Rules.{quiet_jobs_place_nothing};

use crate::keys::PlacedInJob;
use bt_base::NoMemory;
use bt_rows::job::{JobRow, JobState};
use bt_rows::tables::Tables;
use kept_table::KeyText;
use row_keys::{KeyNumbers, count_keys};
use std::alloc::Global;

/// Whether the job is disabled, enabling or completed.
fn is_quiet(state: JobState) -> bool
    ensures { result ≡ is_quiet state }
{
    matches!(
        state,
        JobState::Disabled | JobState::Enabling | JobState::Completed
    )
}

/// Whether the job has no placed task, if it is disabled, enabling or completed.
pub fn has_no_placed(placed: &KeyNumbers, job: &JobRow) -> bool
    ensures { result ≡ not (is_quiet job.now.state && nat_lt 0 (count_at placed.now (id_text job.now.id))) }
{
    let text = KeyText::of_id(&job.id);
    !(is_quiet(job.state) && placed.count(text.as_slice()) > 0)
}

/// Whether each disabled, enabling or completed job has none of the placed tasks.
fn have_no_placed(placed: &KeyNumbers, tables: &Tables) -> bool
    ensures { result ≡ list_all (λ (job : Job). not (is_quiet job.state && nat_lt 0 (count_at placed.now (id_text job.id)))) tables.now.state.jobs }
{
    tables.jobs().all(|job| has_no_placed(placed, job))
}

/// Whether each disabled, enabling or completed job has no placed task.
pub fn place_quiet_jobs_nothing(alloc: Global, tables: &Tables) -> Result<bool, NoMemory>
    ensures { IfOk result (λ yes. yes ≡ quiet_jobs_place_nothing tables.now.state) }
{
    let placed = count_keys::<PlacedInJob>(alloc, tables.tasks())?;
    let nothing = have_no_placed(&placed, tables);
    Ok(nothing)
}
