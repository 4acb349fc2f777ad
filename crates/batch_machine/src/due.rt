//! Which step is due.
ghost use Rattle.std.specs.Prelude.{◌≤◌, IfOk};
ghost use Rattle.batch_model.specs.Dues.{due_step};
ghost use Rattle.batch_model.specs.Sound.{IsSound};
ghost use Rattle.machine_plans.specs.Plans.{IsRule};

use bt_base::NoMemory;
use bt_rows::plan::Plan;
use machine_index::IndexedTables;
use pool_samples::sample_first;
use std::alloc::Global;
use task_placing::place_first;

/// The plan of the first rule that applies, in the order of `due_step`; None if no rule applies. The only error is out of memory.
#[tactic(auto, using(pool_samples::proofs::SoundSamples::can_sample))]
pub fn plan_due(alloc: Global, indexed: &IndexedTables, seats: u8) -> Result<Option<Plan>, NoMemory>
    requires sound { IsSound seats indexed.now.state }
    requires few { seats ≤ 32 }
    ensures { IfOk result (IsRule (due_step seats indexed.now.state) indexed.now.state) }
{
    if let Some(plan) = sample_first(alloc, indexed)? {
        return Ok(Some(plan));
    }
    if let Some(plan) = job_machine::next_due(alloc, indexed)? {
        return Ok(Some(plan));
    }
    if let Some(plan) = pool_resize::next_due(alloc, indexed)? {
        return Ok(Some(plan));
    }
    if let Some(plan) = node_machine::next_due(alloc, indexed, seats)? {
        return Ok(Some(plan));
    }
    place_first(alloc, indexed)
}
