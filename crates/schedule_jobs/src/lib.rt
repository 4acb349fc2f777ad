//! The jobs of a schedule over a desk: all but the last one that it made are completed, being deleted or gone. There is no code: the clause
//! of the function is the law.
#![tactic(auto)]

ghost use Rattle.schedule_jobs.specs.Histories.{HasOneJobAtATime};

use batch_desk::Desk;
use batch_keeper::Keeper;

/// Over a desk no two jobs of a schedule are active at once: after any turns of a schedule that began without jobs, whole or cut short because
/// memory ran out, and any other exchanges of the desk between them that add no job with an id of its jobs, each of its jobs but the last one
/// is completed, being deleted or not there.
pub fn a_schedule_has_one_job_at_a_time<K: Keeper + Drop>(_desk: &Desk<K>)
    ensures { HasOneJobAtATime K.told K.faults }
{}
