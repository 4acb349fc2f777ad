//! The calls and reads of a schedule in its turn.
ghost use Rattle.std.specs.Prelude.{◌≡◌, ◌<◌, [], IfOk, IfErr, OnErr};
ghost use Rattle.schedule_rows.specs.Calls.{IsCallFor};
ghost use Rattle.schedule_rows.specs.Jobs.{add_job_asked, add_tasks_asked, patch_asked, job_read};
ghost use Rattle.schedule_rows.specs.Turns.{at_stage, fired_for, patches, adds_tasks, adds_job, adds_job_if_free, fires as fires_part};
ghost use Rattle.batch_schedule.specs.Runs.{MakesCall, ReadShows, ReadFails, RunsPart};

use batch_desk::Ask;
use bt_base::{Moment, NoMemory};
use schedule_rows::{
    CallOutcome, Fire, FireCall, LAST_JOB_NUMBER, ScheduleRow, Stage, is_free, outcome_of,
};
use std::alloc::Global;

/// Makes the call, and adds it to the fires. The only error is out of memory before the call; then it is not made.
fn ask_call<A: Ask>(
    asker: &mut A,
    alloc: Global,
    now: Moment,
    call: FireCall,
    fires: &mut Vec<Fire>,
) -> Result<CallOutcome, NoMemory>
    requires { IsCallFor call.job call.word call.event }
    ensures asked { IfOk result (λ h. MakesCall A.exchanged asker.old asker.new now call.event fires.old.items fires.new.items h) }
    ensures asker { OnErr result (asker.new ≡ asker.old) }
    ensures fires { OnErr result (fires.new.items ≡ fires.old.items) }
{
    if fires.reserve(1).is_err() {
        drop(call);
        return Err(NoMemory);
    }
    let FireCall { job, word, event } = call;
    let answer = asker.ask(alloc, now, event);
    let outcome = outcome_of(&answer);
    fires.push_reserved(Fire { job, word, answer });
    Ok(outcome)
}

/// Makes the call that lets the last job end once its tasks are completed. The only error is out of memory before the call.
fn call_patch<A: Ask>(
    asker: &mut A,
    alloc: Global,
    now: Moment,
    row: &ScheduleRow,
    fires: &mut Vec<Fire>,
) -> Result<CallOutcome, NoMemory>
    ensures asked { IfOk result (λ h. MakesCall A.exchanged asker.old asker.new now (patch_asked row.now) fires.old.items fires.new.items h) }
    ensures asker { OnErr result (asker.new ≡ asker.old) }
    ensures fires { OnErr result (fires.new.items ≡ fires.old.items) }
{
    let call = row.patch_call(alloc)?;
    ask_call(asker, alloc, now, call, fires)
}

/// Makes the call that adds the tasks of the last job. The only error is out of memory before the call.
fn call_tasks<A: Ask>(
    asker: &mut A,
    alloc: Global,
    now: Moment,
    row: &ScheduleRow,
    fires: &mut Vec<Fire>,
) -> Result<CallOutcome, NoMemory>
    ensures asked { IfOk result (λ h. MakesCall A.exchanged asker.old asker.new now (add_tasks_asked row.now) fires.old.items fires.new.items h) }
    ensures asker { OnErr result (asker.new ≡ asker.old) }
    ensures fires { OnErr result (fires.new.items ≡ fires.old.items) }
{
    let call = row.add_tasks_call(alloc)?;
    ask_call(asker, alloc, now, call, fires)
}

/// Makes the call that adds the next job. The only error is out of memory before the call.
fn call_job<A: Ask>(
    asker: &mut A,
    alloc: Global,
    now: Moment,
    row: &ScheduleRow,
    fires: &mut Vec<Fire>,
) -> Result<CallOutcome, NoMemory>
    requires { row.now.number < LAST_JOB_NUMBER }
    ensures asked { IfOk result (λ h. MakesCall A.exchanged asker.old asker.new now (add_job_asked row.now) fires.old.items fires.new.items h) }
    ensures asker { OnErr result (asker.new ≡ asker.old) }
    ensures fires { OnErr result (fires.new.items ≡ fires.old.items) }
{
    let call = row.add_job_call(alloc)?;
    ask_call(asker, alloc, now, call, fires)
}

/// Reads whether the last job is completed or not there. The only error is out of memory.
fn look_free<A: Ask>(asker: &mut A, alloc: Global, row: &ScheduleRow) -> Result<bool, NoMemory>
    ensures shown { IfOk result (λ free. ReadShows A.exchanged asker.old asker.new (job_read row.now) free) }
    ensures none { IfErr result (λ e. ReadFails A.exchanged asker.old asker.new (job_read row.now) e) }
{
    let read = row.job_read(alloc)?;
    let reply = asker.look(alloc, &read)?;
    Ok(is_free(&reply))
}

/// Lets the last job end once its tasks are completed, if the schedule says so; then nothing remains to be requested. Returns false if memory
/// ran out.
pub fn ask_patch<A: Ask>(
    asker: &mut A,
    alloc: Global,
    now: Moment,
    row: &mut ScheduleRow,
    fires: &mut Vec<Fire>,
) -> bool
    ensures { RunsPart A.exchanged (patches now row.old) asker.old asker.new row.new fires.old.items fires.new.items result }
{
    if !row.terminates() {
        row.set_stage(Stage::Idle);
        return true;
    }
    match call_patch(asker, alloc, now, row, fires) {
        Ok(CallOutcome::Created) => {
            row.set_stage(Stage::Idle);
            true
        }
        Ok(CallOutcome::Made) => {
            row.set_stage(Stage::Idle);
            true
        }
        Ok(CallOutcome::Missed) => true,
        Ok(CallOutcome::OutOfMemory) => false,
        Err(_) => false,
    }
}

/// Records that only the patch remains, and requests it. Returns false if memory ran out.
fn ask_patch_next<A: Ask>(
    asker: &mut A,
    alloc: Global,
    now: Moment,
    row: &mut ScheduleRow,
    fires: &mut Vec<Fire>,
) -> bool
    ensures { RunsPart A.exchanged (patches now (at_stage Stage.Patch row.old)) asker.old asker.new row.new fires.old.items fires.new.items result }
{
    row.set_stage(Stage::Patch);
    ask_patch(asker, alloc, now, row, fires)
}

/// Adds the tasks of the last job, if there are any, and then requests the patch. Returns false if memory ran out.
pub fn ask_tasks<A: Ask>(
    asker: &mut A,
    alloc: Global,
    now: Moment,
    row: &mut ScheduleRow,
    fires: &mut Vec<Fire>,
) -> bool
    ensures { RunsPart A.exchanged (adds_tasks now row.old) asker.old asker.new row.new fires.old.items fires.new.items result }
{
    if !row.has_tasks() {
        return ask_patch_next(asker, alloc, now, row, fires);
    }
    match call_tasks(asker, alloc, now, row, fires) {
        Ok(CallOutcome::Created) => ask_patch_next(asker, alloc, now, row, fires),
        Ok(CallOutcome::Made) => ask_patch_next(asker, alloc, now, row, fires),
        Ok(CallOutcome::Missed) => true,
        Ok(CallOutcome::OutOfMemory) => false,
        Err(_) => false,
    }
}

/// Records the job that was created for this occurrence, and adds its tasks. Returns false if memory ran out.
fn ask_tasks_next<A: Ask>(
    asker: &mut A,
    alloc: Global,
    now: Moment,
    occurrence: u64,
    row: &mut ScheduleRow,
    fires: &mut Vec<Fire>,
) -> bool
    requires { row.old.number < LAST_JOB_NUMBER }
    ensures { RunsPart A.exchanged (adds_tasks now (at_stage Stage.Tasks (fired_for occurrence row.old))) asker.old asker.new row.new fires.old.items
        fires.new.items result }
{
    row.note_firing(occurrence);
    row.set_stage(Stage::Tasks);
    ask_tasks(asker, alloc, now, row, fires)
}

/// Adds the next job, for this occurrence, with its tasks and its patch. Returns false if memory ran out.
fn ask_job<A: Ask>(
    asker: &mut A,
    alloc: Global,
    now: Moment,
    occurrence: u64,
    row: &mut ScheduleRow,
    fires: &mut Vec<Fire>,
) -> bool
    requires { row.old.number < LAST_JOB_NUMBER }
    ensures { RunsPart A.exchanged (adds_job now occurrence row.old) asker.old asker.new row.new fires.old.items fires.new.items result }
{
    match call_job(asker, alloc, now, row, fires) {
        Ok(CallOutcome::Created) => ask_tasks_next(asker, alloc, now, occurrence, row, fires),
        Ok(CallOutcome::Made) => {
            row.note_firing(occurrence);
            true
        }
        Ok(CallOutcome::Missed) => true,
        Ok(CallOutcome::OutOfMemory) => false,
        Err(_) => false,
    }
}

/// Adds the next job, for this occurrence; if there was one before, only if that is completed or not there. Returns false if memory ran out.
fn ask_job_if_free<A: Ask>(
    asker: &mut A,
    alloc: Global,
    now: Moment,
    occurrence: u64,
    row: &mut ScheduleRow,
    fires: &mut Vec<Fire>,
) -> bool
    requires { row.old.number < LAST_JOB_NUMBER }
    ensures { RunsPart A.exchanged (adds_job_if_free now occurrence row.old) asker.old asker.new row.new fires.old.items fires.new.items result }
{
    if row.number() == 0 {
        return ask_job(asker, alloc, now, occurrence, row, fires);
    }
    match look_free(asker, alloc, row) {
        Ok(true) => ask_job(asker, alloc, now, occurrence, row, fires),
        Ok(false) => true,
        Err(_) => false,
    }
}

/// Adds a job with its tasks and its patch, if an occurrence is due. Returns false if memory ran out.
pub fn fire<A: Ask>(
    asker: &mut A,
    alloc: Global,
    now: Moment,
    row: &mut ScheduleRow,
    fires: &mut Vec<Fire>,
) -> bool
    ensures { RunsPart A.exchanged (fires_part now row.old) asker.old asker.new row.new fires.old.items fires.new.items result }
{
    match row.firing_at(now) {
        None => true,
        Some(occurrence) => ask_job_if_free(asker, alloc, now, occurrence, row, fires),
    }
}
