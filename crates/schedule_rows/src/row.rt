//! Schedules as rows of a calendar.
ghost use Rattle.std.specs.Prelude.{◌≡◌, ◌≤◌, ◌<◌, ◌+◌, ◌-◌, true, None, IfOk, IfSome, length};
ghost use Rattle.std.specs.List.{list_all};
ghost use Rattle.bt_rows.specs.Ranges.{is_job_spec_in_range, is_task_spec_in_range};
ghost use Rattle.schedule_rows.specs.Rows.{added_at};
ghost use Rattle.schedule_rows.specs.Occurrences.{occurrence, passed_intervals, is_within, due_at, is_new, is_in_window, is_before_end, may_fire_for};
ghost use Rattle.schedule_rows.specs.Occurrences.{due_to_fire, firing_at, is_over, completed_at};
ghost use Rattle.schedule_rows.specs.Jobs.{job_id, without_action, termination, add_job_asked, add_tasks_asked, patch_asked, job_read, has_tasks};
ghost use Rattle.schedule_rows.specs.Turns.{fired_for, at_stage};
ghost use Rattle.schedule_rows.specs.OwnEvents.{has_id};
ghost use Rattle.schedule_rows.specs.Calls.{IsCallFor};

use crate::fire::{FireCall, FireWord};
use crate::limits::{LAST_JOB_NUMBER, SCHEDULE_ID_LIMIT, SCHEDULE_TASK_LIMIT};
use crate::period::Period;
use crate::stage::{ScheduleState, Stage};
use bt_base::{Duplicate, Fail, Id, List, Moment, NoMemory, Shared};
use bt_rows::event::{Event, EventKind, JobPatch, JobSpec, TaskSpec};
use std::alloc::Global;
use std::marker::Model;
use table_reads::Read;

/// When a schedule fires (Azure: schedule of a job schedule).
#[derive(Clone, Copy, Debug, PartialEq, Eq)]
pub struct Times {
    /// Its first occurrence, in milliseconds since 1970 (Azure: doNotRunUntil).
    pub first: u64,
    /// The moment from which it no longer fires, in milliseconds since 1970; None for no end (Azure: doNotRunAfter).
    pub until: Option<u64>,
    /// How long after an occurrence it may fire for it; None for no limit (Azure: startWindow).
    pub window: Option<Period>,
    /// The time from one occurrence to the next; None for a single occurrence (Azure: recurrenceInterval).
    pub interval: Option<Period>,
}

/// A schedule: its times, the job and the tasks of each firing, its state, and its last firing. Its key is its id; case is ignored.
#[derive(Drop)]
pub struct ScheduleRow {
    id: Id,
    times: Times,
    job: Shared<JobSpec>,
    tasks: Shared<List<TaskSpec>>,
    state: ScheduleState,
    number: u64,
    last: Option<u64>,
    stage: Stage,
}

impl Model for ScheduleRow {
    ghost use Rattle.schedule_rows.specs.Rows.{Schedule, KeepsBounds};

    ghost Value = { Schedule };

    ghost view = { λ r. record {
      id = r.id;
      first = r.times.first;
      until = r.times.until;
      window = r.times.window;
      interval = r.times.interval;
      job = r.job;
      tasks = r.tasks;
      state = r.state;
      number = r.number;
      last = r.last;
      stage = r.stage;
    } };

    ghost invariant = { λ r. KeepsBounds r.id r.job r.tasks r.number };
}

/// The number of whole intervals in a time, in milliseconds; 0 without an interval.
fn passed_intervals(interval: Option<Period>, time: u64) -> u64
    ensures { result ≡ passed_intervals interval time }
{
    match interval {
        None => 0,
        Some(period) => time / period.ms(),
    }
}

/// The milliseconds since the greatest occurrence at or before the moment.
fn since_due(first: u64, interval: Option<Period>, now: u64) -> u64
    requires { first ≤ now }
    ensures { now ≡ occurrence first interval (passed_intervals interval (now - first)) + result }
{
    match interval {
        None => now - first,
        Some(period) => (now - first) % period.ms(),
    }
}

/// Whether the occurrence is after the last one for which a job was requested.
fn is_new(last: Option<u64>, occurrence: u64) -> bool
    ensures { result ≡ is_new last occurrence }
{
    match last {
        None => true,
        Some(last) => last < occurrence,
    }
}

/// Whether this number of milliseconds after an occurrence is within the window.
fn is_within(window: Option<Period>, since: u64) -> bool
    ensures { result ≡ is_within window since }
{
    match window {
        None => true,
        Some(period) => since < period.ms(),
    }
}

/// Whether the moment is before the end.
fn is_before_end(until: Option<u64>, now: u64) -> bool
    ensures { result ≡ is_before_end until now }
{
    match until {
        None => true,
        Some(end) => now < end,
    }
}

/// A copy of the job that is not terminated when it has no open tasks: it is added before its tasks are. The only error is out of memory.
fn without_action(spec: &JobSpec) -> Result<JobSpec, NoMemory>
    ensures { IfOk result (λ copy. copy ≡ without_action spec.now) }
{
    let pool = spec.pool.copy()?;
    let prep = spec.prep.clone()?;
    let release = spec.release.clone()?;
    Ok(JobSpec {
        pool,
        priority: spec.priority,
        parallel: spec.parallel,
        retries: spec.retries,
        wall: spec.wall,
        deps: spec.deps,
        on_all: false,
        on_fail: spec.on_fail,
        prep,
        release,
    })
}

impl ScheduleRow {
    /// A schedule that is not yet added: active and without jobs. It does not allocate.
    pub fn new(
        id: Id,
        times: Times,
        job: Shared<JobSpec>,
        tasks: Shared<List<TaskSpec>>,
    ) -> ScheduleRow
        requires short { length id ≤ SCHEDULE_ID_LIMIT }
        requires job_range { is_job_spec_in_range job ≡ true }
        requires task_ranges { list_all is_task_spec_in_range tasks ≡ true }
        requires few { length tasks ≤ SCHEDULE_TASK_LIMIT }
        ensures { result ≡ record {
          id = id;
          first = times.first;
          until = times.until;
          window = times.window;
          interval = times.interval;
          job = job;
          tasks =
              tasks;
          state = ScheduleState.Active;
          number = 0;
          last = None;
          stage = Stage.Idle;
        } }
    {
        ScheduleRow {
            id,
            times,
            job,
            tasks,
            state: ScheduleState::Active,
            number: 0,
            last: None,
            stage: Stage::Idle,
        }
    }

    /// Its id.
    pub fn id(&self) -> &Id
        ensures { result.now ≡ self.now.id }
    {
        &self.id
    }

    /// Its state.
    pub fn state(&self) -> ScheduleState
        ensures { result ≡ self.now.state }
    {
        self.state
    }

    /// What remains to be requested for its last job.
    pub fn stage(&self) -> Stage
        ensures { result ≡ self.now.stage }
    {
        self.stage
    }

    /// The number of jobs that it has requested, which is the number of the last one.
    pub fn number(&self) -> u64
        ensures { result ≡ self.now.number }
    {
        self.number
    }

    /// Whether its jobs are terminated once their tasks are completed (Azure: onAllTasksComplete).
    pub fn terminates(&self) -> bool
        ensures { result ≡ self.now.job.on_all }
    {
        self.job.get().on_all
    }

    /// Whether its jobs have tasks.
    pub fn has_tasks(&self) -> bool
        ensures { result ≡ has_tasks self.now }
    {
        match self.tasks.get().as_slice() {
            [] => false,
            [_, ..] => true,
        }
    }

    /// Whether it has this id; case is ignored. It does not allocate.
    pub fn has_id(&self, id: &Id) -> bool
        ensures { result ≡ has_id id.now self.now }
    {
        self.id.same(id)
    }

    /// The number of the greatest occurrence at or before the moment; None if there is none.
    fn due_at(&self, now: Moment) -> Option<u64>
        ensures { result ≡ due_at self.now.first self.now.interval now }
    {
        let now = now.ms();
        if self.times.first <= now {
            Some(passed_intervals(self.times.interval, now - self.times.first))
        } else {
            None
        }
    }

    /// Whether the schedule may fire for the greatest occurrence at or before the moment.
    #[tactic(auto, using(crate::proofs::Windows::window_by_since))]
    fn may_fire_for(&self, now: u64, due: u64) -> bool
        requires begun { self.now.first ≤ now }
        requires due { due ≡ passed_intervals self.now.interval (now - self.now.first) }
        ensures { result ≡ may_fire_for self.now now due }
    {
        let times = self.times;
        let since = since_due(times.first, times.interval, now);
        is_new(self.last, due) && is_within(times.window, since) && is_before_end(times.until, now)
    }

    /// The occurrence for which it is to fire at this moment if its previous job is over; None if there is none, if it is not active, or
    /// if something remains to be requested. It does not allocate.
    pub fn firing_at(&self, now: Moment) -> Option<u64>
        ensures value { result ≡ firing_at now self.now }
        ensures numbered { IfSome result (λ _. self.now.number < LAST_JOB_NUMBER) }
    {
        let can = self.state.is_active() && self.stage.is_idle() && self.number < LAST_JOB_NUMBER;
        if !can {
            return None;
        }
        let due = self.due_at(now)?;
        if self.may_fire_for(now.ms(), due) {
            Some(due)
        } else {
            None
        }
    }

    /// Whether it will never fire again.
    fn is_over(&self, now: Moment) -> bool
        ensures { result ≡ is_over now self.now }
    {
        let times = self.times;
        (times.interval.is_none() && self.last.is_some())
            || !is_before_end(times.until, now.ms())
            || LAST_JOB_NUMBER <= self.number
    }

    /// Completes it if it will never fire again and nothing remains to be requested. It does not allocate.
    pub fn complete_at(&mut self, now: Moment)
        ensures { self.new ≡ completed_at now self.old }
    {
        if self.stage.is_idle() && self.is_over(now) {
            self.state = ScheduleState::Completed;
        }
    }

    /// Starts it at this moment: it is active, has no jobs, and does not fire for earlier occurrences. It does not allocate.
    pub fn begin_at(&mut self, now: Moment)
        ensures { self.new ≡ added_at now self.old }
    {
        let first = now.ms().max(self.times.first);
        self.times.first = first;
        self.state = ScheduleState::Active;
        self.number = 0;
        self.last = None;
        self.stage = Stage::Idle;
    }

    /// Sets its state. It does not allocate.
    pub fn set_state(&mut self, state: ScheduleState)
        ensures { self.new ≡ record self.old { state = state } }
    {
        self.state = state;
    }

    /// Sets what remains to be requested for its last job. It does not allocate.
    pub fn set_stage(&mut self, stage: Stage)
        ensures { self.new ≡ at_stage stage self.old }
    {
        self.stage = stage;
    }

    /// Records that its next job was requested, for this occurrence. It does not allocate.
    pub fn note_firing(&mut self, occurrence: u64)
        requires { self.old.number < LAST_JOB_NUMBER }
        ensures { self.new ≡ fired_for occurrence self.old }
    {
        self.number += 1;
        self.last = Some(occurrence);
    }

    /// The id of its job with this number. The only error is out of memory.
    #[tactic(auto, unfolding(crate::specs::Jobs::job_id), using(crate::proofs::JobIds::job_id_read))]
    fn job_id(&self, alloc: Global, number: u64) -> Result<Id, NoMemory>
        requires { number ≤ LAST_JOB_NUMBER }
        ensures { IfOk result (λ id. id ≡ job_id self.now.id number) }
    {
        self.id.known();
        let schedule = self.id.as_str();
        let text = format!(in alloc; "{schedule}-job-{number}")?;
        match Id::read(alloc, text.as_str()) {
            Ok(id) => Ok(id),
            Err(Fail::Memory) => Err(NoMemory),
            Err(Fail::Why(_)) => unreachable!(),
        }
    }

    /// The call that adds its next job. The only error is out of memory.
    pub fn add_job_call(&self, alloc: Global) -> Result<FireCall, NoMemory>
        requires { self.now.number < LAST_JOB_NUMBER }
        ensures asked { IfOk result (λ call. call.event ≡ add_job_asked self.now) }
        ensures shown { IfOk result (λ call. IsCallFor call.job call.word call.event) }
    {
        let job = self.job_id(alloc, self.number + 1)?;
        let spec = without_action(self.job.get())?;
        let spec = Shared::new(alloc, spec)?;
        let event = Event::new(EventKind::AddJob(job.copy()?, spec));
        Ok(FireCall {
            job,
            word: FireWord::AddJob,
            event,
        })
    }

    /// The call that adds the tasks of its last job. The only error is out of memory.
    pub fn add_tasks_call(&self, alloc: Global) -> Result<FireCall, NoMemory>
        ensures asked { IfOk result (λ call. call.event ≡ add_tasks_asked self.now) }
        ensures shown { IfOk result (λ call. IsCallFor call.job call.word call.event) }
    {
        let job = self.job_id(alloc, self.number)?;
        let tasks = self.tasks.copy()?;
        let event = Event::new(EventKind::AddTasks(job.copy()?, tasks));
        Ok(FireCall {
            job,
            word: FireWord::AddTasks,
            event,
        })
    }

    /// The call that lets its last job end once its tasks are completed. The only error is out of memory.
    pub fn patch_call(&self, alloc: Global) -> Result<FireCall, NoMemory>
        ensures asked { IfOk result (λ call. call.event ≡ patch_asked self.now) }
        ensures shown { IfOk result (λ call. IsCallFor call.job call.word call.event) }
    {
        let job = self.job_id(alloc, self.number)?;
        let patch = JobPatch {
            priority: None,
            parallel: None,
            limits: None,
            on_all: Some(true),
        };
        let patch = Shared::new(alloc, patch)?;
        let event = Event::new(EventKind::PatchJob(job.copy()?, patch));
        Ok(FireCall {
            job,
            word: FireWord::PatchJob,
            event,
        })
    }

    /// The read of its last job. The only error is out of memory.
    pub fn job_read(&self, alloc: Global) -> Result<Read, NoMemory>
        ensures { IfOk result (λ read. read ≡ job_read self.now) }
    {
        Ok(Read::GetJob(self.job_id(alloc, self.number)?))
    }
}
