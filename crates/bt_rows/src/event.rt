//! Events, and the contents of their bodies.
ghost use Rattle.std.specs.Prelude.{◌≡◌, true};
ghost use Rattle.bt_rows.specs.Ranges.{is_event_in_range};

use crate::job::ReleaseTask;
use crate::pool::{Dealloc, Fill, StartTask};
use crate::run::Ending;
use crate::settings::Settings;
use bt_base::{CommandLine, Id, List, Num, Shared, Text};
use std::marker::Model;

/// How a pool is to scale automatically.
pub struct Scaling {
    /// The formula, at most 8,192 bytes (Azure: autoScaleFormula).
    pub formula: Text,
    /// The time between evaluations, in milliseconds, 300,000 to 604,800,000 (Azure: autoScaleEvaluationInterval).
    pub interval: u64,
}

impl Drop for Scaling {
    fn drop(self) {
        let Scaling {
            formula: _formula,
            interval: _interval,
        } = self;
    }
}

/// The body of `add-pool` (Azure: BatchPoolCreateContent).
pub struct PoolSpec {
    /// The id (Azure: id).
    pub id: Id,
    /// The wanted number of dedicated nodes, 0 to 1,000; 0 if the pool scales automatically (Azure: targetDedicatedNodes).
    pub dedicated: u32,
    /// The wanted number of low-priority nodes, which is 0 in this project's profile (Azure: targetLowPriorityNodes).
    pub low: u32,
    /// The slots of each node, 1 to 8 (Azure: taskSlotsPerNode).
    pub slots: u8,
    /// How tasks are distributed over the nodes (Azure: taskSchedulingPolicy.nodeFillType).
    pub fill: Fill,
    /// Whether nodes may communicate (Azure: enableInterNodeCommunication).
    pub inter: bool,
    /// The timeout of resizes in milliseconds, 300,000 to 864,000,000 (Azure: resizeTimeout).
    pub timeout: u64,
    /// The start task; None if there is none (Azure: startTask).
    pub start: Option<StartTask>,
    /// How it scales automatically; None if it does not (Azure: enableAutoScale).
    pub scale: Option<Scaling>,
}

impl Drop for PoolSpec {
    fn drop(self) {
        let PoolSpec {
            id: _id,
            dedicated: _dedicated,
            low: _low,
            slots: _slots,
            fill: _fill,
            inter: _inter,
            timeout: _timeout,
            start: _start,
            scale: _scale,
        } = self;
    }
}

/// The body of `resize` (Azure: BatchPoolResizeContent). It has at least one of the two targets.
pub struct ResizeSpec {
    /// The wanted number of dedicated nodes, 0 to 1,000; None leaves the target (Azure: targetDedicatedNodes).
    pub dedicated: Option<u32>,
    /// The wanted number of low-priority nodes, which is 0 in this project's profile; None leaves the target (Azure:
    /// targetLowPriorityNodes).
    pub low: Option<u32>,
    /// The timeout in milliseconds, 300,000 to 864,000,000 (Azure: resizeTimeout).
    pub timeout: u64,
    /// What it does to the tasks of nodes that leave (Azure: nodeDeallocationOption).
    pub option: Dealloc,
}

impl Drop for ResizeSpec {
    fn drop(self) {
        let ResizeSpec {
            dedicated: _dedicated,
            low: _low,
            timeout: _timeout,
            option: _option,
        } = self;
    }
}

/// The body of `enable-autoscale` (Azure: BatchPoolEnableAutoScaleContent).
pub struct ScaleSpec {
    /// The formula, at most 8,192 bytes; None leaves the one that is there (Azure: autoScaleFormula).
    pub formula: Option<Text>,
    /// The time between evaluations, in milliseconds, 300,000 to 604,800,000; None leaves the one that is there, or is
    /// 900,000 (Azure: autoScaleEvaluationInterval).
    pub interval: Option<u64>,
}

impl Drop for ScaleSpec {
    fn drop(self) {
        let ScaleSpec {
            formula: _formula,
            interval: _interval,
        } = self;
    }
}

/// The body of `add-job` beside its id (Azure: BatchJobCreateContent).
pub struct JobSpec {
    /// The id of the pool that its tasks run in (Azure: poolInfo.poolId).
    pub pool: Id,
    /// The priority, -1,000 to 1,000; a greater number is a higher one (Azure: priority).
    pub priority: i32,
    /// The greatest number of placed tasks, 1 to 2,147,483,647, or -1 for no limit (Azure: maxParallelTasks).
    pub parallel: i32,
    /// How often a task that names no number is tried again after a failure: 0 to 1,000,000, or -1 for no limit (Azure:
    /// constraints.maxTaskRetryCount).
    pub retries: i32,
    /// The longest time from its creation to its end, in milliseconds, 0 to 3,153,600,000,000; None for no limit (Azure:
    /// constraints.maxWallClockTime).
    pub wall: Option<u64>,
    /// Whether its tasks may depend on others (Azure: usesTaskDependencies).
    pub deps: bool,
    /// Whether it is terminated once all its tasks are completed (Azure: onAllTasksComplete).
    pub on_all: bool,
    /// Whether the job action of an ended task is done (Azure: onTaskFailure).
    pub on_fail: bool,
    /// What runs on a node before its first task of the job; None if there is none (Azure: jobPreparationTask).
    pub prep: Option<StartTask>,
    /// What runs when the job ends, only beside a preparation; None if there is none (Azure: jobReleaseTask).
    pub release: Option<ReleaseTask>,
}

impl Drop for JobSpec {
    fn drop(self) {
        let JobSpec {
            pool: _pool,
            priority: _priority,
            parallel: _parallel,
            retries: _retries,
            wall: _wall,
            deps: _deps,
            on_all: _on_all,
            on_fail: _on_fail,
            prep: _prep,
            release: _release,
        } = self;
    }
}

/// The constraints that a change of a job sets (Azure: constraints).
pub struct Limits {
    /// How often a task that names no number is tried again after a failure: 0 to 1,000,000, or -1 for no limit (Azure:
    /// maxTaskRetryCount).
    pub retries: i32,
    /// The longest time from the job's creation to its end, in milliseconds, 0 to 3,153,600,000,000; None for no limit
    /// (Azure: maxWallClockTime).
    pub wall: Option<u64>,
}

impl Drop for Limits {
    fn drop(self) {
        let Limits {
            retries: _retries,
            wall: _wall,
        } = self;
    }
}

/// The body of `patch-job` (Azure: BatchJobUpdateContent). What is None is left as it is.
pub struct JobPatch {
    /// The priority, -1,000 to 1,000 (Azure: priority).
    pub priority: Option<i32>,
    /// The greatest number of placed tasks, 1 to 2,147,483,647, or -1 for no limit (Azure: maxParallelTasks).
    pub parallel: Option<i32>,
    /// The constraints, both of them (Azure: constraints).
    pub limits: Option<Limits>,
    /// Whether it is terminated once all its tasks are completed (Azure: onAllTasksComplete).
    pub on_all: Option<bool>,
}

impl Drop for JobPatch {
    fn drop(self) {
        let JobPatch {
            priority: _priority,
            parallel: _parallel,
            limits: _limits,
            on_all: _on_all,
        } = self;
    }
}

/// What `disable-job` does to placed tasks (Azure: disableTasks).
#[derive(Clone, Copy, Debug, PartialEq, Eq)]
pub enum DisableTasks {
    /// They are stopped and become active again (Azure: requeue).
    Requeue,
    /// They are stopped and complete as terminated (Azure: terminate).
    Terminate,
    /// They run to their end (Azure: wait).
    Wait,
}

/// The body of `add-task` (Azure: BatchTaskCreateContent). Contracts see it as the record of all its fields, those of the settings among
/// them.
pub struct TaskSpec {
    /// The id (Azure: id).
    pub id: Id,
    /// The command line (Azure: commandLine).
    pub line: CommandLine,
    /// The slots that it holds of its node, 1 to 8 (Azure: requiredSlots).
    pub slots: u8,
    /// What it states beside its id, its command line and its slots.
    pub settings: Settings,
}

impl Drop for TaskSpec {
    fn drop(self) {
        let TaskSpec {
            id: _id,
            line: _line,
            slots: _slots,
            settings: _settings,
        } = self;
    }
}

impl Model for TaskSpec {
    ghost use Rattle.bt_rows.specs.Tasks.{SpecFields};

    ghost Value = { SpecFields };

    ghost view = { λ t. record {
      id = t.id;
      line = t.line;
      slots = t.slots;
      retries = t.settings.retries;
      wall = t.settings.wall;
      retention = t.settings.retention;
      codes = t.settings.codes;
      ranges = t.settings.ranges;
      launch = t.settings.launch;
      other = t.settings.other;
      needs = t.settings.needs;
      spans = t.settings.spans;
      multi = t.settings.multi;
    } };
}

/// What reaches the service from outside, by its kind. Names are those of the operations of the Azure Batch REST reference
/// where it has them. Bodies, and the reason of a termination, stand in shared blocks, so that an event is small: a journal has one for
/// each of its entries.
#[derive(Drop)]
pub enum EventKind {
    /// A pool is added (Azure: Create Pool).
    AddPool(Shared<PoolSpec>),
    /// The pool with this id is deleted (Azure: Delete Pool).
    DeletePool(Id),
    /// The pool with this id is resized (Azure: Resize Pool).
    Resize(Id, Shared<ResizeSpec>),
    /// The resize of the pool with this id is stopped (Azure: Stop Pool Resize).
    StopResize(Id),
    /// The pool with this id scales automatically from now on (Azure: Enable Pool Auto Scale).
    EnableAutoscale(Id, Shared<ScaleSpec>),
    /// The pool with this id no longer scales automatically (Azure: Disable Pool Auto Scale).
    DisableAutoscale(Id),
    /// A formula is evaluated over the pool with this id, which it does not change (Azure: Evaluate Pool Auto Scale).
    EvaluateAutoscale(Id, Text),
    /// A job with this id is added (Azure: Create Job).
    AddJob(Id, Shared<JobSpec>),
    /// The job with this id is changed (Azure: Update Job).
    PatchJob(Id, Shared<JobPatch>),
    /// The job with this id is disabled (Azure: Disable Job).
    DisableJob(Id, DisableTasks),
    /// The job with this id is enabled (Azure: Enable Job).
    EnableJob(Id),
    /// The job with this id is terminated, for a reason of 1 to 256 bytes if one is stated (Azure: Terminate Job).
    TerminateJob(Id, Shared<Option<Text>>),
    /// The job with this id is deleted (Azure: Delete Job).
    DeleteJob(Id),
    /// A task is added to the job with this id (Azure: Create Task).
    AddTask(Id, Shared<TaskSpec>),
    /// Tasks are added to the job with this id, each as `AddTask` would add it (Azure: Create Task Collection).
    AddTasks(Id, Shared<List<TaskSpec>>),
    /// Of the job with the first id, the task with the second id is deleted (Azure: Delete Task).
    DeleteTask(Id, Id),
    /// Of the job with the first id, the task with the second id is terminated (Azure: Terminate Task).
    TerminateTask(Id, Id),
    /// Of the job with the first id, the task with the second id is made active again (Azure: Reactivate Task).
    ReactivateTask(Id, Id),
    /// The child program of the run with this number is being started (this project's own).
    Take(u64),
    /// The child program of the run with this number has ended like this (this project's own).
    End(u64, Ending),
    /// A sample of the processor time of the pool with this id, in percent, 0 to 100 (this project's own).
    Sample(Id, Num),
    /// Time passes (this project's own).
    Tick,
}

/// What reaches the service from outside. Its values are in their ranges, which its type keeps.
#[derive(Drop)]
pub struct Event {
    kind: EventKind,
}

impl Model for Event {
    ghost use Rattle.std.specs.Prelude.{◌≡◌, true};
    ghost use Rattle.bt_rows.specs.declared.event.EventKind.{EventKind};
    ghost use Rattle.bt_rows.specs.Ranges.{is_event_in_range};

    ghost Value = { EventKind };

    ghost view = { λ e. e.kind };

    ghost invariant = { λ e. is_event_in_range e.kind ≡ true };
}

impl Event {
    /// The event of this kind, whose values are in their ranges. It does not allocate.
    pub fn new(kind: EventKind) -> Event
        requires { is_event_in_range kind ≡ true }
        ensures { result ≡ kind }
    {
        Event { kind }
    }

    /// Its kind.
    pub fn kind(&self) -> &EventKind
        ensures kind { result.now ≡ self.now }
        ensures ranges { is_event_in_range self.now ≡ true }
    {
        &self.kind
    }

    /// Its kind, taken out of the event. It does not allocate.
    pub fn into_kind(self) -> EventKind
        ensures kind { result ≡ self }
        ensures ranges { is_event_in_range self ≡ true }
    {
        let Event { kind } = self;
        kind
    }
}
