//! Operations: their names, which of them have a body, and the events that they are.
ghost use Rattle.std.specs.Prelude.{◌≡◌, option_map};
ghost use Rattle.bt_base.specs.Fails.{Gives};
ghost use Rattle.wire_operations.specs.Operations.{operation_name, operation_in, pool_body, job_body, allows, event_of};

use crate::event::{
    add_job, add_pool, add_task, add_tasks, disable_job, enable_autoscale, evaluate_autoscale,
    patch_job, resize_pool, terminate_job,
};
use bt_base::{Fail, Id};
use bt_rows::event::{Event, EventKind};
use bt_rows::refusal::Refusal;
use std::alloc::Global;

/// An operation without ids. Each has a body, with the id of what it adds.
#[derive(Clone, Copy, Debug, PartialEq, Eq)]
pub enum ServiceOperation {
    /// A pool is added (Azure: Create Pool).
    AddPool,
    /// A job is added (Azure: Create Job).
    AddJob,
}

/// An operation that is asked of a pool by its id.
#[derive(Clone, Copy, Debug, PartialEq, Eq)]
pub enum PoolOperation {
    /// The pool is deleted (Azure: Delete Pool).
    Delete,
    /// The pool is resized (Azure: Resize Pool).
    Resize,
    /// The resize of the pool is stopped (Azure: Stop Pool Resize).
    StopResize,
    /// The pool scales automatically from now on (Azure: Enable Pool Auto Scale).
    EnableAutoscale,
    /// The pool no longer scales automatically (Azure: Disable Pool Auto Scale).
    DisableAutoscale,
    /// A formula is evaluated over the pool (Azure: Evaluate Pool Auto Scale).
    EvaluateAutoscale,
}

/// An operation that is asked of a job by its id.
#[derive(Clone, Copy, Debug, PartialEq, Eq)]
pub enum JobOperation {
    /// The job is changed (Azure: Update Job).
    Patch,
    /// The job is disabled (Azure: Disable Job).
    Disable,
    /// The job is enabled (Azure: Enable Job).
    Enable,
    /// The job is terminated (Azure: Terminate Job).
    Terminate,
    /// The job is deleted (Azure: Delete Job).
    Delete,
    /// A task is added to the job (Azure: Create Task).
    AddTask,
    /// Tasks are added to the job (Azure: Create Task Collection).
    AddTasks,
}

/// An operation that is asked of a task by the id of its job and its own. None of them has a body.
#[derive(Clone, Copy, Debug, PartialEq, Eq)]
pub enum TaskOperation {
    /// The task is deleted (Azure: Delete Task).
    Delete,
    /// The task is terminated (Azure: Terminate Task).
    Terminate,
    /// The task is made active again (Azure: Reactivate Task).
    Reactivate,
}

/// An operation, by what its ids name.
#[derive(Clone, Copy, Debug, PartialEq, Eq)]
pub enum Operation {
    /// One without ids.
    Service(ServiceOperation),
    /// One with the id of a pool.
    Pool(PoolOperation),
    /// One with the id of a job.
    Job(JobOperation),
    /// One with the ids of a job and of a task of it.
    Task(TaskOperation),
}

/// An operation with the ids of what it is asked of.
#[derive(Drop)]
pub enum Asked {
    /// An operation without ids.
    Service(ServiceOperation),
    /// One that is asked of the pool with this id.
    Pool(PoolOperation, Id),
    /// One that is asked of the job with this id.
    Job(JobOperation, Id),
    /// One that is asked of a task: the ids of its job and of the task.
    Task(TaskOperation, Id, Id),
}

/// Whether an operation has a body.
#[derive(Clone, Copy, Debug, PartialEq, Eq)]
pub enum BodyRule {
    /// It has none.
    Absent,
    /// It has one.
    Required,
    /// It may have one.
    Optional,
}

impl BodyRule {
    /// Whether an operation with this rule may be asked with a body, if there is one, or else without. It does not allocate.
    pub fn allows(self, is_there: bool) -> bool
        ensures { result ≡ allows self is_there }
    {
        match self {
            BodyRule::Absent => !is_there,
            BodyRule::Required => is_there,
            BodyRule::Optional => true,
        }
    }
}

impl PoolOperation {
    /// Whether it has a body. It does not allocate.
    pub fn body(self) -> BodyRule
        ensures { result ≡ pool_body self }
    {
        match self {
            PoolOperation::Delete => BodyRule::Absent,
            PoolOperation::Resize => BodyRule::Required,
            PoolOperation::StopResize => BodyRule::Absent,
            PoolOperation::EnableAutoscale => BodyRule::Required,
            PoolOperation::DisableAutoscale => BodyRule::Absent,
            PoolOperation::EvaluateAutoscale => BodyRule::Required,
        }
    }
}

impl JobOperation {
    /// Whether it has a body. It does not allocate.
    pub fn body(self) -> BodyRule
        ensures { result ≡ job_body self }
    {
        match self {
            JobOperation::Patch => BodyRule::Required,
            JobOperation::Disable => BodyRule::Required,
            JobOperation::Enable => BodyRule::Absent,
            JobOperation::Terminate => BodyRule::Optional,
            JobOperation::Delete => BodyRule::Absent,
            JobOperation::AddTask => BodyRule::Required,
            JobOperation::AddTasks => BodyRule::Required,
        }
    }
}

impl Operation {
    /// Its name (this project's own). It does not allocate.
    #[tactic(auto, unfolding(crate::specs::Operations::operation_name))]
    pub fn name(self) -> &'static str
        ensures { result.now ≡ operation_name self }
    {
        match self {
            Operation::Service(ServiceOperation::AddPool) => "add-pool",
            Operation::Service(ServiceOperation::AddJob) => "add-job",
            Operation::Pool(PoolOperation::Delete) => "delete-pool",
            Operation::Pool(PoolOperation::Resize) => "resize",
            Operation::Pool(PoolOperation::StopResize) => "stop-resize",
            Operation::Pool(PoolOperation::EnableAutoscale) => "enable-autoscale",
            Operation::Pool(PoolOperation::DisableAutoscale) => "disable-autoscale",
            Operation::Pool(PoolOperation::EvaluateAutoscale) => "evaluate-autoscale",
            Operation::Job(JobOperation::Patch) => "patch-job",
            Operation::Job(JobOperation::Disable) => "disable-job",
            Operation::Job(JobOperation::Enable) => "enable-job",
            Operation::Job(JobOperation::Terminate) => "terminate-job",
            Operation::Job(JobOperation::Delete) => "delete-job",
            Operation::Job(JobOperation::AddTask) => "add-task",
            Operation::Job(JobOperation::AddTasks) => "add-tasks",
            Operation::Task(TaskOperation::Delete) => "delete-task",
            Operation::Task(TaskOperation::Terminate) => "terminate-task",
            Operation::Task(TaskOperation::Reactivate) => "reactivate-task",
        }
    }

    /// The operation with this name, if there is one. It does not allocate.
    #[tactic(auto, unfolding(crate::specs::Operations::operation_in))]
    pub fn read(text: &[u8]) -> Option<Operation>
        ensures { result ≡ operation_in text.now }
    {
        let all = [
            Operation::Service(ServiceOperation::AddPool),
            Operation::Service(ServiceOperation::AddJob),
            Operation::Pool(PoolOperation::Delete),
            Operation::Pool(PoolOperation::Resize),
            Operation::Pool(PoolOperation::StopResize),
            Operation::Pool(PoolOperation::EnableAutoscale),
            Operation::Pool(PoolOperation::DisableAutoscale),
            Operation::Pool(PoolOperation::EvaluateAutoscale),
            Operation::Job(JobOperation::Patch),
            Operation::Job(JobOperation::Disable),
            Operation::Job(JobOperation::Enable),
            Operation::Job(JobOperation::Terminate),
            Operation::Job(JobOperation::Delete),
            Operation::Job(JobOperation::AddTask),
            Operation::Job(JobOperation::AddTasks),
            Operation::Task(TaskOperation::Delete),
            Operation::Task(TaskOperation::Terminate),
            Operation::Task(TaskOperation::Reactivate),
        ];
        all.iter()
            .copied()
            .find(|operation| text == operation.name().as_bytes())
    }
}

/// The event that this operation is with these ids and the bytes of this body, None if there is no body.
///
/// A body that is missing where the operation has one is `UnreadableBody`; its other faults are those that the functions of wire_bodies
/// state. Operations without a body do not look at it. It fails with `Memory` when out of memory.
#[tactic(auto, unfolding(crate::specs::Operations::event_of))]
pub fn read_operation(
    alloc: Global,
    asked: Asked,
    body: Option<&[u8]>,
) -> Result<Event, Fail<Refusal>>
    ensures { Gives result (event_of asked (option_map (λ bytes. bytes.now) body.entry)) }
{
    match asked {
        Asked::Service(ServiceOperation::AddPool) => add_pool(alloc, body),
        Asked::Service(ServiceOperation::AddJob) => add_job(alloc, body),
        Asked::Pool(PoolOperation::Delete, pool) => Ok(Event::new(EventKind::DeletePool(pool))),
        Asked::Pool(PoolOperation::Resize, pool) => resize_pool(alloc, pool, body),
        Asked::Pool(PoolOperation::StopResize, pool) => Ok(Event::new(EventKind::StopResize(pool))),
        Asked::Pool(PoolOperation::EnableAutoscale, pool) => enable_autoscale(alloc, pool, body),
        Asked::Pool(PoolOperation::DisableAutoscale, pool) => {
            Ok(Event::new(EventKind::DisableAutoscale(pool)))
        }
        Asked::Pool(PoolOperation::EvaluateAutoscale, pool) => {
            evaluate_autoscale(alloc, pool, body)
        }
        Asked::Job(JobOperation::Patch, job) => patch_job(alloc, job, body),
        Asked::Job(JobOperation::Disable, job) => disable_job(alloc, job, body),
        Asked::Job(JobOperation::Enable, job) => Ok(Event::new(EventKind::EnableJob(job))),
        Asked::Job(JobOperation::Terminate, job) => terminate_job(alloc, job, body),
        Asked::Job(JobOperation::Delete, job) => Ok(Event::new(EventKind::DeleteJob(job))),
        Asked::Job(JobOperation::AddTask, job) => add_task(alloc, job, body),
        Asked::Job(JobOperation::AddTasks, job) => add_tasks(alloc, job, body),
        Asked::Task(TaskOperation::Delete, job, task) => {
            Ok(Event::new(EventKind::DeleteTask(job, task)))
        }
        Asked::Task(TaskOperation::Terminate, job, task) => {
            Ok(Event::new(EventKind::TerminateTask(job, task)))
        }
        Asked::Task(TaskOperation::Reactivate, job, task) => {
            Ok(Event::new(EventKind::ReactivateTask(job, task)))
        }
    }
}
