//! The words of requests, as the log of calls has them.
use bt_base::Id;
use bt_rows::event::{DisableTasks, Event, EventKind};
use bt_rows::run::{Ending, RunState};
use std::alloc::AllocError;
use wire_words::push_run_ending;

/// The word of a request in a script.
fn word_of(kind: &EventKind) -> &'static str {
    match kind {
        EventKind::AddPool(_) => "add-pool",
        EventKind::DeletePool(_) => "delete-pool",
        EventKind::Resize(_, _) => "resize",
        EventKind::StopResize(_) => "stop-resize",
        EventKind::EnableAutoscale(_, _) => "enable-autoscale",
        EventKind::DisableAutoscale(_) => "disable-autoscale",
        EventKind::EvaluateAutoscale(_, _) => "evaluate-autoscale",
        EventKind::AddJob(_, _) => "add-job",
        EventKind::PatchJob(_, _) => "patch-job",
        EventKind::DisableJob(_, _) => "disable-job",
        EventKind::EnableJob(_) => "enable-job",
        EventKind::TerminateJob(_, _) => "terminate-job",
        EventKind::DeleteJob(_) => "delete-job",
        EventKind::AddTask(_, _) => "add-task",
        EventKind::AddTasks(_, _) => "add-tasks",
        EventKind::DeleteTask(_, _) => "delete-task",
        EventKind::TerminateTask(_, _) => "terminate-task",
        EventKind::ReactivateTask(_, _) => "reactivate-task",
        EventKind::Take(_) => "take",
        EventKind::End(_, _) => "end",
        EventKind::Sample(_, _) => "sample",
        EventKind::Tick => "tick",
    }
}

/// Adds a space and the id.
fn push_id(out: &mut String, id: &Id) -> Result<(), AllocError> {
    out.push(' ')?;
    out.push_str(id.as_str())
}

/// Adds a space and each of the two ids.
fn push_two(out: &mut String, first: &Id, second: &Id) -> Result<(), AllocError> {
    push_id(out, first)?;
    push_id(out, second)
}

/// Adds a space and the number of a run.
fn push_run(out: &mut String, number: u64) -> Result<(), AllocError> {
    write!(out, " {number}")
}

/// Adds a space and how a child program ended, as the line `end` of a script has it.
fn push_ending(out: &mut String, ending: Ending) -> Result<(), AllocError> {
    out.push(' ')?;
    push_run_ending(out, RunState::Ended(ending))
}

/// Adds a space and what is done to placed tasks.
fn push_option(out: &mut String, option: DisableTasks) -> Result<(), AllocError> {
    out.push_str(match option {
        DisableTasks::Requeue => " requeue",
        DisableTasks::Terminate => " terminate",
        DisableTasks::Wait => " wait",
    })
}

/// Adds what the request names: the ids of its pool, job or task, the number of its run.
fn push_names(out: &mut String, kind: &EventKind) -> Result<(), AllocError> {
    match kind {
        EventKind::AddPool(spec) => push_id(out, &spec.get().id),
        EventKind::DeletePool(id)
        | EventKind::Resize(id, _)
        | EventKind::StopResize(id)
        | EventKind::EnableAutoscale(id, _)
        | EventKind::DisableAutoscale(id)
        | EventKind::EvaluateAutoscale(id, _)
        | EventKind::AddJob(id, _)
        | EventKind::PatchJob(id, _)
        | EventKind::EnableJob(id)
        | EventKind::TerminateJob(id, _)
        | EventKind::DeleteJob(id)
        | EventKind::AddTasks(id, _)
        | EventKind::Sample(id, _) => push_id(out, id),
        EventKind::DisableJob(id, option) => {
            push_id(out, id)?;
            push_option(out, *option)
        }
        EventKind::AddTask(job, spec) => push_two(out, job, &spec.get().id),
        EventKind::DeleteTask(job, task)
        | EventKind::TerminateTask(job, task)
        | EventKind::ReactivateTask(job, task) => push_two(out, job, task),
        EventKind::Take(number) => push_run(out, *number),
        EventKind::End(number, ending) => {
            push_run(out, *number)?;
            push_ending(out, *ending)
        }
        EventKind::Tick => Ok(()),
    }
}

/// Adds the word of a request as a script has it, and the ids or the number of the run that it names, without its body. It fails only when
/// out of memory.
pub fn push_request(out: &mut String, event: &Event) -> Result<(), AllocError> {
    let kind = event.kind();
    out.push_str(word_of(kind))?;
    push_names(out, kind)
}
