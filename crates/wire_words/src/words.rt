//! The words of states and kinds. Those of Azure's states are Azure's.
ghost use Rattle.std.specs.Prelude.{◌≡◌, ◌++◌, OnOk, string_bytes};
ghost use Rattle.wire_words.specs.Words.{pool_state_word, node_state_word, task_state_word, alloc_word, fill_word, job_state_word, run_kind_word, run_state_word, prep_state_word, release_state_word, ending_text, run_ending_text, how_text, exit_text, success_word, result_word, text_or_dash};

use bt_base::{Id, Text};
use bt_rows::job::JobState;
use bt_rows::pool::{Alloc, Fill};
use bt_rows::prep::{PrepState, ReleaseState};
use bt_rows::reply::{NodeState, TaskState};
use bt_rows::run::{Ending, RunKind, RunState};
use bt_rows::task::{Closed, How};
use std::alloc::AllocError;

/// The state of a pool (Azure: state of a pool). It does not allocate.
#[tactic(auto, unfolding(crate::specs::Words::pool_state_word))]
pub fn pool_state_word(deleting: bool) -> &'static str
    ensures { result.now ≡ pool_state_word deleting }
{
    if deleting { "deleting" } else { "active" }
}

/// The state of a node (Azure: state of a compute node). It does not allocate.
#[tactic(auto, unfolding(crate::specs::Words::node_state_word))]
pub fn node_state_word(state: NodeState) -> &'static str
    ensures { result.now ≡ node_state_word state }
{
    match state {
        NodeState::Starting => "starting",
        NodeState::WaitingForStartTask => "waitingforstarttask",
        NodeState::StartTaskFailed => "starttaskfailed",
        NodeState::Idle => "idle",
        NodeState::Running => "running",
        NodeState::LeavingPool => "leavingpool",
    }
}

/// The state of a task (Azure: state of a task). It does not allocate.
#[tactic(auto, unfolding(crate::specs::Words::task_state_word))]
pub fn task_state_word(state: TaskState) -> &'static str
    ensures { result.now ≡ task_state_word state }
{
    match state {
        TaskState::Active => "active",
        TaskState::Preparing => "preparing",
        TaskState::Running => "running",
        TaskState::Completed => "completed",
    }
}

/// Whether a pool is being resized (Azure: allocationState). It does not allocate.
#[tactic(auto, unfolding(crate::specs::Words::alloc_word))]
pub fn alloc_word(alloc: Alloc) -> &'static str
    ensures { result.now ≡ alloc_word alloc }
{
    match alloc {
        Alloc::Steady => "steady",
        Alloc::Resizing => "resizing",
        Alloc::Stopping => "stopping",
    }
}

/// How tasks are distributed over the nodes of a pool (Azure: nodeFillType). It does not allocate.
#[tactic(auto, unfolding(crate::specs::Words::fill_word))]
pub fn fill_word(fill: Fill) -> &'static str
    ensures { result.now ≡ fill_word fill }
{
    match fill {
        Fill::Spread => "spread",
        Fill::Pack => "pack",
    }
}

/// The state of a job (Azure: state of a job). It does not allocate.
#[tactic(auto, unfolding(crate::specs::Words::job_state_word))]
pub fn job_state_word(state: JobState) -> &'static str
    ensures { result.now ≡ job_state_word state }
{
    match state {
        JobState::Active => "active",
        JobState::Disabling => "disabling",
        JobState::Disabled => "disabled",
        JobState::Enabling => "enabling",
        JobState::Terminating => "terminating",
        JobState::Completed => "completed",
        JobState::Deleting => "deleting",
    }
}

/// What a run executes. It does not allocate.
#[tactic(auto, unfolding(crate::specs::Words::run_kind_word))]
pub fn run_kind_word(kind: RunKind) -> &'static str
    ensures { result.now ≡ run_kind_word kind }
{
    match kind {
        RunKind::Start => "start",
        RunKind::Prep => "prep",
        RunKind::Task => "task",
        RunKind::Coordination => "coordination",
        RunKind::Release => "release",
    }
}

/// The state of a run. It does not allocate.
#[tactic(auto, unfolding(crate::specs::Words::run_state_word))]
pub fn run_state_word(state: RunState) -> &'static str
    ensures { result.now ≡ run_state_word state }
{
    match state {
        RunState::Waiting => "waiting",
        RunState::Queued => "queued",
        RunState::Taken => "taken",
        RunState::Ended(_) => "ended",
        RunState::Withdrawn => "withdrawn",
    }
}

/// The state of a preparation. It does not allocate.
#[tactic(auto, unfolding(crate::specs::Words::prep_state_word))]
pub fn prep_state_word(state: PrepState) -> &'static str
    ensures { result.now ≡ prep_state_word state }
{
    match state {
        PrepState::Running => "running",
        PrepState::Completed => "completed",
        PrepState::Failed => "failed",
    }
}

/// The state of a release task on a node. It does not allocate.
#[tactic(auto, unfolding(crate::specs::Words::release_state_word))]
pub fn release_state_word(state: ReleaseState) -> &'static str
    ensures { result.now ≡ release_state_word state }
{
    match state {
        ReleaseState::No => "no",
        ReleaseState::Running => "running",
        ReleaseState::Done => "done",
    }
}

/// Whether a task succeeded (Azure: executionInfo.result). It does not allocate.
#[tactic(auto, unfolding(crate::specs::Words::success_word))]
pub fn success_word(success: bool) -> &'static str
    ensures { result.now ≡ success_word success }
{
    if success { "success" } else { "failure" }
}

/// Whether a task succeeded, or `-` if it did not end. It does not allocate.
#[tactic(auto, unfolding(crate::specs::Words::result_word))]
pub fn result_word(closed: Option<Closed>) -> &'static str
    ensures { result.now ≡ result_word closed }
{
    match closed {
        None => "-",
        Some(closed) => success_word(closed.success),
    }
}

/// The id, or `-` if it is absent. It does not allocate.
#[tactic(auto, unfolding(crate::specs::Words::text_or_dash))]
pub fn id_or_dash(id: &Option<Id>) -> &str
    ensures { result.now ≡ text_or_dash id.now }
{
    match id {
        None => "-",
        Some(id) => id.as_str(),
    }
}

/// The text, or `-` if it is absent. It does not allocate.
#[tactic(auto, unfolding(crate::specs::Words::text_or_dash))]
pub fn text_or_dash(text: &Option<Text>) -> &str
    ensures { result.now ≡ text_or_dash text.now }
{
    match text {
        None => "-",
        Some(text) => text.as_str(),
    }
}

/// Adds the exit code, or why there is none.
#[tactic(auto, unfolding(crate::specs::Words::ending_text))]
fn push_ending(out: &mut String, ending: Ending) -> Result<(), AllocError>
    ensures { OnOk result (string_bytes out.new ≡ string_bytes out.old ++ ending_text ending) }
{
    match ending {
        Ending::Code(code) => write!(out, "{code}"),
        Ending::NoCode => out.push_str("none"),
        Ending::NotStarted => out.push_str("notstarted"),
    }
}

/// Adds how a run ended, or `-` if it did not. It fails only when out of memory.
#[tactic(auto, unfolding(crate::specs::Words::run_ending_text))]
pub fn push_run_ending(out: &mut String, state: RunState) -> Result<(), AllocError>
    ensures { OnOk result (string_bytes out.new ≡ string_bytes out.old ++ run_ending_text state) }
{
    match state {
        RunState::Ended(ending) => push_ending(out, ending),
        RunState::Waiting | RunState::Queued | RunState::Taken | RunState::Withdrawn =>
            out.push_str("-"),
    }
}

/// Adds how a task ended. It fails only when out of memory.
#[tactic(auto, unfolding(crate::specs::Words::how_text))]
pub fn push_how(out: &mut String, how: How) -> Result<(), AllocError>
    ensures { OnOk result (string_bytes out.new ≡ string_bytes out.old ++ how_text how) }
{
    match how {
        How::Ended(ending) => push_ending(out, ending),
        How::Terminated => out.push_str("terminated"),
        How::Wall => out.push_str("wall"),
    }
}

/// Adds how a task ended, or `-` if it did not. It fails only when out of memory.
#[tactic(auto, unfolding(crate::specs::Words::exit_text))]
pub fn push_exit(out: &mut String, closed: Option<Closed>) -> Result<(), AllocError>
    ensures { OnOk result (string_bytes out.new ≡ string_bytes out.old ++ exit_text closed) }
{
    match closed {
        None => out.push_str("-"),
        Some(closed) => push_how(out, closed.how),
    }
}
