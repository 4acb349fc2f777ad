//! Enums whose variants have no values: all their variants.
ghost use Rattle.std.specs.Prelude.{◌≡◌};
ghost use Rattle.row_fields.specs.UnitEnums.{
  all_allocs,
  alloc_back,
  all_fills,
  fill_back,
  all_deallocs,
  dealloc_back,
  all_resize_errors,
  resize_error_back,
  all_job_states,
  job_state_back,
  all_job_actions,
  job_action_back,
  all_task_stages,
  task_stage_back,
  all_wants,
  want_back,
  all_run_kinds,
  run_kind_back,
  all_prep_states,
  prep_state_back,
  all_release_states,
  release_state_back,
  all_metrics,
  metric_back,
};

use crate::named::UnitEnum;
use bt_base::{Dealloc, Metric};
use bt_rows::job::JobState;
use bt_rows::pool::{Alloc, Fill, ResizeError};
use bt_rows::prep::{PrepState, ReleaseState};
use bt_rows::run::RunKind;
use bt_rows::task::{JobAction, TaskStage, Want};

impl UnitEnum for Alloc {
    ghost all = { all_allocs };

    ghost back = { alloc_back };

    fn all() -> &'static [Alloc] {
        &[Alloc::Steady, Alloc::Resizing, Alloc::Stopping]
    }
}

impl UnitEnum for Fill {
    ghost all = { all_fills };

    ghost back = { fill_back };

    fn all() -> &'static [Fill] {
        &[Fill::Spread, Fill::Pack]
    }
}

impl UnitEnum for Dealloc {
    ghost all = { all_deallocs };

    ghost back = { dealloc_back };

    fn all() -> &'static [Dealloc] {
        &[
            Dealloc::Requeue,
            Dealloc::Terminate,
            Dealloc::TaskCompletion,
            Dealloc::RetainedData,
        ]
    }
}

impl UnitEnum for ResizeError {
    ghost all = { all_resize_errors };

    ghost back = { resize_error_back };

    fn all() -> &'static [ResizeError] {
        &[ResizeError::AllocationTimedOut, ResizeError::ResizeStopped]
    }
}

impl UnitEnum for JobState {
    ghost all = { all_job_states };

    ghost back = { job_state_back };

    fn all() -> &'static [JobState] {
        &[
            JobState::Active,
            JobState::Disabling,
            JobState::Disabled,
            JobState::Enabling,
            JobState::Terminating,
            JobState::Completed,
            JobState::Deleting,
        ]
    }
}

impl UnitEnum for JobAction {
    ghost all = { all_job_actions };

    ghost back = { job_action_back };

    fn all() -> &'static [JobAction] {
        &[JobAction::Nothing, JobAction::Disable, JobAction::Terminate]
    }
}

impl UnitEnum for TaskStage {
    ghost all = { all_task_stages };

    ghost back = { task_stage_back };

    fn all() -> &'static [TaskStage] {
        &[TaskStage::Active, TaskStage::Placed, TaskStage::Completed]
    }
}

impl UnitEnum for Want {
    ghost all = { all_wants };

    ghost back = { want_back };

    fn all() -> &'static [Want] {
        &[Want::Requeue, Want::Terminate, Want::Wall, Want::Delete]
    }
}

impl UnitEnum for RunKind {
    ghost all = { all_run_kinds };

    ghost back = { run_kind_back };

    fn all() -> &'static [RunKind] {
        &[
            RunKind::Start,
            RunKind::Prep,
            RunKind::Task,
            RunKind::Coordination,
            RunKind::Release,
        ]
    }
}

impl UnitEnum for PrepState {
    ghost all = { all_prep_states };

    ghost back = { prep_state_back };

    fn all() -> &'static [PrepState] {
        &[PrepState::Running, PrepState::Completed, PrepState::Failed]
    }
}

impl UnitEnum for ReleaseState {
    ghost all = { all_release_states };

    ghost back = { release_state_back };

    fn all() -> &'static [ReleaseState] {
        &[ReleaseState::No, ReleaseState::Running, ReleaseState::Done]
    }
}

impl UnitEnum for Metric {
    ghost all = { all_metrics };

    ghost back = { metric_back };

    fn all() -> &'static [Metric] {
        &[
            Metric::CpuPercent,
            Metric::ActiveTasks,
            Metric::RunningTasks,
            Metric::PendingTasks,
            Metric::SucceededTasks,
            Metric::FailedTasks,
            Metric::TaskSlotsPerNode,
            Metric::CurrentDedicatedNodes,
            Metric::CurrentLowPriorityNodes,
            Metric::PreemptedNodeCount,
        ]
    }
}
