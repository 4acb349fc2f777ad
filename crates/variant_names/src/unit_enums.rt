//! Enums whose variants have no values. The name of a variant is that in the code.
ghost use Rattle.std.specs.Prelude.{◌≡◌};
ghost use Rattle.variant_names.specs.UnitNames.{
  alloc_name,
  fill_name,
  dealloc_name,
  resize_error_name,
  job_state_name,
  job_action_name,
  task_stage_name,
  want_name,
  run_kind_name,
  prep_state_name,
  release_state_name,
  metric_name,
};

use crate::named::Named;
use bt_base::{Dealloc, Metric};
use bt_rows::job::JobState;
use bt_rows::pool::{Alloc, Fill, ResizeError};
use bt_rows::prep::{PrepState, ReleaseState};
use bt_rows::run::RunKind;
use bt_rows::task::{JobAction, TaskStage, Want};

impl Named for Alloc {
    ghost name = { alloc_name };

    #[tactic(auto, unfolding(crate::specs::UnitNames::alloc_name))]
    fn name(self) -> &'static str {
        match self {
            Alloc::Steady => "Steady",
            Alloc::Resizing => "Resizing",
            Alloc::Stopping => "Stopping",
        }
    }
}

impl Named for Fill {
    ghost name = { fill_name };

    #[tactic(auto, unfolding(crate::specs::UnitNames::fill_name))]
    fn name(self) -> &'static str {
        match self {
            Fill::Spread => "Spread",
            Fill::Pack => "Pack",
        }
    }
}

impl Named for Dealloc {
    ghost name = { dealloc_name };

    #[tactic(auto, unfolding(crate::specs::UnitNames::dealloc_name))]
    fn name(self) -> &'static str {
        match self {
            Dealloc::Requeue => "Requeue",
            Dealloc::Terminate => "Terminate",
            Dealloc::TaskCompletion => "TaskCompletion",
            Dealloc::RetainedData => "RetainedData",
        }
    }
}

impl Named for ResizeError {
    ghost name = { resize_error_name };

    #[tactic(auto, unfolding(crate::specs::UnitNames::resize_error_name))]
    fn name(self) -> &'static str {
        match self {
            ResizeError::AllocationTimedOut => "AllocationTimedOut",
            ResizeError::ResizeStopped => "ResizeStopped",
        }
    }
}

impl Named for JobState {
    ghost name = { job_state_name };

    #[tactic(auto, unfolding(crate::specs::UnitNames::job_state_name))]
    fn name(self) -> &'static str {
        match self {
            JobState::Active => "Active",
            JobState::Disabling => "Disabling",
            JobState::Disabled => "Disabled",
            JobState::Enabling => "Enabling",
            JobState::Terminating => "Terminating",
            JobState::Completed => "Completed",
            JobState::Deleting => "Deleting",
        }
    }
}

impl Named for JobAction {
    ghost name = { job_action_name };

    #[tactic(auto, unfolding(crate::specs::UnitNames::job_action_name))]
    fn name(self) -> &'static str {
        match self {
            JobAction::Nothing => "Nothing",
            JobAction::Disable => "Disable",
            JobAction::Terminate => "Terminate",
        }
    }
}

impl Named for TaskStage {
    ghost name = { task_stage_name };

    #[tactic(auto, unfolding(crate::specs::UnitNames::task_stage_name))]
    fn name(self) -> &'static str {
        match self {
            TaskStage::Active => "Active",
            TaskStage::Placed => "Placed",
            TaskStage::Completed => "Completed",
        }
    }
}

impl Named for Want {
    ghost name = { want_name };

    #[tactic(auto, unfolding(crate::specs::UnitNames::want_name))]
    fn name(self) -> &'static str {
        match self {
            Want::Requeue => "Requeue",
            Want::Terminate => "Terminate",
            Want::Wall => "Wall",
            Want::Delete => "Delete",
        }
    }
}

impl Named for RunKind {
    ghost name = { run_kind_name };

    #[tactic(auto, unfolding(crate::specs::UnitNames::run_kind_name))]
    fn name(self) -> &'static str {
        match self {
            RunKind::Start => "Start",
            RunKind::Prep => "Prep",
            RunKind::Task => "Task",
            RunKind::Coordination => "Coordination",
            RunKind::Release => "Release",
        }
    }
}

impl Named for PrepState {
    ghost name = { prep_state_name };

    #[tactic(auto, unfolding(crate::specs::UnitNames::prep_state_name))]
    fn name(self) -> &'static str {
        match self {
            PrepState::Running => "Running",
            PrepState::Completed => "Completed",
            PrepState::Failed => "Failed",
        }
    }
}

impl Named for ReleaseState {
    ghost name = { release_state_name };

    #[tactic(auto, unfolding(crate::specs::UnitNames::release_state_name))]
    fn name(self) -> &'static str {
        match self {
            ReleaseState::No => "No",
            ReleaseState::Running => "Running",
            ReleaseState::Done => "Done",
        }
    }
}

impl Named for Metric {
    ghost name = { metric_name };

    #[tactic(auto, unfolding(crate::specs::UnitNames::metric_name))]
    fn name(self) -> &'static str {
        match self {
            Metric::CpuPercent => "CpuPercent",
            Metric::ActiveTasks => "ActiveTasks",
            Metric::RunningTasks => "RunningTasks",
            Metric::PendingTasks => "PendingTasks",
            Metric::SucceededTasks => "SucceededTasks",
            Metric::FailedTasks => "FailedTasks",
            Metric::TaskSlotsPerNode => "TaskSlotsPerNode",
            Metric::CurrentDedicatedNodes => "CurrentDedicatedNodes",
            Metric::CurrentLowPriorityNodes => "CurrentLowPriorityNodes",
            Metric::PreemptedNodeCount => "PreemptedNodeCount",
        }
    }
}
