//! The words of bodies (Azure: the values of nodeFillType, nodeDeallocationOption, jobAction, onAllTasksComplete, onTaskFailure,
//! dependencyAction and disableTasks).
ghost use Rattle.std.specs.Prelude.{◌≡◌};
ghost use Rattle.wire_members.specs.Words.{fill_word, dealloc_word, job_action_word, all_tasks_word, failure_word, dependency_word, disable_word, is_terminating, is_performing, is_satisfying};

use crate::word::WordKind;
use bt_base::is_same;
use bt_rows::event::DisableTasks;
use bt_rows::pool::{Dealloc, Fill};
use bt_rows::task::JobAction;

impl WordKind for Fill {
    ghost of_text = { fill_word };

    #[tactic(auto, unfolding(crate::specs::Words::fill_word))]
    fn of_text(text: &str) -> Option<Fill> {
        if is_same(text, "spread") {
            Some(Fill::Spread)
        } else if is_same(text, "pack") {
            Some(Fill::Pack)
        } else {
            None
        }
    }
}

impl WordKind for Dealloc {
    ghost of_text = { dealloc_word };

    #[tactic(auto, unfolding(crate::specs::Words::dealloc_word))]
    fn of_text(text: &str) -> Option<Dealloc> {
        if is_same(text, "requeue") {
            Some(Dealloc::Requeue)
        } else if is_same(text, "terminate") {
            Some(Dealloc::Terminate)
        } else if is_same(text, "taskcompletion") {
            Some(Dealloc::TaskCompletion)
        } else if is_same(text, "retaineddata") {
            Some(Dealloc::RetainedData)
        } else {
            None
        }
    }
}

impl WordKind for JobAction {
    ghost of_text = { job_action_word };

    #[tactic(auto, unfolding(crate::specs::Words::job_action_word))]
    fn of_text(text: &str) -> Option<JobAction> {
        if is_same(text, "none") {
            Some(JobAction::Nothing)
        } else if is_same(text, "disable") {
            Some(JobAction::Disable)
        } else if is_same(text, "terminate") {
            Some(JobAction::Terminate)
        } else {
            None
        }
    }
}

/// What a job does once all its tasks are completed (Azure: onAllTasksComplete).
#[derive(Clone, Copy, Debug, PartialEq, Eq)]
pub enum AllTasksAction {
    /// Nothing (Azure: noaction).
    NoAction,
    /// It is terminated (Azure: terminatejob).
    TerminateJob,
}

impl AllTasksAction {
    /// Whether the job is terminated. It does not allocate.
    pub fn is_terminating(self) -> bool
        ensures { result ≡ is_terminating self }
    {
        match self {
            AllTasksAction::NoAction => false,
            AllTasksAction::TerminateJob => true,
        }
    }
}

impl WordKind for AllTasksAction {
    ghost of_text = { all_tasks_word };

    #[tactic(auto, unfolding(crate::specs::Words::all_tasks_word))]
    fn of_text(text: &str) -> Option<AllTasksAction> {
        if is_same(text, "noaction") {
            Some(AllTasksAction::NoAction)
        } else if is_same(text, "terminatejob") {
            Some(AllTasksAction::TerminateJob)
        } else {
            None
        }
    }
}

/// What a job does when one of its tasks fails (Azure: onTaskFailure).
#[derive(Clone, Copy, Debug, PartialEq, Eq)]
pub enum FailureAction {
    /// Nothing (Azure: noaction).
    NoAction,
    /// What the exit options of the task say (Azure: performexitoptionsjobaction).
    PerformJobAction,
}

impl FailureAction {
    /// Whether the job takes the actions of its tasks' exit options. It does not allocate.
    pub fn is_performing(self) -> bool
        ensures { result ≡ is_performing self }
    {
        match self {
            FailureAction::NoAction => false,
            FailureAction::PerformJobAction => true,
        }
    }
}

impl WordKind for FailureAction {
    ghost of_text = { failure_word };

    #[tactic(auto, unfolding(crate::specs::Words::failure_word))]
    fn of_text(text: &str) -> Option<FailureAction> {
        if is_same(text, "noaction") {
            Some(FailureAction::NoAction)
        } else if is_same(text, "performexitoptionsjobaction") {
            Some(FailureAction::PerformJobAction)
        } else {
            None
        }
    }
}

/// What an ending of a task does to the tasks that depend on it (Azure: dependencyAction).
#[derive(Clone, Copy, Debug, PartialEq, Eq)]
pub enum DependencyAction {
    /// They may go on (Azure: satisfy).
    Satisfy,
    /// They may not (Azure: block).
    Block,
}

impl DependencyAction {
    /// Whether dependent tasks may go on. It does not allocate.
    pub fn is_satisfying(self) -> bool
        ensures { result ≡ is_satisfying self }
    {
        match self {
            DependencyAction::Satisfy => true,
            DependencyAction::Block => false,
        }
    }
}

impl WordKind for DependencyAction {
    ghost of_text = { dependency_word };

    #[tactic(auto, unfolding(crate::specs::Words::dependency_word))]
    fn of_text(text: &str) -> Option<DependencyAction> {
        if is_same(text, "satisfy") {
            Some(DependencyAction::Satisfy)
        } else if is_same(text, "block") {
            Some(DependencyAction::Block)
        } else {
            None
        }
    }
}

impl WordKind for DisableTasks {
    ghost of_text = { disable_word };

    #[tactic(auto, unfolding(crate::specs::Words::disable_word))]
    fn of_text(text: &str) -> Option<DisableTasks> {
        if is_same(text, "requeue") {
            Some(DisableTasks::Requeue)
        } else if is_same(text, "terminate") {
            Some(DisableTasks::Terminate)
        } else if is_same(text, "wait") {
            Some(DisableTasks::Wait)
        } else {
            None
        }
    }
}
