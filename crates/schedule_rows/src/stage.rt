//! States of schedules, and what remains to be requested for their last jobs.
ghost use Rattle.std.specs.Prelude.{◌≡◌};
ghost use Rattle.schedule_rows.specs.Occurrences.{is_active, is_disabled, is_idle};

/// The state of a schedule (Azure: state of a job schedule).
#[derive(Clone, Copy, Debug, PartialEq, Eq)]
pub enum ScheduleState {
    /// It fires at its occurrences (Azure: active).
    Active,
    /// It does not fire until it is enabled (Azure: disabled).
    Disabled,
    /// It will not fire again (Azure: completed).
    Completed,
}

impl ScheduleState {
    /// Whether it is `Active`.
    pub fn is_active(self) -> bool
        ensures { result ≡ is_active self }
    {
        match self {
            ScheduleState::Active => true,
            ScheduleState::Disabled | ScheduleState::Completed => false,
        }
    }

    /// Whether it is `Disabled`.
    pub fn is_disabled(self) -> bool
        ensures { result ≡ is_disabled self }
    {
        match self {
            ScheduleState::Disabled => true,
            ScheduleState::Active | ScheduleState::Completed => false,
        }
    }
}

/// What remains to be requested for the last job of a schedule.
#[derive(Clone, Copy, Debug, PartialEq, Eq)]
pub enum Stage {
    /// Nothing.
    Idle,
    /// Its tasks, and then the change that lets it end.
    Tasks,
    /// The change that lets it end once its tasks are completed.
    Patch,
}

impl Stage {
    /// Whether nothing remains to be requested.
    pub fn is_idle(self) -> bool
        ensures { result ≡ is_idle self }
    {
        match self {
            Stage::Idle => true,
            Stage::Tasks | Stage::Patch => false,
        }
    }
}
