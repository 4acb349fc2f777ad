//! Settings of tasks.
ghost use Rattle.std.specs.Prelude.{◌≡◌, true, is_none, is_some, IfOk};
ghost use Rattle.std.specs.Option.{option_copied};
ghost use Rattle.bt_rows.specs.Tasks.{plain_settings};

use crate::limits::DEFAULT_RETENTION;
use crate::task::{Given, Multi};
use bt_base::{Duplicate, Id, NoMemory, Shared, SharedList};
use std::alloc::Global;
use std::marker::Model;

/// What a task states beside its id, its command line and its slots.
pub struct TaskSettings {
    /// How often it is tried again after a failure: 0 to 1,000,000, or -1 for no limit; None for the job's number (Azure:
    /// constraints.maxTaskRetryCount).
    pub retries: Option<i32>,
    /// The longest time from the start of an attempt to its end, in milliseconds, 0 to 3,153,600,000,000; None for no limit
    /// (Azure: constraints.maxWallClockTime).
    pub wall: Option<u64>,
    /// How long its files are kept after it ended, in milliseconds, 0 to 3,153,600,000,000; None for without end (Azure:
    /// constraints.retentionTime).
    pub retention: Option<u64>,
    /// Exit options for single exit codes, of which the first with the code counts (Azure: exitConditions.exitCodes).
    pub codes: SharedList<(i32, Given)>,
    /// Exit options for ranges of exit codes, with the first and the last code of each, of which the first that holds the code
    /// counts, after `codes` (Azure: exitConditions.exitCodeRanges).
    pub ranges: SharedList<(i32, i32, Given)>,
    /// Exit options for a command line that could not be started (Azure: exitConditions.preProcessingError).
    pub launch: Option<Given>,
    /// Exit options for every other ending that is not code 0 (Azure: exitConditions.default).
    pub other: Option<Given>,
    /// The ids of tasks of the job that it depends on (Azure: dependsOn.taskIds); those of a row have at most 64,000 characters
    /// together.
    pub needs: SharedList<Id>,
    /// Ranges of numbers of tasks of the job that it depends on, with the first and the last number of each, at most 64
    /// (Azure: dependsOn.taskIdRanges).
    pub spans: SharedList<(u32, u32)>,
    /// How it runs on several nodes; None if it runs on one (Azure: multiInstanceSettings).
    pub multi: Option<Multi>,
}

impl Drop for TaskSettings {
    fn drop(self) {
        let TaskSettings {
            retries: _retries,
            wall: _wall,
            retention: _retention,
            codes: _codes,
            ranges: _ranges,
            launch: _launch,
            other: _other,
            needs: _needs,
            spans: _spans,
            multi: _multi,
        } = self;
    }
}

impl TaskSettings {
    /// Those of a task that states none: no limits of its own, its files are kept for seven days, no exit conditions, no dependencies and
    /// one node.
    pub fn plain() -> TaskSettings
        ensures { result ≡ plain_settings }
    {
        TaskSettings {
            retries: None,
            wall: None,
            retention: Some(DEFAULT_RETENTION),
            codes: SharedList::empty(),
            ranges: SharedList::empty(),
            launch: None,
            other: None,
            needs: SharedList::empty(),
            spans: SharedList::empty(),
            multi: None,
        }
    }

    /// Whether the limits are those of a task that states none.
    fn has_plain_limits(&self) -> bool
        ensures retries { result ≡ true → self.now.retries ≡ plain_settings.retries }
        ensures wall { result ≡ true → self.now.wall ≡ plain_settings.wall }
        ensures retention { result ≡ true → self.now.retention ≡ plain_settings.retention }
    {
        self.retries.is_none() && self.wall.is_none() && self.retention == Some(DEFAULT_RETENTION)
    }

    /// Whether there are no exit conditions.
    fn has_plain_exits(&self) -> bool
        ensures codes { result ≡ true → self.now.codes ≡ plain_settings.codes }
        ensures ranges { result ≡ true → self.now.ranges ≡ plain_settings.ranges }
        ensures launch { result ≡ true → self.now.launch ≡ plain_settings.launch }
        ensures other { result ≡ true → self.now.other ≡ plain_settings.other }
    {
        self.codes.as_slice().is_empty()
            && self.ranges.as_slice().is_empty()
            && self.launch.is_none()
            && self.other.is_none()
    }

    /// Whether there are no dependencies, and one node.
    fn has_plain_needs(&self) -> bool
        ensures needs { result ≡ true → self.now.needs ≡ plain_settings.needs }
        ensures spans { result ≡ true → self.now.spans ≡ plain_settings.spans }
        ensures multi { result ≡ true → self.now.multi ≡ plain_settings.multi }
    {
        self.needs.as_slice().is_empty() && self.spans.as_slice().is_empty() && self.multi.is_none()
    }

    /// Whether they are those of a task that states none.
    fn is_plain(&self) -> bool
        ensures { result ≡ true → self.now ≡ plain_settings }
    {
        self.has_plain_limits() && self.has_plain_exits() && self.has_plain_needs()
    }
}

/// Settings in a block that copies share; those of a task that states none have no block. Contracts see the settings.
pub struct Settings {
    block: Option<Shared<TaskSettings>>,
}

impl Drop for Settings {
    fn drop(self) {
        let Settings { block: _block } = self;
    }
}

impl Model for Settings {
    ghost use Rattle.std.specs.Option.{unwrap_or};
    ghost use Rattle.bt_rows.specs.Tasks.{plain_settings};
    ghost use Rattle.bt_rows.specs.declared.settings.TaskSettings.{TaskSettings};

    ghost Value = { TaskSettings };

    ghost view = { λ s. unwrap_or s.block plain_settings };
}

impl Settings {
    /// These settings. Returns `NoMemory` if it is out of memory; those of a task that states none take none.
    pub fn of(alloc: Global, settings: TaskSettings) -> Result<Settings, NoMemory>
        ensures { IfOk result (λ packed. packed ≡ settings) }
    {
        if settings.is_plain() {
            return Ok(Settings { block: None });
        }
        Ok(Settings {
            block: Some(Shared::new(alloc, settings)?),
        })
    }

    /// How often the task is tried again after a failure, as in `TaskSettings`.
    pub fn retries(&self) -> Option<i32>
        ensures { result ≡ self.now.retries }
    {
        match &self.block {
            None => None,
            Some(settings) => settings.get().retries,
        }
    }

    /// The longest time of an attempt, in milliseconds, as in `TaskSettings`.
    pub fn wall(&self) -> Option<u64>
        ensures { result ≡ self.now.wall }
    {
        match &self.block {
            None => None,
            Some(settings) => settings.get().wall,
        }
    }

    /// How long files are kept, in milliseconds, as in `TaskSettings`.
    pub fn retention(&self) -> Option<u64>
        ensures { result ≡ self.now.retention }
    {
        match &self.block {
            None => Some(DEFAULT_RETENTION),
            Some(settings) => settings.get().retention,
        }
    }

    /// Exit options for single exit codes, as in `TaskSettings`.
    pub fn codes(&self) -> &[(i32, Given)]
        ensures { result.now ≡ self.now.codes }
    {
        match &self.block {
            None => &[],
            Some(settings) => settings.get().codes.as_slice(),
        }
    }

    /// Exit options for ranges of exit codes, as in `TaskSettings`.
    pub fn ranges(&self) -> &[(i32, i32, Given)]
        ensures { result.now ≡ self.now.ranges }
    {
        match &self.block {
            None => &[],
            Some(settings) => settings.get().ranges.as_slice(),
        }
    }

    /// Exit options for a command line that could not be started, as in `TaskSettings`.
    pub fn launch(&self) -> Option<Given>
        ensures { result ≡ self.now.launch }
    {
        match &self.block {
            None => None,
            Some(settings) => settings.get().launch,
        }
    }

    /// Exit options for every other ending that is not code 0, as in `TaskSettings`.
    pub fn other(&self) -> Option<Given>
        ensures { result ≡ self.now.other }
    {
        match &self.block {
            None => None,
            Some(settings) => settings.get().other,
        }
    }

    /// The ids of tasks that the task depends on, as in `TaskSettings`.
    pub fn needs(&self) -> &[Id]
        ensures { result.now ≡ self.now.needs }
    {
        match &self.block {
            None => &[],
            Some(settings) => settings.get().needs.as_slice(),
        }
    }

    /// Ranges of numbers of tasks that the task depends on, as in `TaskSettings`.
    pub fn spans(&self) -> &[(u32, u32)]
        ensures { result.now ≡ self.now.spans }
    {
        match &self.block {
            None => &[],
            Some(settings) => settings.get().spans.as_slice(),
        }
    }

    /// How the task runs on several nodes, as in `TaskSettings`.
    pub fn multi(&self) -> Option<&Multi>
        ensures { option_copied result ≡ self.now.multi }
    {
        match &self.block {
            None => None,
            Some(settings) => settings.get().multi.as_ref(),
        }
    }

    /// Whether the task runs on one node.
    pub fn is_single(&self) -> bool
        ensures { result ≡ is_none self.now.multi }
    {
        match &self.block {
            None => true,
            Some(settings) => settings.get().multi.is_none(),
        }
    }

    /// Whether the task runs on several nodes.
    pub fn has_instances(&self) -> bool
        ensures { result ≡ is_some self.now.multi }
    {
        match &self.block {
            None => false,
            Some(settings) => settings.get().multi.is_some(),
        }
    }
}

impl Duplicate for Settings {
    fn copy(&self) -> Result<Settings, NoMemory> {
        match &self.block {
            None => Ok(Settings { block: None }),
            Some(settings) => Ok(Settings {
                block: Some(settings.copy()?),
            }),
        }
    }
}
