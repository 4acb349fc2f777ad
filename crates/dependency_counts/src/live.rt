//! Live tasks: the tasks of a job that its counts know.
use bt_rows::task::TaskRow;

/// The key of a task in its job's counts: a serial number in the order of adding.
#[derive(Clone, Copy, Debug, PartialEq, Eq)]
pub struct CountKey {
    /// The number.
    pub number: u64,
}

/// A task whose dependencies are counted.
pub struct Live {
    /// Its key.
    pub key: CountKey,
    /// The task as it was added.
    pub task: TaskRow,
    /// Whether it satisfies the tasks that depend on it.
    pub satisfies: bool,
}

impl Drop for Live {
    fn drop(self) {
        let Live {
            key: _key,
            task: _task,
            satisfies: _satisfies,
        } = self;
    }
}
