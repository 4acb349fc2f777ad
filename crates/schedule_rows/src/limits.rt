//! Limits of schedules (this project's profile).

/// The most schedules that a calendar has.
pub const SCHEDULE_LIMIT: usize = 256;

/// The most characters of a schedule's id. The ids of its jobs have up to 14 more, and so at most 64, the limit of all ids.
pub const SCHEDULE_ID_LIMIT: usize = 50;

/// The most tasks of a schedule.
pub const SCHEDULE_TASK_LIMIT: usize = 100;

/// The greatest number of a job of a schedule.
pub const LAST_JOB_NUMBER: u64 = 999_999_999;
