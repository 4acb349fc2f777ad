//! Limits and defaults of rows and requests, which code and definitions cite. They are those of the Azure Batch REST reference
//! where it states one, else of this project's profile.

/// The greatest number of seats of a machine, which is that of its nodes at a time.
pub const SEAT_LIMIT: u8 = 32;

/// The greatest number of pools.
pub const POOL_LIMIT: u64 = 64;

/// The greatest number of jobs.
pub const JOB_LIMIT: u64 = 10_000;

/// The greatest number of tasks, of all jobs together.
pub const TASK_LIMIT: u64 = 1_000_000;

/// The greatest number of a node or run. After it none is made.
pub const NUMBER_LIMIT: u64 = 1_000_000_000_000_000;

/// The greatest number of tasks that one request adds (Azure: value of Create Task Collection).
pub const COLLECTION_LIMIT: usize = 100;

/// The greatest number of characters that the ids on which one task depends have together (Azure: dependsOn.taskIds).
pub const DEPENDENCY_ID_LIMIT: usize = 64_000;

/// The greatest number of ranges of tasks on which one task depends.
pub const DEPENDENCY_RANGE_LIMIT: usize = 64;

/// The greatest target of a pool, in nodes.
pub const TARGET_LIMIT: u32 = 1_000;

/// The greatest number of slots of a node, and of a task.
pub const SLOT_LIMIT: u8 = 8;

/// The greatest number of instances of a task.
pub const INSTANCE_LIMIT: u8 = 32;

/// The greatest number of retries that is stated; -1 stands for no limit.
pub const RETRY_LIMIT: i32 = 1_000_000;

/// The least priority of a job (Azure: priority).
pub const LEAST_PRIORITY: i32 = -1_000;

/// The greatest priority of a job (Azure: priority).
pub const GREATEST_PRIORITY: i32 = 1_000;

/// The greatest duration in milliseconds, 36,500 days.
pub const DURATION_LIMIT: u64 = 3_153_600_000_000;

/// The least timeout of a resize in milliseconds, 5 minutes (Azure: resizeTimeout).
pub const LEAST_RESIZE_TIMEOUT: u64 = 300_000;

/// The greatest timeout of a resize in milliseconds, 10 days.
pub const GREATEST_RESIZE_TIMEOUT: u64 = 864_000_000;

/// The timeout of resizes of a pool that states none, in milliseconds, 15 minutes (Azure: resizeTimeout).
pub const DEFAULT_RESIZE_TIMEOUT: u64 = 900_000;

/// The least time between evaluations of a formula in milliseconds, 5 minutes (Azure: autoScaleEvaluationInterval).
pub const LEAST_INTERVAL: u64 = 300_000;

/// The greatest time between evaluations of a formula in milliseconds, 168 hours (Azure: autoScaleEvaluationInterval).
pub const GREATEST_INTERVAL: u64 = 604_800_000;

/// The time between evaluations of a formula if none is stated, in milliseconds, 15 minutes (Azure: autoScaleEvaluationInterval).
pub const DEFAULT_INTERVAL: u64 = 900_000;

/// How long the files of a task are kept if no time is stated, in milliseconds, 7 days (Azure: constraints.retentionTime).
pub const DEFAULT_RETENTION: u64 = 604_800_000;

/// The longest time of a release task in milliseconds, 15 minutes (Azure: jobReleaseTask.maxWallClockTime).
pub const RELEASE_TIME_LIMIT: u64 = 900_000;

/// The greatest length of a formula in bytes.
pub const FORMULA_LIMIT: usize = 8_192;

/// The greatest length of the reason with which a job is terminated, in bytes.
pub const REASON_LIMIT: usize = 256;
