//! Numbers that each drill has (this project's own).

/// The id of the pool and of the job of a drill.
pub const DRILL_ID: &str = "drill";

/// The moment of all calls of a drill, in milliseconds since 1970.
pub const DRILL_MOMENT_MS: u64 = 0;

/// The number of seats of a drill's machine.
pub const DRILL_SEATS: u8 = 8;

/// The most calls that the journal of a drill takes.
pub const DRILL_JOURNAL_LIMIT: u32 = 4_000_000;

/// The number of dedicated nodes of a drill's pool.
pub const DRILL_NODES: u32 = 8;

/// The slots of each node of a drill's pool.
pub const DRILL_SLOTS: u8 = 4;
