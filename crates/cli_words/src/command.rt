//! Commands with their options.

use bt_base::{Moment, Word};

/// The number of seats if none is stated.
pub const DEFAULT_SEATS: u8 = 8;

/// The greatest number of calls that a journal takes, and the number if none is stated.
pub const JOURNAL_LIMIT: u32 = 4_000_000;

/// The greatest number of tasks that `drill` makes.
pub const DRILL_LIMIT: u32 = 100_000;

/// The port of `serve` if none is stated.
pub const DEFAULT_PORT: u16 = 8_080;

/// The greatest port.
pub const PORT_LIMIT: u16 = u16::MAX;

/// The number of doors of `serve` if none is stated.
pub const DEFAULT_DOORS: u8 = 4;

/// The greatest number of doors.
pub const DOOR_LIMIT: u8 = 16;

/// The greatest number of connections that is stated. If none is stated, there is no limit.
pub const CONNECTION_LIMIT: u32 = 1_000_000;

/// The options of `replay` and of `calendar`.
#[derive(Clone, Copy, Debug, PartialEq, Eq)]
pub struct ReplayOptions {
    /// The number of seats of the machine, 1 to 32.
    pub seats: u8,
    /// The number of calls that the journal takes, 1 to 4,000,000.
    pub limit: u32,
}

/// The options of `formula`.
#[derive(Clone, Copy, Debug, PartialEq, Eq)]
pub struct FormulaOptions {
    /// The present moment.
    pub now: Moment,
    /// The target of dedicated nodes before the formula is evaluated, 0 to 1,000.
    pub dedicated: u32,
}

/// The options of `serve`.
#[derive(Clone, Copy, Debug, PartialEq, Eq)]
pub struct ServeOptions {
    /// The number of seats of the machine, 1 to 32, by default 8.
    pub seats: u8,
    /// The number of calls that the journal takes, 1 to 4,000,000, by default that many.
    pub journal: u32,
    /// The port of 127.0.0.1, 0 to 65,535, by default 8,080.
    pub port: u16,
    /// The number of doors, each of which serves one connection at a time, 1 to 16, by default 4.
    pub doors: u8,
    /// The number of connections, of all doors together, after which the service ends, 1 to 1,000,000; None, the default, for no limit.
    pub connections: Option<u32>,
}

/// A command with its options.
#[derive(Clone, Copy, Debug, PartialEq, Eq)]
pub enum Command {
    /// Does a script over tables.
    Replay(ReplayOptions),
    /// Does a script over tables, with job schedules that make calls of their own.
    Calendar(ReplayOptions),
    /// Evaluates a formula.
    Formula(FormulaOptions),
    /// Writes the tables of a store.
    Export,
    /// Makes the calls of a drill of this number of tasks, 1 to 100,000.
    Drill(u32),
    /// Serves HTTP on a port of 127.0.0.1.
    Serve(ServeOptions),
}

/// What the words of a command line say.
#[derive(Debug, Drop)]
pub struct Invocation {
    /// The command with its options.
    pub command: Command,
    /// The path of the store, which is not empty; None if the words do not have `--store`.
    pub store: Option<Word>,
}
