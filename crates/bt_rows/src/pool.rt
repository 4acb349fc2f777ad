//! Pools.
ghost use Rattle.kept_table.specs.Keys.{id_text};
ghost use Rattle.bt_rows.specs.Keys.{pool_has_id, same_pool};
ghost use Rattle.bt_rows.specs.Texts.{pool_text, pool_by_text, same_pool_by_text};

pub use bt_base::Dealloc;
use bt_base::{CommandLine, Duplicate, Id, NoMemory};
use kept_table::{KeyText, Keyed};

/// Whether a pool is being resized (Azure: allocationState).
#[derive(Clone, Copy, Debug, PartialEq, Eq)]
pub enum Alloc {
    /// The number of nodes is not changing (Azure: steady).
    Steady,
    /// Nodes are being added or removed to reach the target (Azure: resizing).
    Resizing,
    /// The resize was stopped by the user and is coming to its end (Azure: stopping).
    Stopping,
}

/// How tasks are distributed over the nodes of a pool (Azure: taskSchedulingPolicy.nodeFillType).
#[derive(Clone, Copy, Debug, PartialEq, Eq)]
pub enum Fill {
    /// On the node with the fewest held slots (Azure: spread).
    Spread,
    /// On the node with the most held slots that still has enough free ones (Azure: pack).
    Pack,
}

/// Why a resize ended before the target was reached (Azure: resizeErrors.code).
#[derive(Clone, Copy, Debug, PartialEq, Eq)]
pub enum ResizeError {
    /// The resize timeout passed (Azure: AllocationTimedout).
    AllocationTimedOut,
    /// The user stopped the resize (Azure: ResizeStopped).
    ResizeStopped,
}

/// What runs on each node before tasks: the start task of a pool (Azure: startTask), or the preparation of a job (Azure:
/// jobPreparationTask).
#[derive(Clone)]
pub struct StartTask {
    /// The command line (Azure: commandLine).
    pub line: CommandLine,
    /// How often it is run again after a failure: 0 to 1,000,000, or -1 for no limit (Azure: maxTaskRetryCount).
    pub retries: i32,
    /// Whether tasks wait on the node until it ended with code 0 (Azure: waitForSuccess).
    pub wait: bool,
}

impl Drop for StartTask {
    fn drop(self) {
        let StartTask {
            line: _line,
            retries: _retries,
            wait: _wait,
        } = self;
    }
}

/// A pool. Its key is its id.
pub struct PoolRow {
    /// The id, unique among pools but for case (Azure: id).
    pub id: Id,
    /// Whether the pool is being deleted (Azure: state, which is `deleting` or `active`).
    pub deleting: bool,
    /// Whether the pool is being resized (Azure: allocationState).
    pub alloc: Alloc,
    /// The slots of each node, 1 to 8 (Azure: taskSlotsPerNode).
    pub slots: u8,
    /// How tasks are distributed over the nodes (Azure: taskSchedulingPolicy.nodeFillType).
    pub fill: Fill,
    /// Whether nodes may communicate, which tasks with several instances need (Azure: enableInterNodeCommunication).
    pub inter: bool,
    /// The start task, which runs on each new node; None if there is none (Azure: startTask).
    pub start: Option<StartTask>,
    /// The wanted number of dedicated nodes, 0 to 1,000 (Azure: targetDedicatedNodes).
    pub dedicated: u32,
    /// The wanted number of low-priority nodes, which is 0 in this project's profile (Azure: targetLowPriorityNodes).
    pub low: u32,
    /// What the present resize does to the tasks of nodes that leave (Azure: nodeDeallocationOption).
    pub option: Dealloc,
    /// The timeout in milliseconds of a resize that names none, 300,000 to 864,000,000 (Azure: resizeTimeout of the pool).
    pub usual_timeout: u64,
    /// The timeout of the present resize in milliseconds, 300,000 to 864,000,000 (Azure: resizeTimeout of the resize).
    pub timeout: u64,
    /// When the present resize began, in milliseconds since 1970 (this project's own).
    pub began: u64,
    /// Why the last resize ended before its target was reached; None if it did not (Azure: resizeErrors).
    pub error: Option<ResizeError>,
    /// When automatic scaling was last enabled, in milliseconds since 1970; None if it never was (this project's own).
    pub enabled: Option<u64>,
}

impl Drop for PoolRow {
    fn drop(self) {
        let PoolRow {
            id: _id,
            deleting: _deleting,
            alloc: _alloc,
            slots: _slots,
            fill: _fill,
            inter: _inter,
            start: _start,
            dedicated: _dedicated,
            low: _low,
            option: _option,
            usual_timeout: _usual_timeout,
            timeout: _timeout,
            began: _began,
            error: _error,
            enabled: _enabled,
        } = self;
    }
}

impl Duplicate for StartTask {
    fn copy(&self) -> Result<StartTask, NoMemory> {
        Ok(self.clone()?)
    }
}

impl Duplicate for PoolRow {
    fn copy(&self) -> Result<PoolRow, NoMemory> {
        let id = self.id.copy()?;
        let start = self.start.clone()?;
        Ok(PoolRow {
            id,
            deleting: self.deleting,
            alloc: self.alloc,
            slots: self.slots,
            fill: self.fill,
            inter: self.inter,
            start,
            dedicated: self.dedicated,
            low: self.low,
            option: self.option,
            usual_timeout: self.usual_timeout,
            timeout: self.timeout,
            began: self.began,
            error: self.error,
            enabled: self.enabled,
        })
    }
}

impl Keyed for PoolRow {
    type Key = Id;

    ghost has_key = { pool_has_id };

    ghost same_key = { same_pool };

    ghost key_text = { id_text };

    ghost row_text = { pool_text };

    ghost texts_decide = { record { has = pool_by_text; same = same_pool_by_text } };

    fn key_text(id: &Id) -> KeyText {
        KeyText::of_id(id)
    }

    fn row_text(&self) -> KeyText {
        KeyText::of_id(&self.id)
    }
}
