//! Nodes.
ghost use Rattle.kept_table.specs.Keys.{number_text};
ghost use Rattle.bt_rows.specs.Keys.{node_has_number, same_node};
ghost use Rattle.bt_rows.specs.Texts.{node_text, node_by_text, same_node_by_text};

use crate::pool::Dealloc;
use bt_base::{Duplicate, Id, NoMemory};
use kept_table::{KeyText, Keyed};

/// How far a node has come. Its state in replies follows from its stage and its runs (Azure: the state of a compute node).
#[derive(Clone, Copy, Debug, PartialEq, Eq)]
pub enum NodeStage {
    /// It waits for the success of its start task (Azure: starting, or waitingforstarttask).
    Starting,
    /// Tasks are placed on it (Azure: idle, or running).
    Usable,
    /// Its start task failed for the last time, so that no task is placed on it (Azure: starttaskfailed).
    StartFailed,
    /// It leaves its pool, with this option for its tasks (Azure: leavingpool).
    Leaving(Dealloc),
}

/// A node of a pool, on a seat of the machine. Its key is its number.
pub struct NodeRow {
    /// The number, 1 to 10^15, in order of adding; it is never used again (in place of Azure's id of a compute node).
    pub number: u64,
    /// The id of its pool (Azure: poolId).
    pub pool: Id,
    /// The seat of the machine that it has to itself, from 1 to the number of seats (this project's own).
    pub seat: u8,
    /// How far it has come.
    pub stage: NodeStage,
    /// How often its start task has failed (Azure: startTaskInfo.retryCount).
    pub tries: u64,
}

impl Drop for NodeRow {
    fn drop(self) {
        let NodeRow {
            number: _number,
            pool: _pool,
            seat: _seat,
            stage: _stage,
            tries: _tries,
        } = self;
    }
}

impl Duplicate for NodeRow {
    fn copy(&self) -> Result<NodeRow, NoMemory> {
        let pool = self.pool.copy()?;
        Ok(NodeRow {
            number: self.number,
            pool,
            seat: self.seat,
            stage: self.stage,
            tries: self.tries,
        })
    }
}

impl Keyed for NodeRow {
    type Key = u64;

    ghost has_key = { node_has_number };

    ghost same_key = { same_node };

    ghost key_text = { number_text };

    ghost row_text = { node_text };

    ghost texts_decide = { record { has = node_by_text; same = same_node_by_text } };

    fn key_text(number: &u64) -> KeyText {
        KeyText::of_number(*number)
    }

    fn row_text(&self) -> KeyText {
        KeyText::of_number(self.number)
    }
}
