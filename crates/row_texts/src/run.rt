//! Rows of runs.
ghost use Rattle.std.specs.Prelude.{◌≡◌};
ghost use Rattle.serde_json.specs.View.{view};
ghost use Rattle.bt_base.specs.Fails.{Gives};
ghost use Rattle.row_texts.specs.Runs.{run_data, run_in, run_plain, run_work_in, run_progress_in};

use crate::table_row::TableRow;
use bt_base::{CommandLine, Fail, Id, NoMemory};
use bt_rows::run::{RunRow, RunState};
use row_fields::{ArrayBuilder, RowFault, field_at, option_at, require_length};
use serde_json::Value;
use std::alloc::Global;

/// The fields of a run's row that say what it executes, and where.
#[derive(Drop)]
struct RunWork {
    node: u64,
    pool: Id,
    job: Option<Id>,
    task: Option<Id>,
    attempt: u64,
    line: CommandLine,
    slots: u8,
}

/// The fields of a run's row that say how far it has come.
#[derive(Drop)]
struct RunProgress {
    state: RunState,
    asked: bool,
    made: u64,
    taken: Option<u64>,
    ended: Option<u64>,
}

/// The work in the JSON of a run's row.
#[tactic(auto, unfolding(crate::specs::Runs::run_work_in))]
fn run_work_in(alloc: Global, value: &Value) -> Result<RunWork, Fail<RowFault>>
    ensures { Gives result (run_work_in (view value.now)) }
{
    let node = field_at(alloc, 2, value)?;
    let pool = field_at(alloc, 3, value)?;
    let job = option_at(alloc, 4, value)?;
    let task = option_at(alloc, 5, value)?;
    let attempt = field_at(alloc, 6, value)?;
    let line = field_at(alloc, 7, value)?;
    let slots = field_at(alloc, 8, value)?;
    Ok(RunWork {
        node,
        pool,
        job,
        task,
        attempt,
        line,
        slots,
    })
}

/// The progress in the JSON of a run's row.
#[tactic(auto, unfolding(crate::specs::Runs::run_progress_in))]
fn run_progress_in(alloc: Global, value: &Value) -> Result<RunProgress, Fail<RowFault>>
    ensures { Gives result (run_progress_in (view value.now)) }
{
    let state = field_at(alloc, 9, value)?;
    let asked = field_at(alloc, 10, value)?;
    let made = field_at(alloc, 11, value)?;
    let taken = option_at(alloc, 12, value)?;
    let ended = option_at(alloc, 13, value)?;
    Ok(RunProgress {
        state,
        asked,
        made,
        taken,
        ended,
    })
}

impl TableRow for RunRow {
    ghost data_of = { run_data };

    ghost in_data = { run_in };

    ghost plain = { run_plain };

    fn to_value(&self, alloc: Global) -> Result<Value, NoMemory> {
        let array = ArrayBuilder::new(alloc)
            .field(&self.number)?
            .field(&self.kind)?
            .field(&self.node)?
            .field(&self.pool)?
            .option(&self.job)?
            .option(&self.task)?
            .field(&self.attempt)?
            .field(&self.line)?
            .field(&self.slots)?
            .field(&self.state)?
            .field(&self.asked)?
            .field(&self.made)?
            .option(&self.taken)?
            .option(&self.ended)?;
        Ok(array.into_value())
    }

    #[tactic(auto, unfolding(crate::specs::Runs::run_in))]
    fn of_value(alloc: Global, value: &Value) -> Result<RunRow, Fail<RowFault>> {
        require_length(14, value)?;
        let number = field_at(alloc, 0, value)?;
        let kind = field_at(alloc, 1, value)?;
        let work = run_work_in(alloc, value)?;
        let progress = run_progress_in(alloc, value)?;
        Ok(RunRow {
            number,
            kind,
            node: work.node,
            pool: work.pool,
            job: work.job,
            task: work.task,
            attempt: work.attempt,
            line: work.line,
            slots: work.slots,
            state: progress.state,
            asked: progress.asked,
            made: progress.made,
            taken: progress.taken,
            ended: progress.ended,
        })
    }
}
