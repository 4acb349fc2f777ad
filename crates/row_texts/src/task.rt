//! Rows of tasks. Their 21 fields are written and read in three parts.
ghost use Rattle.std.specs.Prelude.{◌≡◌, Ok, IfOk, OnOk};
ghost use Rattle.serde_json.specs.View.{view};
ghost use Rattle.bt_base.specs.Fails.{Gives};
ghost use Rattle.row_fields.specs.Arrays.{items_built};
ghost use Rattle.row_texts.specs.Tasks.{
  with_items,
  task_data,
  task_in,
  task_plain,
  task_settings_values,
  task_settings_of,
  task_settings_in,
  task_progress_values,
  task_progress_of,
  task_progress_in,
};

use crate::table_row::TableRow;
use bt_base::{Fail, NoMemory};
use bt_rows::run::Ending;
use bt_rows::settings::{Settings, TaskSettings};
use bt_rows::task::{Closed, Multi, TaskRow, TaskStage, Want};
use row_fields::{ArrayBuilder, RowFault, field_at, option_at, require_length, shared_list_at};
use serde_json::Value;
use std::alloc::Global;

/// The fields of a task's row that say how far it has come.
#[derive(Drop)]
struct TaskProgress {
    stage: TaskStage,
    attempt: u64,
    failures: u64,
    wanted: Option<Want>,
    fail: Option<Ending>,
    started: Option<u64>,
    closed: Option<Closed>,
}

/// A copy of how the task runs on several nodes.
fn multi_of(settings: &Settings) -> Result<Option<Multi>, NoMemory>
    ensures { IfOk result (λ multi. multi ≡ settings.now.multi) }
{
    match settings.multi() {
        None => Ok(None),
        Some(multi) => Ok(Some(multi.clone()?)),
    }
}

/// Adds the settings of the row to its array.
fn add_settings(array: ArrayBuilder, row: &TaskRow) -> Result<ArrayBuilder, NoMemory>
    ensures written { IfOk result (λ after. items_built after ≡ with_items (items_built array) (task_settings_values row.now)) }
    ensures back { OnOk result (task_settings_in (task_data row.now) ≡ Ok (task_settings_of row.now)) }
{
    let multi = multi_of(&row.settings)?;
    let after = array
        .option(&row.settings.retries())?
        .option(&row.settings.wall())?
        .option(&row.settings.retention())?
        .list(row.settings.codes())?
        .list(row.settings.ranges())?
        .option(&row.settings.launch())?
        .option(&row.settings.other())?
        .list(row.settings.needs())?
        .list(row.settings.spans())?
        .option(&multi)?;
    Ok(after)
}

/// Adds the progress of the row to its array.
fn add_progress(array: ArrayBuilder, row: &TaskRow) -> Result<ArrayBuilder, NoMemory>
    ensures written { IfOk result (λ after. items_built after ≡ with_items (items_built array) (task_progress_values row.now)) }
    ensures back { OnOk result (task_progress_in (task_data row.now) ≡ Ok (task_progress_of row.now)) }
{
    let after = array
        .field(&row.stage)?
        .field(&row.attempt)?
        .field(&row.failures)?
        .option(&row.wanted)?
        .option(&row.fail)?
        .option(&row.started)?
        .option(&row.closed)?;
    Ok(after)
}

/// The settings in the JSON of a task's row.
#[tactic(auto, unfolding(crate::specs::Tasks::task_settings_in))]
fn task_settings_in(alloc: Global, value: &Value) -> Result<TaskSettings, Fail<RowFault>>
    ensures { Gives result (task_settings_in (view value.now)) }
{
    let retries = option_at(alloc, 4, value)?;
    let wall = option_at(alloc, 5, value)?;
    let retention = option_at(alloc, 6, value)?;
    let codes = shared_list_at(alloc, 7, value)?;
    let ranges = shared_list_at(alloc, 8, value)?;
    let launch = option_at(alloc, 9, value)?;
    let other = option_at(alloc, 10, value)?;
    let needs = shared_list_at(alloc, 11, value)?;
    let spans = shared_list_at(alloc, 12, value)?;
    let multi = option_at(alloc, 13, value)?;
    Ok(TaskSettings {
        retries,
        wall,
        retention,
        codes,
        ranges,
        launch,
        other,
        needs,
        spans,
        multi,
    })
}

/// The progress in the JSON of a task's row.
#[tactic(auto, unfolding(crate::specs::Tasks::task_progress_in))]
fn task_progress_in(alloc: Global, value: &Value) -> Result<TaskProgress, Fail<RowFault>>
    ensures { Gives result (task_progress_in (view value.now)) }
{
    let stage = field_at(alloc, 14, value)?;
    let attempt = field_at(alloc, 15, value)?;
    let failures = field_at(alloc, 16, value)?;
    let wanted = option_at(alloc, 17, value)?;
    let fail = option_at(alloc, 18, value)?;
    let started = option_at(alloc, 19, value)?;
    let closed = option_at(alloc, 20, value)?;
    Ok(TaskProgress {
        stage,
        attempt,
        failures,
        wanted,
        fail,
        started,
        closed,
    })
}

impl TableRow for TaskRow {
    ghost data_of = { task_data };

    ghost in_data = { task_in };

    ghost plain = { task_plain };

    fn to_value(&self, alloc: Global) -> Result<Value, NoMemory> {
        let array = ArrayBuilder::new(alloc)
            .field(&self.job)?
            .field(&self.id)?
            .field(&self.line)?
            .field(&self.slots)?;
        let array = add_settings(array, self)?;
        let array = add_progress(array, self)?;
        Ok(array.into_value())
    }

    #[tactic(auto, unfolding(crate::specs::Tasks::task_in))]
    fn of_value(alloc: Global, value: &Value) -> Result<TaskRow, Fail<RowFault>> {
        require_length(21, value)?;
        let job = field_at(alloc, 0, value)?;
        let id = field_at(alloc, 1, value)?;
        let line = field_at(alloc, 2, value)?;
        let slots = field_at(alloc, 3, value)?;
        let settings = Settings::of(alloc, task_settings_in(alloc, value)?)?;
        let progress = task_progress_in(alloc, value)?;
        Ok(TaskRow {
            job,
            id,
            line,
            slots,
            settings,
            stage: progress.stage,
            attempt: progress.attempt,
            failures: progress.failures,
            wanted: progress.wanted,
            fail: progress.fail,
            started: progress.started,
            closed: progress.closed,
        })
    }
}
