//! Rows of jobs.
ghost use Rattle.std.specs.Prelude.{◌≡◌};
ghost use Rattle.serde_json.specs.View.{view};
ghost use Rattle.bt_base.specs.Fails.{Gives};
ghost use Rattle.row_texts.specs.Jobs.{job_data, job_in, job_plain, job_settings_in};

use crate::table_row::TableRow;
use bt_base::{Fail, NoMemory};
use bt_rows::job::JobRow;
use row_fields::{ArrayBuilder, RowFault, field_at, option_at, require_length};
use serde_json::Value;
use std::alloc::Global;

/// The fields of a job's row that say how its tasks are run.
#[derive(Drop)]
struct JobSettings {
    priority: i32,
    parallel: i32,
    retries: i32,
    wall: Option<u64>,
    deps: bool,
    on_all: bool,
    on_fail: bool,
}

/// The settings in the JSON of a job's row.
#[tactic(auto, unfolding(crate::specs::Jobs::job_settings_in))]
fn job_settings_in(alloc: Global, value: &Value) -> Result<JobSettings, Fail<RowFault>>
    ensures { Gives result (job_settings_in (view value.now)) }
{
    let priority = field_at(alloc, 3, value)?;
    let parallel = field_at(alloc, 4, value)?;
    let retries = field_at(alloc, 5, value)?;
    let wall = option_at(alloc, 6, value)?;
    let deps = field_at(alloc, 7, value)?;
    let on_all = field_at(alloc, 8, value)?;
    let on_fail = field_at(alloc, 9, value)?;
    Ok(JobSettings {
        priority,
        parallel,
        retries,
        wall,
        deps,
        on_all,
        on_fail,
    })
}

impl TableRow for JobRow {
    ghost data_of = { job_data };

    ghost in_data = { job_in };

    ghost plain = { job_plain };

    fn to_value(&self, alloc: Global) -> Result<Value, NoMemory> {
        let array = ArrayBuilder::new(alloc)
            .field(&self.id)?
            .field(&self.pool)?
            .field(&self.state)?
            .field(&self.priority)?
            .field(&self.parallel)?
            .field(&self.retries)?
            .option(&self.wall)?
            .field(&self.deps)?
            .field(&self.on_all)?
            .field(&self.on_fail)?
            .option(&self.prep)?
            .option(&self.release)?
            .field(&self.created)?
            .option(&self.reason)?;
        Ok(array.into_value())
    }

    #[tactic(auto, unfolding(crate::specs::Jobs::job_in))]
    fn of_value(alloc: Global, value: &Value) -> Result<JobRow, Fail<RowFault>> {
        require_length(14, value)?;
        let id = field_at(alloc, 0, value)?;
        let pool = field_at(alloc, 1, value)?;
        let state = field_at(alloc, 2, value)?;
        let settings = job_settings_in(alloc, value)?;
        let prep = option_at(alloc, 10, value)?;
        let release = option_at(alloc, 11, value)?;
        let created = field_at(alloc, 12, value)?;
        let reason = option_at(alloc, 13, value)?;
        Ok(JobRow {
            id,
            pool,
            state,
            priority: settings.priority,
            parallel: settings.parallel,
            retries: settings.retries,
            wall: settings.wall,
            deps: settings.deps,
            on_all: settings.on_all,
            on_fail: settings.on_fail,
            prep,
            release,
            created,
            reason,
        })
    }
}
