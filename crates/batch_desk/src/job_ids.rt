//! Ids of jobs in events, which share the texts of the jobs' rows.
ghost use Rattle.std.specs.Prelude.{◌≡◌};

use bt_base::Id;
use bt_rows::event::{Event, EventKind};
use bt_rows::tables::Tables;

/// The same id, in the block of the job's row if the job is there and its id is spelled so. It does not allocate.
fn shared_id(tables: &Tables, id: Id) -> Id
    ensures { result ≡ id }
{
    let Some(row) = tables.find_job(&id) else {
        return id;
    };
    if row.id.as_str() != id.as_str() {
        return id;
    }
    match row.id.clone() {
        Ok(shared) => shared,
        Err(_) => id,
    }
}

/// The same event. If it is an `AddTask`, the id of its job is in the block of the job's row, if that is spelled so: an entry of the journal then
/// takes no memory for the text. It does not allocate.
pub fn with_shared_job_id(tables: &Tables, event: Event) -> Event
    ensures { result ≡ event }
{
    let kind = match event.into_kind() {
        EventKind::AddTask(job, spec) => EventKind::AddTask(shared_id(tables, job), spec),
        kind => kind,
    };
    Event::new(kind)
}
