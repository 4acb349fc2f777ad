//! The texts of keys: the parts of a row's key joined by `/`, ids in lower case and numbers in decimal (this project's own).
ghost use Rattle.std.specs.Prelude.{◌≡◌, IfOk};
ghost use Rattle.store_keeper.specs.Keys.{id_key, number_key, ids_key, id_number_key, label_key};

use bt_base::{Id, Metric, NoMemory, Text};
use std::alloc::Global;
use variant_names::Named;

/// The text of an id.
pub fn id_key(alloc: Global, id: &Id) -> Result<Text, NoMemory>
    ensures { IfOk result (λ text. text ≡ id_key id.now) }
{
    Text::of_string(id.as_str().to_ascii_lowercase(alloc)?)
}

/// The text of a number.
pub fn number_key(alloc: Global, number: u64) -> Result<Text, NoMemory>
    ensures { IfOk result (λ text. text ≡ number_key number) }
{
    Text::of_string(format!(in alloc; "{number}")?)
}

/// The text of a job's id and a task's.
pub fn ids_key(alloc: Global, job: &Id, id: &Id) -> Result<Text, NoMemory>
    ensures { IfOk result (λ text. text ≡ ids_key job.now id.now) }
{
    let mut text = job.as_str().to_ascii_lowercase(alloc)?;
    let id = id.as_str().to_ascii_lowercase(alloc)?;
    let id = id.as_str();
    write!(text, "/{id}")?;
    Text::of_string(text)
}

/// The text of an id and a number.
pub fn id_number_key(alloc: Global, id: &Id, number: u64) -> Result<Text, NoMemory>
    ensures { IfOk result (λ text. text ≡ id_number_key id.now number) }
{
    let mut text = id.as_str().to_ascii_lowercase(alloc)?;
    write!(text, "/{number}")?;
    Text::of_string(text)
}

/// The text of a pool's id, a metric and a label.
pub fn label_key(alloc: Global, pool: &Id, metric: Metric, label: u64) -> Result<Text, NoMemory>
    ensures { IfOk result (λ text. text ≡ label_key pool.now metric label) }
{
    let mut text = pool.as_str().to_ascii_lowercase(alloc)?;
    let metric = metric.name();
    write!(text, "/{metric}/{label}")?;
    Text::of_string(text)
}
