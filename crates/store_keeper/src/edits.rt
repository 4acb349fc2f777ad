//! Changes of the tables as edits of a store.
ghost use Rattle.std.specs.Prelude.{◌≡◌, ◌<◌, ◌^◌, ◌∷◌, [], ◌++◌, IfOk, OnOk};
ghost use Rattle.bt_rows.specs.declared.tables.Change.TheVariants.{DropTask, DropPrep, DropSample, Counters, Now};
ghost use Rattle.keeper_store.specs.declared.edit.Edit.TheVariants.{Drop as DropOf};
ghost use Rattle.store_keeper.specs.Keys.{id_key, number_key};
ghost use Rattle.store_keeper.specs.Edits.{Puts, Extends, AreEdits};

use crate::keys::{id_key, id_number_key, ids_key, label_key, number_key};
use crate::stored_row::{StoredRow, entry_of};
use bt_base::{Id, NoMemory, Shared, Text};
use bt_rows::prep::PrepKey;
use bt_rows::sample::SampleKey;
use bt_rows::tables::Change;
use bt_rows::task::TaskKey;
use keeper_store::{Edit, MetaName};
use row_texts::RowKind;
use std::alloc::Global;

/// Adds a put of the row.
fn push_put<T: StoredRow>(
    alloc: Global,
    edits: &mut Vec<Edit>,
    kind: RowKind,
    row: &Shared<T>,
) -> Result<(), NoMemory>
    ensures { OnOk result (Puts kind T.key_of T.keyed T.in_data row.now edits.old.items edits.new.items) }
{
    edits.push(Edit::Put(kind, entry_of(alloc, row)?))?;
    Ok(())
}

/// Adds a drop of the row whose key is this id.
fn push_id_drop(
    alloc: Global,
    edits: &mut Vec<Edit>,
    kind: RowKind,
    id: &Id,
) -> Result<(), NoMemory>
    ensures { OnOk result (edits.new.items ≡ edits.old.items ++ DropOf kind (id_key id.now) ∷ []) }
{
    edits.push(Edit::Drop(kind, id_key(alloc, id)?))?;
    Ok(())
}

/// Adds a drop of the row whose key is this number.
fn push_number_drop(
    alloc: Global,
    edits: &mut Vec<Edit>,
    kind: RowKind,
    number: u64,
) -> Result<(), NoMemory>
    ensures dropped { OnOk result (edits.new.items ≡ edits.old.items ++ DropOf kind (number_key number) ∷ []) }
    ensures known { number < 2 ^ 64 }
{
    edits.push(Edit::Drop(kind, number_key(alloc, number)?))?;
    Ok(())
}

/// Adds a drop of the task with this key.
fn push_task_drop(alloc: Global, edits: &mut Vec<Edit>, key: &TaskKey) -> Result<(), NoMemory>
    ensures { OnOk result (Extends (DropTask key.now) edits.old.items edits.new.items) }
{
    key.job.known();
    edits.push(Edit::Drop(RowKind::Task, ids_key(alloc, &key.job, &key.id)?))?;
    Ok(())
}

/// Adds a drop of the preparation with this key.
fn push_prep_drop(alloc: Global, edits: &mut Vec<Edit>, key: &PrepKey) -> Result<(), NoMemory>
    ensures { OnOk result (Extends (DropPrep key.now) edits.old.items edits.new.items) }
{
    key.job.known();
    edits.push(Edit::Drop(RowKind::Prep, id_number_key(alloc, &key.job, key.node)?))?;
    Ok(())
}

/// Adds a drop of the sample with this key.
fn push_sample_drop(alloc: Global, edits: &mut Vec<Edit>, key: &SampleKey) -> Result<(), NoMemory>
    ensures { OnOk result (Extends (DropSample key.now) edits.old.items edits.new.items) }
{
    key.pool.known();
    edits.push(Edit::Drop(
        RowKind::Sample,
        label_key(alloc, &key.pool, key.metric, key.label)?,
    ))?;
    Ok(())
}

/// Adds the edits of both counters.
fn push_counters(edits: &mut Vec<Edit>, node: u64, run: u64) -> Result<(), NoMemory>
    ensures { OnOk result (Extends (Counters node run) edits.old.items edits.new.items) }
{
    edits.push(Edit::Meta(MetaName::NextNode, node))?;
    edits.push(Edit::Meta(MetaName::NextRun, run))?;
    Ok(())
}

/// Adds the edit of the last moment.
fn push_moment(edits: &mut Vec<Edit>, moment: u64) -> Result<(), NoMemory>
    ensures { OnOk result (Extends (Now moment) edits.old.items edits.new.items) }
{
    edits.push(Edit::Meta(MetaName::Moment, moment))?;
    Ok(())
}

/// Adds the edits that the change is.
fn push_edits(alloc: Global, edits: &mut Vec<Edit>, change: &Change) -> Result<(), NoMemory>
    ensures { OnOk result (Extends change.now edits.old.items edits.new.items) }
{
    match change {
        Change::PutPool(row) => push_put(alloc, edits, RowKind::Pool, row),
        Change::DropPool(id) => push_id_drop(alloc, edits, RowKind::Pool, id),
        Change::PutNode(row) => push_put(alloc, edits, RowKind::Node, row),
        Change::DropNode(number) => push_number_drop(alloc, edits, RowKind::Node, *number),
        Change::PutJob(row) => push_put(alloc, edits, RowKind::Job, row),
        Change::DropJob(id) => push_id_drop(alloc, edits, RowKind::Job, id),
        Change::PutTask(row) => push_put(alloc, edits, RowKind::Task, row),
        Change::DropTask(key) => push_task_drop(alloc, edits, key),
        Change::PutRun(row) => push_put(alloc, edits, RowKind::Run, row),
        Change::DropRun(number) => push_number_drop(alloc, edits, RowKind::Run, *number),
        Change::PutPrep(row) => push_put(alloc, edits, RowKind::Prep, row),
        Change::DropPrep(key) => push_prep_drop(alloc, edits, key),
        Change::PutSample(row) => push_put(alloc, edits, RowKind::Sample, row),
        Change::DropSample(key) => push_sample_drop(alloc, edits, key),
        Change::PutScale(row) => push_put(alloc, edits, RowKind::Scale, row),
        Change::DropScale(id) => push_id_drop(alloc, edits, RowKind::Scale, id),
        Change::Counters(node, run) => push_counters(edits, *node, *run),
        Change::Now(moment) => push_moment(edits, *moment),
    }
}

/// The edits that the changes are: from a store that contains tables they lead to one that contains the tables after the changes.
pub fn edits_of(alloc: Global, changes: &[Change]) -> Result<Vec<Edit>, NoMemory>
    ensures { IfOk result (λ edits. AreEdits changes.now edits.items) }
{
    let mut edits = Vec::with_capacity(alloc, changes.len())?;
    for change in changes {
        push_edits(alloc, &mut edits, change)?;
    }
    Ok(edits)
}
