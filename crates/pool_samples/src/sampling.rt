//! New samples, and the changes by which they are added.
ghost use Rattle.std.specs.Prelude.{◌≡◌, ◌++◌, IfOk, OnOk};
ghost use Rattle.batch_model.specs.Samples.{label_of};
ghost use Rattle.row_changes.specs.Puts.{put_if_some};
ghost use Rattle.pool_samples.specs.Changes.{added, drop_at, sample_at};
ghost use Rattle.pool_samples.specs.Kept.{leaving};

use crate::kept::Kept;
use bt_base::{Duplicate, Id, Metric, NoMemory, Num};
use bt_rows::sample::{SampleKey, SampleRow};
use bt_rows::tables::Change;
use bt_samples::SAMPLE_INTERVAL_MS;

/// The label of samples that are taken at `moment`: the last multiple of 30,000 that is not above it. Both are in milliseconds since
/// 1970.
pub fn label_of(moment: u64) -> u64
    ensures { result ≡ label_of moment }
{
    moment / SAMPLE_INTERVAL_MS * SAMPLE_INTERVAL_MS
}

/// A sample of the pool's metric that is taken at `moment`, in milliseconds since 1970.
pub fn sample_at(moment: u64, pool: &Id, metric: Metric, value: Num) -> Result<SampleRow, NoMemory>
    ensures { IfOk result (λ sample. sample ≡ sample_at moment pool.now metric value) }
{
    Ok(SampleRow {
        pool: pool.copy()?,
        metric,
        label: label_of(moment),
        value,
    })
}

/// Adds the drop of the oldest sample of the pool's metric, if there is no room.
fn push_drop(
    changes: &mut Vec<Change>,
    pool: &Id,
    metric: Metric,
    kept: Kept,
) -> Result<(), NoMemory>
    ensures { OnOk result (changes.new.items ≡ changes.old.items ++ put_if_some (drop_at pool.now metric) (leaving kept)) }
{
    match kept.leaving() {
        None => Ok(()),
        Some(label) => {
            let pool = pool.copy()?;
            let key = SampleKey {
                pool,
                metric,
                label,
            };
            Ok(changes.push(Change::DropSample(key))?)
        }
    }
}

/// Adds the put of the sample, and before it the drop of the oldest one of its pool and metric, if there is no room.
pub fn push_sample(changes: &mut Vec<Change>, kept: Kept, sample: SampleRow) -> Result<(), NoMemory>
    ensures { OnOk result (changes.new.items ≡ changes.old.items ++ added kept sample) }
{
    let alloc = *changes.allocator();
    push_drop(changes, &sample.pool, sample.metric, kept)?;
    Ok(changes.push(Change::put_sample(alloc, sample)?)?)
}
