//! Labels of samples, and how many samples of a pool's metric are kept.
ghost use Rattle.std.specs.Prelude.{◌≡◌, not, ◌||◌, ℕ, List as Items, Some, nat_le, false, IfOk, OnOk, if◌then◌else◌};
ghost use Rattle.std.specs.List.{list_all};
ghost use Rattle.std.specs.Option.{option_map_or};
ghost use Rattle.std.specs.Str.{bytes_eq};
ghost use Rattle.bt_rows.specs.Metrics.{same_metric};
ghost use Rattle.batch_model.specs.Samples.{sample_limit};
ghost use Rattle.batch_model.specs.Variants.{CpuPercent as Cpu, ActiveTasks as Active, SampleRow as Sample};
ghost use Rattle.batch_model.specs.WellFormed.{has_label, are_labels_out_of_order, is_covered, has_kept};
ghost use Rattle.row_keys.specs.Numbers.{number_at, count_at};
ghost use Rattle.row_keys.specs.Passes.{are_distinct};
ghost use Rattle.tables_check.specs.RowKeys.{metric_text};
ghost use Rattle.tables_check.specs.Latest.{is_above, latest};

use crate::keys::{MetricOfPool, metric_text};
use bt_base::NoMemory;
use bt_rows::sample::{Metric, SampleRow};
use bt_rows::tables::Tables;
use row_keys::{KeyNumbers, count_keys, key_of_text};
use std::alloc::Global;

/// The time between samples in milliseconds, of which labels are multiples.
const SAMPLE_INTERVAL: u64 = 30_000;

/// The greatest number of samples of a pool and metric that are kept.
const SAMPLE_LIMIT: u64 = 2_880;

/// Whether the label is a multiple of 30 seconds.
pub fn has_label(sample: &SampleRow) -> bool
    ensures { result ≡ has_label sample.now }
{
    sample.label % SAMPLE_INTERVAL == 0
}

/// Whether the label is above the one before it, if there is one.
fn is_above(before: Option<u64>, label: u64) -> bool
    ensures { result ≡ is_above before label }
{
    match before {
        None => true,
        Some(before) => before < label,
    }
}

/// Sets the label of the sample's pool and metric, and answers whether it is above the one before it.
pub fn put_label(
    alloc: Global,
    labels: &mut KeyNumbers,
    sample: &SampleRow,
) -> Result<bool, NoMemory>
    ensures above { IfOk result (λ above. above ≡ is_above (number_at labels.old (metric_text sample.now.pool sample.now.metric)) sample.now.label) }
    ensures labels { OnOk result ((text : Items ℕ) → number_at labels.new text ≡ (if bytes_eq (metric_text sample.now.pool sample.now.metric) text then Some sample.now.label else number_at labels.old text)) }
{
    let text = metric_text(&sample.pool, sample.metric);
    let above = is_above(labels.number(text.as_slice()), sample.label);
    labels.put(key_of_text(alloc, &text)?, sample.label)?;
    Ok(above)
}

/// Whether the labels of each pool and metric rise.
pub fn are_labels_rising(alloc: Global, tables: &Tables) -> Result<bool, NoMemory>
    ensures { IfOk result (λ rising. rising ≡ are_distinct are_labels_out_of_order tables.now.state.samples) }
{
    let mut labels = KeyNumbers::new(alloc);
    let mut rising = true;
    for sample in tables.samples() {
        let above = put_label(alloc, &mut labels, sample)?;
        rising &= above;
    }
    Ok(rising)
}

/// The last label of each pool and metric.
pub fn last_labels(alloc: Global, tables: &Tables) -> Result<KeyNumbers, NoMemory>
    ensures { IfOk result (λ labels. (text : Items ℕ) → number_at labels text ≡ latest text tables.now.state.samples) }
{
    let mut labels = KeyNumbers::new(alloc);
    for sample in tables.samples() {
        put_label(alloc, &mut labels, sample)?;
    }
    Ok(labels)
}

/// Whether the sample is of the processors' metric, or not above the last label of its pool's active tasks.
pub fn is_covered(labels: &KeyNumbers, sample: &SampleRow) -> bool
    ensures { result ≡ (same_metric sample.now.metric Cpu || option_map_or (nat_le sample.now.label) (number_at labels.now (metric_text sample.now.pool Active)) false) }
{
    if matches!(sample.metric, Metric::CpuPercent) {
        return true;
    }
    let text = metric_text(&sample.pool, Metric::ActiveTasks);
    match labels.number(text.as_slice()) {
        None => false,
        Some(newest) => sample.label <= newest,
    }
}

/// Whether each sample is of the processors' metric, or not above the last label of its pool's active tasks.
fn are_covered(labels: &KeyNumbers, tables: &Tables) -> bool
    ensures { result ≡ list_all (λ (sample : Sample). same_metric sample.metric Cpu || option_map_or (nat_le sample.label) (number_at labels.now (metric_text sample.pool Active)) false) tables.now.state.samples }
{
    tables.samples().all(|sample| is_covered(labels, sample))
}

/// Whether each sample of another metric than the processors' is not above the last label of its pool's active tasks.
pub fn are_samples_covered(alloc: Global, tables: &Tables) -> Result<bool, NoMemory>
    ensures { IfOk result (λ yes. yes ≡ list_all (is_covered tables.now.state) tables.now.state.samples) }
{
    let labels = last_labels(alloc, tables)?;
    let covered = are_covered(&labels, tables);
    Ok(covered)
}

/// Whether no more samples of the sample's pool and metric are kept than the limit.
pub fn is_few(counts: &KeyNumbers, sample: &SampleRow) -> bool
    ensures { result ≡ nat_le (count_at counts.now (metric_text sample.now.pool sample.now.metric)) sample_limit }
{
    let text = metric_text(&sample.pool, sample.metric);
    counts.count(text.as_slice()) <= SAMPLE_LIMIT
}

/// Whether no more samples of each sample's pool and metric are kept than the limit.
fn are_few(counts: &KeyNumbers, tables: &Tables) -> bool
    ensures { result ≡ list_all (λ (sample : Sample). nat_le (count_at counts.now (metric_text sample.pool sample.metric)) sample_limit) tables.now.state.samples }
{
    tables.samples().all(|sample| is_few(counts, sample))
}

/// Whether no more samples of a pool and metric are kept than the limit.
pub fn are_samples_few(alloc: Global, tables: &Tables) -> Result<bool, NoMemory>
    ensures { IfOk result (λ yes. yes ≡ list_all (has_kept tables.now.state) tables.now.state.samples) }
{
    let counts = count_keys::<MetricOfPool>(alloc, tables.samples())?;
    let few = are_few(&counts, tables);
    Ok(few)
}
