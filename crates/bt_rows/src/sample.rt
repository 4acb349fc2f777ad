//! Samples of metrics.
ghost use Rattle.std.specs.Prelude.{◌≡◌};
ghost use Rattle.bt_rows.specs.Keys.{sample_has_key, same_sample};
ghost use Rattle.bt_rows.specs.Metrics.{place_of_metric};
ghost use Rattle.bt_rows.specs.Texts.{label_text, sample_text, sample_key_text, sample_by_text, same_sample_by_text};

pub use bt_base::Metric;
use bt_base::{Duplicate, Id, NoMemory, Num};
use kept_table::{KeyText, Keyed};

/// A sample of a pool's metric (Azure: what `GetSample` of autoscale formulas reads). Its key is pool, metric and label.
pub struct SampleRow {
    /// The id of the pool.
    pub pool: Id,
    /// The metric.
    pub metric: Metric,
    /// When it was taken, in milliseconds since 1970: a multiple of 30,000.
    pub label: u64,
    /// The value, in millionths.
    pub value: Num,
}

impl Drop for SampleRow {
    fn drop(self) {
        let SampleRow {
            pool: _pool,
            metric: _metric,
            label: _label,
            value: _value,
        } = self;
    }
}

/// The key of a sample.
pub struct SampleKey {
    /// The id of the pool.
    pub pool: Id,
    /// The metric.
    pub metric: Metric,
    /// When it was taken, in milliseconds since 1970: a multiple of 30,000.
    pub label: u64,
}

impl Drop for SampleKey {
    fn drop(self) {
        let SampleKey {
            pool: _pool,
            metric: _metric,
            label: _label,
        } = self;
    }
}

impl Duplicate for SampleRow {
    fn copy(&self) -> Result<SampleRow, NoMemory> {
        let pool = self.pool.copy()?;
        Ok(SampleRow {
            pool,
            metric: self.metric,
            label: self.label,
            value: self.value,
        })
    }
}

impl Duplicate for SampleKey {
    fn copy(&self) -> Result<SampleKey, NoMemory> {
        let pool = self.pool.copy()?;
        Ok(SampleKey {
            pool,
            metric: self.metric,
            label: self.label,
        })
    }
}

impl Keyed for SampleRow {
    type Key = SampleKey;

    ghost has_key = { sample_has_key };

    ghost same_key = { same_sample };

    ghost key_text = { sample_key_text };

    ghost row_text = { sample_text };

    ghost texts_decide = { record { has = sample_by_text; same = same_sample_by_text } };

    fn key_text(key: &SampleKey) -> KeyText {
        label_text(&key.pool, key.metric, key.label)
    }

    fn row_text(&self) -> KeyText {
        label_text(&self.pool, self.metric, self.label)
    }
}

/// The number by which a metric stands in texts of keys, 0 to 9.
pub fn metric_number(metric: Metric) -> u8
    ensures { result ≡ place_of_metric metric }
{
    match metric {
        Metric::CpuPercent => 0,
        Metric::ActiveTasks => 1,
        Metric::RunningTasks => 2,
        Metric::PendingTasks => 3,
        Metric::SucceededTasks => 4,
        Metric::FailedTasks => 5,
        Metric::TaskSlotsPerNode => 6,
        Metric::CurrentDedicatedNodes => 7,
        Metric::CurrentLowPriorityNodes => 8,
        Metric::PreemptedNodeCount => 9,
    }
}

/// The text of the key of the pool's sample of this metric and label.
#[tactic(auto, using(kept_table::proofs::KeyTexts::number_text_length))]
pub(crate) fn label_text(pool: &Id, metric: Metric, label: u64) -> KeyText
    ensures { result ≡ label_text metric label pool.now }
{
    let mut text = KeyText::new();
    text.push(metric_number(metric));
    text.push_number(label);
    text.push_id(pool);
    text
}
