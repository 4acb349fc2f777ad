//! How many samples of each metric of a pool are kept, and the oldest and the newest of them.
ghost use Rattle.std.specs.Prelude.{◌≡◌};
ghost use Rattle.batch_model.specs.Samples.{is_sample_of};
ghost use Rattle.batch_model.specs.Variants.{Metric as MetricValue};
ghost use Rattle.pool_samples.specs.Kept.{AreKept, kept_at, leaving, none_kept, noted, noted_if};

use bt_base::{Id, Metric};
use bt_rows::sample::{SampleRow, metric_number};
use bt_rows::tables::Tables;
use bt_samples::MAX_SAMPLES;

/// The number of metrics.
pub const METRICS: usize = 10;

/// The samples of a metric that are kept.
#[derive(Clone, Copy)]
pub struct Kept {
    /// How many more are kept before the oldest one goes.
    pub room: usize,
    /// The label of the oldest one, in milliseconds since 1970.
    pub oldest: Option<u64>,
    /// The label of the newest one, in milliseconds since 1970.
    pub newest: Option<u64>,
}

impl Kept {
    /// No samples.
    fn none() -> Kept
        ensures { result ≡ none_kept }
    {
        Kept {
            room: MAX_SAMPLES,
            oldest: None,
            newest: None,
        }
    }

    /// With one more sample, which has this label.
    fn noted(self, label: u64) -> Kept
        ensures { result ≡ noted label self }
    {
        Kept {
            room: self.room.saturating_sub(1),
            oldest: Some(self.oldest.unwrap_or(label)),
            newest: Some(label),
        }
    }

    /// The label of the sample that goes when one more is added; None if there is room.
    pub fn leaving(self) -> Option<u64>
        ensures { result ≡ leaving self }
    {
        if self.room == 0 { self.oldest } else { None }
    }
}

/// What is kept of the metric.
#[tactic(auto, using(crate::proofs::KeptLabels::place_below))]
pub fn kept_of(kept: &[Kept; METRICS], metric: Metric) -> Kept
    ensures { result ≡ kept_at kept.now metric }
{
    kept[usize::from(metric_number(metric))]
}

/// Notes the sample, if it is one of the pool.
fn note(kept: &mut [Kept; METRICS], pool: &Id, sample: &SampleRow)
    ensures { (metric : MetricValue) → kept_at kept.new metric ≡ noted_if (is_sample_of pool.now metric sample.now) sample.now.label (kept_at kept.old metric) }
{
    if sample.pool.same(pool) {
        let place = usize::from(metric_number(sample.metric));
        kept[place] = kept[place].noted(sample.label);
    }
}

/// What is kept of each metric of the pool. It goes once over the samples, and does not allocate.
pub fn kept_samples(tables: &Tables, pool: &Id) -> [Kept; METRICS]
    ensures { AreKept tables.now.state pool.now result }
{
    let mut kept = [Kept::none(); METRICS];
    for sample in tables.samples() {
        note(&mut kept, pool, sample);
    }
    kept
}
