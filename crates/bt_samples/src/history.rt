//! The last samples of a metric.
ghost use Rattle.std.specs.Prelude.{◌≡◌, ℕ, ◌≤◌, [], IfOk, length, count_by};
ghost use Rattle.bt_samples.specs.KeptSamples.{HoldsTheLastTaken};
ghost use Rattle.bt_samples.specs.Histories.{kept, newest, oldest, pushed, push_answer, last_values, values_within, is_within, percentage, percent_within};

use bt_base::{NoMemory, Num};
use std::alloc::Global;
use std::marker::Model;

/// A value of a metric at a moment.
#[derive(Clone, Copy, Debug, PartialEq, Eq)]
pub struct Sample {
    /// When it was taken, in milliseconds since 1970-01-01T00:00:00Z; a multiple of 30,000.
    pub label: u64,
    /// The value.
    pub value: Num,
}

/// A sample's label is not greater than that of the newest sample, which this carries, in milliseconds since
/// 1970-01-01T00:00:00Z.
#[derive(Clone, Copy, Debug, PartialEq, Eq)]
pub struct SampleTooOld(pub u64);

/// The greatest count of samples in a history (this project's profile).
pub const MAX_SAMPLES: usize = 2880;

/// The time between two samples, in milliseconds (this project's profile).
pub const SAMPLE_INTERVAL_MS: u64 = 30_000;

/// The last 2,880 samples of a metric: those of a day (this project's profile). Contracts see them as a list, oldest first.
#[derive(Debug, Drop)]
pub struct History {
    samples: Vec<Sample>,
}

impl Model for History {
    ghost use Rattle.std.specs.Prelude.{List as Items};
    ghost use Rattle.bt_samples.specs.Histories.{HasRoom};
    ghost use Rattle.bt_samples.specs.declared.history.Sample.{Sample};

    ghost Value = { Items Sample };

    ghost view = { λ h. h.samples.items };

    ghost invariant = { HasRoom };
}

impl History {
    /// A history without samples. It allocates the memory of all samples that it can hold; returns `NoMemory` if it is out of
    /// memory.
    pub fn new(alloc: Global) -> Result<History, NoMemory>
        ensures { IfOk result (λ history. history ≡ []) }
    {
        Ok(History {
            samples: Vec::with_capacity(alloc, MAX_SAMPLES)?,
        })
    }

    /// Adds the newest sample. If there are 2,880 already, the oldest is removed. Returns `SampleTooOld` exactly if the label is
    /// not greater than that of the newest sample; then nothing changes. It does not allocate.
    pub fn push(&mut self, label: u64, value: Num) -> Result<(), SampleTooOld>
        ensures answer { result ≡ push_answer self.old label }
        ensures samples { self.new ≡ pushed self.old (record { label = label; value = value }) }
    {
        if let Some(newest) = self.newest()
            && label <= newest
        {
            return Err(SampleTooOld(newest));
        }
        if self.samples.len() == MAX_SAMPLES {
            self.samples.remove(0);
        }
        self.samples.push_reserved(Sample { label, value });
        Ok(())
    }

    /// The values of the newest samples, at most `n`, newest first. Returns `NoMemory` if it is out of memory.
    pub fn last(&self, n: u32) -> Result<Vec<Num>, NoMemory>
        ensures { IfOk result (λ taken. taken.items ≡ last_values self.now n) }
    {
        Ok(
            self.samples
                .iter()
                .rev()
                .map(|sample| sample.value)
                .take(n as usize)
                .collect(*self.samples.allocator())?,
        )
    }

    /// The values of the samples with labels from `a` to `b`, both included, newest first. Labels are in milliseconds since
    /// 1970-01-01T00:00:00Z. Returns `NoMemory` if it is out of memory.
    pub fn between(&self, a: u64, b: u64) -> Result<Vec<Num>, NoMemory>
        ensures { IfOk result (λ taken. taken.items ≡ values_within self.now a b) }
    {
        Ok(
            self.samples
                .iter()
                .rev()
                .filter(|sample| a <= sample.label && sample.label <= b)
                .map(|sample| sample.value)
                .collect(*self.samples.allocator())?,
        )
    }

    /// The percentage of labels from `a` to `b`, both included, that have a sample: 100 times the count of samples there, over
    /// the count of multiples of 30,000 there, cut off after six decimals; 0 if there are no such multiples. It does not
    /// allocate.
    pub fn percent(&self, a: u64, b: u64) -> Num
        ensures { result ≡ percent_within self.now a b }
    {
        let labels = (b / SAMPLE_INTERVAL_MS + 1).saturating_sub(a.div_ceil(SAMPLE_INTERVAL_MS));
        percentage(self.count_within(a, b), labels)
    }

    fn count_within(&self, a: u64, b: u64) -> u64
        ensures number { result ≡ count_by (is_within a b) self.now }
        ensures bound { result ≤ kept }
    {
        self.samples
            .iter()
            .filter(|sample| (a..=b).contains(&sample.label))
            .count() as u64
    }

    /// How many samples there are, at most 2,880. It does not allocate.
    pub fn count(&self) -> u32
        ensures number { result ≡ length self.now }
        ensures bound { result ≤ kept }
    {
        self.samples.len() as u32
    }

    /// The label of the oldest sample, in milliseconds since 1970-01-01T00:00:00Z; None if there are no samples. It does not
    /// allocate.
    pub fn begin(&self) -> Option<u64>
        ensures { result ≡ oldest self.now }
    {
        self.samples.first().map(|sample| sample.label)
    }

    /// The label of the newest sample.
    fn newest(&self) -> Option<u64>
        ensures { result ≡ newest self.now }
    {
        self.samples.last().map(|sample| sample.label)
    }
}

fn percentage(part: u64, whole: u64) -> Num
    requires { part ≤ kept }
    ensures { result ≡ percentage part whole }
{
    let millionths = if whole == 0 {
        0
    } else {
        100_000_000 * part / whole
    };
    match Num::of_millionths(millionths as i64) {
        Some(percentage) => percentage,
        None => unreachable!(),
    }
}

/// Whatever samples are pushed to an empty history, it holds the last 2,880 of those that are taken: of the samples whose
/// labels are greater than those of all samples before them. It does nothing at run time.
pub fn pushes_keep_the_last()
    ensures { HoldsTheLastTaken }
{}
