//! Durations that schedules state.
ghost use Rattle.std.specs.Prelude.{◌≡◌, ◌≤◌};
ghost use Rattle.schedule_rows.specs.Periods.{period_of};

use bt_rows::limits::DURATION_LIMIT;
use std::marker::Model;

/// The shortest period, in milliseconds: a minute (source: Azure Batch REST reference).
pub const LEAST_PERIOD_MS: u64 = 60_000;

/// A duration from a minute to 36,500 days, in whole milliseconds. Contracts see it as this number.
#[derive(Clone, Copy, Debug, PartialEq, Eq)]
pub struct Period {
    ms: u64,
}

impl Model for Period {
    ghost use Rattle.std.specs.Prelude.{ℕ, ◌≤◌};

    ghost Value = { ℕ };

    ghost view = { λ p. p.ms };

    ghost invariant = { λ p. 60000 ≤ p.ms };

    ghost inverse = { λ n. record { ms = n } };
}

impl Period {
    /// The period of this number of milliseconds; None if it is out of range. It does not allocate.
    pub fn of_ms(ms: u64) -> Option<Period>
        ensures { result ≡ period_of ms }
    {
        if LEAST_PERIOD_MS <= ms && ms <= DURATION_LIMIT {
            Some(Period { ms })
        } else {
            None
        }
    }

    /// Its length in milliseconds.
    pub fn ms(self) -> u64
        ensures value { result ≡ self }
        ensures long { 60000 ≤ result }
    {
        self.ms
    }
}
