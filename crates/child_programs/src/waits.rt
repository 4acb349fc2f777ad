//! How long a start waits before it is tried again.
use std::time::Duration;

/// The first wait, in milliseconds.
const FIRST_WAIT_MS: u64 = 50;

/// The longest wait, in milliseconds.
const LONGEST_WAIT_MS: u64 = 5_000;

/// After so many waits none is doubled any more.
const DOUBLED_WAITS: u32 = 7;

/// How many waits one start has: those that are doubled last 6.35 seconds together, and the other 119 last 595 seconds, so that all
/// last 10 minutes.
pub(crate) const WAITS: u32 = 126;

/// How long the wait after so many earlier ones lasts: 50 milliseconds at first, each time twice as long, and at most 5 seconds.
pub(crate) fn wait_after(earlier: u32) -> Duration {
    let doubled = FIRST_WAIT_MS << earlier.min(DOUBLED_WAITS);
    Duration::from_millis(doubled.min(LONGEST_WAIT_MS))
}
