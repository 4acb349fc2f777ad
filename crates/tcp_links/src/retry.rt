//! How a listener tries again to accept a connection.
use crate::cause::AcceptCause;
use std::sync::atomic::{AtomicBool, AtomicU64, Ordering};
use std::time::{Clock, Duration};

/// The first wait after a failure, in milliseconds; it doubles up to `MAX_RETRY_MS`.
pub const MIN_RETRY_MS: u64 = 10;

/// The longest wait after a failure, in milliseconds.
pub const MAX_RETRY_MS: u64 = 1_000;

/// How long errors that are not known to pass may go on, in milliseconds of waits, before the listener fails.
pub const MAX_UNKNOWN_MS: u64 = 600_000;

/// The shortest time between two tellings of a failure, in milliseconds.
const QUIET_MS: u64 = 60_000;

/// The failures of one listener since it last could accept.
#[derive(Clone, Copy)]
pub(crate) struct Retry {
    wait_ms: u64,
    /// The sum of the waits after errors that are not known to pass.
    unknown_ms: u64,
}

impl Retry {
    /// No failure yet.
    pub fn new() -> Retry {
        Retry {
            wait_ms: MIN_RETRY_MS,
            unknown_ms: 0,
        }
    }

    /// How long to wait after a failure with this cause before the next try; None if it does not pass.
    pub fn next_wait(&mut self, cause: AcceptCause) -> Option<Duration> {
        let wait = self.wait_ms;
        self.wait_ms = wait.saturating_mul(2).min(MAX_RETRY_MS);
        match cause {
            AcceptCause::Socket => return None,
            AcceptCause::Unknown(_) | AcceptCause::Unnumbered => {
                if self.unknown_ms >= MAX_UNKNOWN_MS {
                    return None;
                }
                self.unknown_ms = self.unknown_ms.saturating_add(wait);
            }
            AcceptCause::ProgramFiles
            | AcceptCause::SystemFiles
            | AcceptCause::SystemMemory
            | AcceptCause::Connection => {}
        }
        Some(Duration::from_millis(wait))
    }
}

/// What the listeners of one socket have told of their failures. One of them tells for all.
#[derive(Drop)]
pub(crate) struct Told {
    is_told: AtomicBool,
    /// Before this time of the monotonic clock, in milliseconds, no failure is told.
    quiet_until_ms: AtomicU64,
}

impl Told {
    /// Nothing was told yet.
    pub fn new() -> Told {
        Told {
            is_told: AtomicBool::new(false),
            quiet_until_ms: AtomicU64::new(0),
        }
    }

    /// Whether a failure that happens now is to be told; then it counts as told.
    pub fn tells_failure<R: Clock>(&self, rt: &R) -> bool {
        let now_ms = match rt.monotonic() {
            Ok(time) => u64::try_from(time.as_millis()).unwrap_or(u64::MAX),
            Err(_) => return false,
        };
        if now_ms < self.quiet_until_ms.load(Ordering::SeqCst)
            || self.is_told.swap(true, Ordering::SeqCst)
        {
            return false;
        }
        self.quiet_until_ms
            .store(now_ms.saturating_add(QUIET_MS), Ordering::SeqCst);
        true
    }

    /// Whether it is to be told that the failures are over; then none counts as told.
    pub fn tells_end(&self) -> bool {
        self.is_told.load(Ordering::SeqCst) && self.is_told.swap(false, Ordering::SeqCst)
    }
}
