//! Moments and durations, in milliseconds.
ghost use Rattle.std.specs.Prelude.{◌≡◌};
ghost use Rattle.batch_model.specs.Finding.{has_passed};

/// Whether a duration, in milliseconds, from a moment on is over; no limit never is.
pub fn has_passed(from: u64, duration: Option<u64>, now: u64) -> bool
    ensures { result ≡ has_passed from duration now }
{
    match duration {
        None => false,
        Some(duration) => from <= now && duration <= now - from,
    }
}
