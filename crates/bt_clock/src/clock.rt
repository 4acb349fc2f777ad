//! The trait of clocks.
ghost use Rattle.std.specs.Prelude.{◌≡◌, ◌||◌, not, ℕ, Bool};

use bt_base::Moment;

/// What tells the moment, and when a service is to end.
pub trait Clock {
    /// A relation between the clock, a moment that it gives, and the clock after that.
    ghost gives: { Self → ℕ → Self → Type 0 };

    /// A relation between the clock, what a pause returned, and the clock after it.
    ghost pauses: { Self → Bool → Self → Type 0 };

    /// Whether a pause said that the service is to end.
    ghost has_ended: { Self → Bool };

    /// The moment now. It may be before one that was given earlier.
    fn now(&mut self) -> Moment
        ensures given { gives self.old result self.new }
        ensures same_end { has_ended self.new ≡ has_ended self.old };

    /// Waits a little. Returns false once the service is to end.
    fn pause(&mut self) -> bool
        ensures told { pauses self.old result self.new }
        ensures ended { has_ended self.new ≡ (has_ended self.old || not result) };
}
