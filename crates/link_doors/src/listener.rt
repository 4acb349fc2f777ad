//! The trait of listeners.
ghost use Rattle.std.specs.Prelude.{◌≡◌, ◌||◌, true, false, ℕ, Bool};
ghost use Rattle.link_doors.specs.Answers.{has_link, is_end, HasAcceptCause};
ghost use Rattle.link_doors.specs.declared.accepted.Accepted.{Accepted as Answer};

use crate::accepted::Accepted;
use http_link::Link;

/// What gives links to peers, one at a time.
pub trait Listener {
    /// The links that it gives.
    type Link: Link;

    /// How often it has failed. The count never falls.
    ghost faults: { Self → ℕ };

    /// Whether a link that it gave was not handed back yet.
    ghost is_out: { Self → Bool };

    /// Whether it has answered `Ended`.
    ghost has_ended: { Self → Bool };

    /// A relation between the listener, its answer if it is asked for a link, and the listener after that.
    ghost accepted: { Self → Answer Self.Link → Self → Type 0 };

    /// A relation between the listener, a link that is handed back to it, and the listener after that.
    ghost taken_back: { Self → Self.Link → Self → Type 0 };

    /// Waits for a peer, and returns the link to it. Returns `Ended` if there will be no more links, and `Failed` only if the
    /// count of faults rose in this call.
    fn accept(&mut self) -> Accepted<Self::Link>
        requires none_out { is_out self.old ≡ false }
        ensures accepted { accepted self.old result self.new }
        ensures out { is_out self.new ≡ has_link result }
        ensures ended { has_ended self.new ≡ (has_ended self.old || is_end result) }
        ensures cause { HasAcceptCause (faults self.old) (faults self.new) result };

    /// Takes back the link that is out, as it is after it was served. It cannot fail, and does not allocate.
    fn done(&mut self, link: Self::Link)
        requires out { is_out self.old ≡ true }
        ensures taken_back { taken_back self.old link self.new }
        ensures none_out { is_out self.new ≡ false }
        ensures same_end { has_ended self.new ≡ has_ended self.old }
        ensures same_faults { faults self.new ≡ faults self.old };
}
