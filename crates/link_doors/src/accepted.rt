//! The answers of listeners.

/// What a listener answers if it is asked for a link (this project's own).
#[derive(Debug, Drop)]
pub enum Accepted<L> {
    /// This link to a peer, which is out from now on.
    Link(L),
    /// It has ended: it has no more links.
    Ended,
    /// It failed, and counted a fault.
    Failed,
}
