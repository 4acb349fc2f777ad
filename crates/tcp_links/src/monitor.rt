//! What listeners and links tell, and ask before they write.
use crate::cause::AcceptCause;

/// What a listener tells when connections cannot be accepted, and what lets its links write. They call it in their own threads. No clause speaks of it.
pub trait TcpMonitor {
    /// No connection is accepted for now, and the listeners of the socket try again. It is told at the first failure and not again
    /// until `accept_goes_on` was, and at most once a minute.
    fn accept_waits(&self, cause: AcceptCause);

    /// Connections can be accepted again after `accept_waits`.
    fn accept_goes_on(&self);

    /// A link is about to write the piece to its peer. It may wait; the link fails, and writes nothing of the piece, if it returns false.
    fn before_write(&self, _piece: &[u8]) -> bool {
        true
    }
}
