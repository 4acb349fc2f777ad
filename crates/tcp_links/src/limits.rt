//! How long a link waits for its peer.

/// The longest time from the start of a connection to the first byte of its first message, in milliseconds (this project's profile).
pub const MAX_FIRST_BYTE_MS: u64 = 60_000;

/// The longest time from the first byte of a message to its last, in milliseconds (this project's profile).
pub const MAX_MESSAGE_MS: u64 = 60_000;

/// The longest time that an answer may take until the connection has taken all of it, in milliseconds (this project's profile).
pub const MAX_ANSWER_MS: u64 = 60_000;

/// The longest time from an answer to the first byte of the next message, in milliseconds (this project's profile).
pub const MAX_KEPT_MS: u64 = 15_000;

/// The longest time that is left of a message or an answer once the service is stopping, in milliseconds (this project's profile).
pub const MAX_STOPPING_MS: u64 = 5_000;

/// The longest time that the end of a connection waits for bytes of the peer, in milliseconds (this project's profile).
pub const MAX_DRAIN_MS: u64 = 1_000;

/// The longest time that one call of the system waits, in milliseconds: how soon a wait sees that the service is stopping.
pub const MAX_CALL_MS: u64 = 1_000;

/// How long a link waits for its peer, in milliseconds. The default is the profile's, `MAX_FIRST_BYTE_MS` and so on; tests take
/// shorter times.
#[derive(Clone, Copy, Debug, PartialEq, Eq)]
pub struct WaitLimits {
    /// From the start of the connection to its first byte.
    pub first_byte_ms: u64,
    /// From the first byte of a message to its last.
    pub message_ms: u64,
    /// From the first write of an answer to its last.
    pub answer_ms: u64,
    /// From an answer to the first byte of the next message.
    pub kept_ms: u64,
}

impl Default for WaitLimits {
    fn default() -> WaitLimits {
        WaitLimits {
            first_byte_ms: MAX_FIRST_BYTE_MS,
            message_ms: MAX_MESSAGE_MS,
            answer_ms: MAX_ANSWER_MS,
            kept_ms: MAX_KEPT_MS,
        }
    }
}
