//! Faults of a formula's syntax.

/// How many marks may be open at one place: each `(`, `[`, unary operator and `?` is open until its expression ends (this
/// project's profile).
pub const DEEPEST: usize = 64;

/// The first fault of a formula's tokens. The place counts the text's bytes from 0.
#[derive(Clone, Copy, PartialEq, Eq, Debug)]
pub enum SyntaxFault {
    /// The token at this place cannot follow those before it, or one is missing at the end of the text.
    UnexpectedToken(usize),
    /// With the token at this place more than `DEEPEST` marks would be open.
    TooDeep(usize),
}
