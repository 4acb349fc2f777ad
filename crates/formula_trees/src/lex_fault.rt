//! Why a text has no tokens.

/// The first fault of a formula's text, with its place, which counts the text's bytes from 0.
#[derive(Clone, Copy, PartialEq, Eq, Debug)]
pub enum LexFault {
    /// No token begins with this byte.
    BadCharacter(usize),
    /// The string that begins with this quote has no end on its line.
    OpenString(usize),
    /// The number that begins here is over 10^12 once it is cut after its sixth decimal.
    NumberTooLarge(usize),
}
