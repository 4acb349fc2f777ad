//! Moments and endings in a line.
ghost use Rattle.std.specs.Prelude.{◌≡◌};
ghost use Rattle.wire_lines.specs.Endings.{moment_in, code_in, ending_in, code_below, code_above};

use bt_base::{Moment, read_number};
use bt_rows::run::Ending;

/// A moment, as the digits of its milliseconds since 1970. It does not allocate.
pub fn read_moment(text: &[u8]) -> Option<Moment>
    ensures { result ≡ moment_in text.now }
{
    Moment::of_ms(read_number(text)?)
}

/// The exit code with a minus sign before the number, if it has 32 bits.
fn code_below(n: u64) -> Option<i32>
    ensures { result ≡ code_below n }
{
    if n <= 1 << 31 {
        Some((-(n as i64)) as i32)
    } else {
        None
    }
}

/// The exit code without a sign, if it has 32 bits.
fn code_above(n: u64) -> Option<i32>
    ensures { result ≡ code_above n }
{
    if n < 1 << 31 { Some(n as i32) } else { None }
}

/// An exit code of 32 bits: digits with at most one minus sign before them.
fn read_code(text: &[u8]) -> Option<i32>
    ensures { result ≡ code_in text.now }
{
    match text {
        [b'-', digits @ ..] => code_below(read_number(digits)?),
        _ => code_above(read_number(text)?),
    }
}

/// How a run ended: `none`, `notstarted`, or an exit code, which is digits with at most one minus sign before them. It does not
/// allocate.
#[tactic(auto, unfolding(crate::specs::Endings::ending_in))]
pub fn read_ending(text: &[u8]) -> Option<Ending>
    ensures { result ≡ ending_in text.now }
{
    if text == b"none".as_slice() {
        Some(Ending::NoCode)
    } else if text == b"notstarted".as_slice() {
        Some(Ending::NotStarted)
    } else {
        Some(Ending::Code(read_code(text)?))
    }
}
