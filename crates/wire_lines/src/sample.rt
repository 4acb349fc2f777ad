//! Samples in a line.
ghost use Rattle.std.specs.Prelude.{◌≡◌, true, IfOk, IfSome};
ghost use Rattle.bt_base.specs.Fails.{Gives};
ghost use Rattle.bt_rows.specs.Ranges.{is_percentage};
ghost use Rattle.wire_lines.specs.Samples.{if_percentage, percentage_in, pool_and_percentage};

use crate::arguments::{UNREADABLE, id_argument};
use crate::parts::split_just_two;
use bt_base::{Fail, Id, Num, text_of};
use bt_rows::member::Member;
use bt_rows::refusal::Refusal;
use std::alloc::Global;
use wire_members::invalid_property;

/// The number 100, in millionths.
const HUNDRED: i64 = 100_000_000;

/// The number, if it is from 0 to 100.
fn if_percentage(number: Num) -> Option<Num>
    ensures value { result ≡ if_percentage number }
    ensures kept { IfSome result (λ percentage. is_percentage percentage ≡ true) }
{
    let millionths = number.millionths();
    if 0 <= millionths && millionths <= HUNDRED {
        Some(number)
    } else {
        None
    }
}

/// A number from 0 to 100: digits, and a point and digits after it, which may be left out. Decimals after the sixth are cut off.
fn read_percentage(bytes: &[u8]) -> Option<Num>
    ensures value { result ≡ percentage_in bytes.now }
    ensures kept { IfSome result (λ percentage. is_percentage percentage ≡ true) }
{
    let text = text_of(bytes)?;
    let number = Num::read(text).ok()?;
    if_percentage(number)
}

/// The id of a pool and a percentage from 0 to 100, which are the only arguments of a line. Another number of arguments is
/// `UnreadableBody`, a bad id `InvalidPropertyValue(Id)`, and then a bad percentage `InvalidPropertyValue(Value)`. It fails with `Memory`
/// when out of memory.
#[tactic(auto, unfolding(crate::specs::Samples::pool_and_percentage))]
pub fn pool_and_percentage(alloc: Global, text: &[u8]) -> Result<(Id, Num), Fail<Refusal>>
    ensures value { Gives result (pool_and_percentage text.now) }
    ensures kept { IfOk result (λ parts. is_percentage parts.1 ≡ true) }
{
    let (pool, percentage) = split_just_two(text).ok_or(UNREADABLE)?;
    let pool = id_argument(alloc, pool)?;
    let percentage = read_percentage(percentage).ok_or(invalid_property(Member::Value))?;
    Ok((pool, percentage))
}
