//! The members of timestamps.
ghost use Rattle.std.specs.Prelude.{◌≡◌};
ghost use Rattle.formula_values.specs.Members.{member_value, member_of as part_shown};

use crate::value::{Value, whole};
use bt_times::{Civil, civil};
use formula_trees::Member;

/// The value of a member: a part of what calendars and clocks in UTC show at a timestamp. It does not allocate.
pub fn member(member: Member, operand: &Value) -> Value
    ensures { result ≡ member_value member operand.now }
{
    match operand {
        Value::Timestamp(time) => whole(part_of(member, civil(time.units()))),
        _ => whole(0),
    }
}

fn part_of(member: Member, shown: Civil) -> u32
    ensures { result ≡ part_shown member shown }
{
    match member {
        Member::Year => shown.year,
        Member::Month => shown.month,
        Member::Day => shown.day,
        Member::Weekday => shown.weekday,
        Member::Hour => shown.hour,
        Member::Minute => shown.minute,
        Member::Second => shown.second,
    }
}
