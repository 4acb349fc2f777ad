//! Parts of dates and times in UTC.
ghost use Rattle.std.specs.Prelude.{◌≡◌, unsigned_abs};
ghost use Rattle.bt_times.specs.Civils.{IsInstant, civil_of};

use crate::parts::Civil;
use jiff_core::civil::DateTime;

/// The date and time in UTC of an instant, which is given in units of 100 ns since 1970-01-01T00:00:00Z. It does not allocate.
pub fn civil(t: i64) -> Civil
    requires { IsInstant t }
    ensures { result ≡ civil_of (unsigned_abs t) }
{
    let shown = DateTime::from_nanosecond_in_range(i128::from(t) * 100);
    Civil {
        year: u32::from(shown.date.year.unsigned_abs()),
        month: u32::from(shown.date.month),
        day: u32::from(shown.date.day),
        weekday: u32::from(shown.date.weekday().to_monday_one_offset().unsigned_abs()),
        hour: u32::from(shown.time.hour),
        minute: u32::from(shown.time.minute),
        second: u32::from(shown.time.second),
    }
}
