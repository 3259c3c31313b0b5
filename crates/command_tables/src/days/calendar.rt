//! Local days and months.

ghost use Rattle.command_tables.specs.Days.{IsDayOf};

use jiff::tz::TimeZone;
use local_days::{LocalInterval, day_at};
use recording_names::Period;

const SECONDS_OF_A_DAY: u64 = 86_400;

/// The local days, or months, of a time zone.
#[derive(Clone, Copy)]
pub struct Calendar<'z> {
    pub interval: LocalInterval,
    pub zone: TimeZone<'z>,
}

/// The day or month that a second since 1970 is in: the zone's clock shows a date in it then. It is told as the period that
/// begins with its first date in UTC.
pub fn day_of(calendar: &Calendar, second: u64) -> Period
    ensures { IsDayOf calendar.now second result.begins }
{
    let day = day_at(calendar.interval, calendar.zone, second);
    Period {
        begins: u64::from(day) * SECONDS_OF_A_DAY,
    }
}
