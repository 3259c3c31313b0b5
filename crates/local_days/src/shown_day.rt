//! The local day or month that a second is in.

ghost use Rattle.std.specs.Prelude.{◌≡◌, ◌<◌, ◌≤◌, pos};
ghost use Rattle.jiff.specs.Words.{plain_zone};
ghost use Rattle.local_days.specs.DaysShown.{IsDayAt, IsDayNumber, IsFirstDate, ShowsDate};
ghost use Rattle.local_days.specs.declared.shown_day.TheConstants.{LAST_SECOND};

use crate::local_interval::LocalInterval;
use jiff::Timestamp;
use jiff::civil::Date;
use jiff::tz::TimeZone;

/// The last second whose date each zone's clock can show, counted from 1970: 9999-12-30 22:00 in UTC.
pub const LAST_SECOND: u64 = 253_402_207_200;

/// The day, counted from 1970-01-01, on which the local interval begins that a second since 1970 is in: the clock of the zone
/// shows a date in it then. One that begins before 1970 is taken for the first, and later seconds are taken for
/// [`LAST_SECOND`].
pub fn day_at(interval: LocalInterval, zone: TimeZone, second: u64) -> u32
    ensures day { IsDayAt interval (plain_zone zone.entry) second result }
    ensures bound { result < 2_932_897 }
{
    let date = date_shown(zone, second.min(LAST_SECOND));
    day_number(first_date(interval, date))
}

// The date that the clock of a zone shows.
fn date_shown(zone: TimeZone, second: u64) -> Date
    requires { second ≤ LAST_SECOND }
    ensures { ShowsDate (plain_zone zone.entry) second result }
{
    match Timestamp::from_second(signed(second)) {
        Ok(instant) => instant.to_zoned(zone).date(),
        Err(_) => unreachable!(),
    }
}

fn signed(second: u64) -> i64
    requires { second ≤ LAST_SECOND }
    ensures { result ≡ pos second }
{
    second as i64
}

// The first date of the interval that a date is in.
fn first_date(interval: LocalInterval, date: Date) -> Date
    ensures { IsFirstDate interval date result }
{
    match interval {
        LocalInterval::Day => date,
        LocalInterval::Month => date.first_of_month(),
    }
}

// The number of a date's day, counted from 1970-01-01, where that is the least.
fn day_number(date: Date) -> u32
    ensures number { IsDayNumber date result }
    ensures bound { result < 2_932_897 }
{
    let days = date.to_plain().to_unix_epoch_day();
    if days < 0 { 0 } else { days as u32 }
}
