//! When a local interval begins.

ghost use Rattle.std.specs.Prelude.{◌≡◌, ◌≤◌, ◌<ℤ◌, ℕ, IfNone, IfSome, int_div, pos};
ghost use Rattle.jiff_core.specs.Date.{epoch_day};
ghost use Rattle.jiff.specs.Words.{plain_zone};
ghost use Rattle.local_days.specs.LocalDays.{BeginsAt, begins_on};
ghost use Rattle.local_days.specs.Pushed.{BeginsNever};
ghost use Rattle.local_days.specs.declared.borders.TheConstants.{LAST_DAY};

use crate::local_interval::LocalInterval;
use jiff::Timestamp;
use jiff::civil::Date;
use jiff::tz::TimeZone;

/// Whether an interval begins on a date.
pub fn is_first_day(interval: LocalInterval, date: Date) -> bool
    ensures { result ≡ begins_on interval date }
{
    match interval {
        LocalInterval::Day => true,
        LocalInterval::Month => date.day() == 1,
    }
}

/// The millisecond since 1970-01-01 UTC that a date begins at in a time zone: that of its midnight, or if the clock
/// skips that, the first after it. There is none before 1970.
pub fn start_of(zone: TimeZone, date: Date) -> Option<u64>
    ensures some { IfSome result (BeginsAt (plain_zone zone.entry) date) }
    ensures none { IfNone result ((day : ℕ) → day ≤ LAST_DAY → epoch_day date ≡ pos day
        → BeginsNever (plain_zone zone.entry) date) }
{
    match date.to_zoned(zone) {
        Ok(midnight) => millisecond_of(midnight.timestamp()),
        Err(_) => None,
    }
}

// The millisecond since 1970-01-01 UTC that an instant is in, if it isn't before.
fn millisecond_of(instant: Timestamp) -> Option<u64>
    ensures some { IfSome result (λ time. pos time ≡ int_div instant.nanosecond (pos 1_000_000)) }
    ensures none { IfNone result (int_div instant.nanosecond (pos 1_000_000) <ℤ pos 0) }
{
    let millisecond = instant.as_millisecond();
    if millisecond < 0 {
        return None;
    }
    Some(millisecond as u64)
}
