//! The folders of periods, by their names.

ghost use Rattle.std.specs.Prelude.{◌≡◌, ◌<◌, ⊤, [], codes, pos, IfNone, IfSome, MatchOption};
ghost use Rattle.jiff_core.specs.Calendar.{IsDate};
ghost use Rattle.jiff_core.specs.Date.{IsYmd, epoch_day};
ghost use Rattle.recording_names.specs.PeriodNames.{time_text};
ghost use Rattle.recording_periods.specs.Digits.{HaveDigits, Reads, ReadsPair};
ghost use Rattle.recording_periods.specs.PeriodFolders.{HasNoPeriod, IsDay, IsPeriodAt, parts_text};

use jiff_core::civil::Date;
use recording_names::Period;

const SECONDS_OF_A_DAY: u64 = 86_400;

/// The period whose folder has these names: `YYYY-MM-DD`, and `HHMMSS` in it.
pub fn read_period_at(day: &str, time: &str) -> Option<Period>
    ensures none { IfNone result (HasNoPeriod day.now time.now) }
    ensures read { IfSome result (λ period. IsPeriodAt period.begins day.now time.now) }
{
    let days = read_day(day.as_bytes())?;
    let second = read_time(time.as_bytes())?;
    Some(Period {
        begins: u64::from(days) * SECONDS_OF_A_DAY + u64::from(second),
    })
}

// The day of a date, counted from 1970-01-01.
fn read_day(octets: &[u8]) -> Option<u32>
    ensures day { Reads (λ days. IsDay days octets.now) result }
    ensures bound { MatchOption result ⊤ (λ days. days < 2_932_897) }
{
    let (year, month, day) = date_parts(octets)?;
    let date = date_at(year, month, day)?;
    days_of(date)
}

// The date with these parts, if the calendar has it.
fn date_at(year: u16, month: u8, day: u8) -> Option<Date>
    requires { HaveDigits year month day }
    ensures none { IfNone result (¬ IsDate (pos year) (pos month) (pos day)) }
    ensures date { IfSome result (IsYmd (pos year) (pos month) (pos day)) }
{
    match Date::new(year as i16, month as i8, day as i8) {
        Ok(date) => Some(date),
        Err(_) => None,
    }
}

// The day of a date, if it isn't before 1970-01-01.
fn days_of(date: Date) -> Option<u32>
    ensures day { Reads (λ days. epoch_day date ≡ pos days) result }
    ensures bound { MatchOption result ⊤ (λ days. days < 2_932_897) }
{
    let days = date.to_unix_epoch_day();
    if days < 0 { None } else { Some(days as u32) }
}

// The year, the month and the day of a text with the form of a date.
fn date_parts(octets: &[u8]) -> Option<(u16, u8, u8)>
    ensures { Reads (λ r. HaveDigits r.0 r.1 r.2 × (octets.now ≡ parts_text r.0 r.1 r.2)) result }
{
    let (century, rest) = take_pair(octets)?;
    let (year, rest) = take_pair(rest)?;
    let (month, rest) = take_hyphened(rest)?;
    let (day, rest) = take_hyphened(rest)?;
    if rest.is_empty() {
        Some((u16::from(century) * 100 + u16::from(year), month, day))
    } else {
        None
    }
}

// The second of the day of a time.
fn read_time(octets: &[u8]) -> Option<u32>
    ensures { Reads (λ second. (second < 86_400) × (octets.now ≡ time_text second)) result }
{
    let (hour, rest) = take_pair(octets)?;
    let (minute, rest) = take_pair(rest)?;
    let (second, rest) = take_pair(rest)?;
    if rest.is_empty() && hour < 24 && minute < 60 && second < 60 {
        Some(u32::from(hour) * 3_600 + u32::from(minute) * 60 + u32::from(second))
    } else {
        None
    }
}

// What a hyphen and two digits at the front are, and what follows.
fn take_hyphened(octets: &[u8]) -> Option<(u8, &[u8])>
    ensures { ReadsPair (codes "-") octets.now result }
{
    match octets {
        [b'-', rest @ ..] => take_pair(rest),
        _ => None,
    }
}

// What two digits at the front are, and what follows.
fn take_pair(octets: &[u8]) -> Option<(u8, &[u8])>
    ensures { ReadsPair [] octets.now result }
{
    let [tens, units, rest @ ..] = octets else {
        return None;
    };
    if tens.is_ascii_digit() && units.is_ascii_digit() {
        Some(((*tens - b'0') * 10 + (*units - b'0'), rest))
    } else {
        None
    }
}
