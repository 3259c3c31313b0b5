//! The borders between local intervals.

ghost use Rattle.std.specs.Prelude.{◌≡◌, ◌≤◌, pos, IfNone, IfOk, IfSome, OnOk};
ghost use Rattle.jiff_core.specs.Date.{epoch_day};
ghost use Rattle.jiff.specs.Words.{plain_zone};
ghost use Rattle.local_days.specs.LocalDays.{AreBorders, IsStart};
ghost use Rattle.local_days.specs.Pushed.{PushesLater, PushesStart, StartsNever};
ghost use Rattle.local_days.specs.declared.borders.TheConstants.{LAST_DAY};

use crate::interval_start::{is_first_day, start_of};
use crate::local_interval::LocalInterval;
use jiff::civil::Date;
use jiff::tz::TimeZone;
use jiff_core::civil::Date as CivilDate;
use std::alloc::{AllocError, Global};

/// The last day whose begin is a border, counted from 1970-01-01: in it the export times of messages end (RFC 7011,
/// section 3.1).
pub const LAST_DAY: u32 = 49_710;

/// The borders between the intervals of a time zone, in milliseconds since 1970-01-01 UTC: 0, and then the begin of each
/// interval after that, up to that of the last that begins by [`LAST_DAY`].
///
/// An interval that a zone skips has no border: it begins when the next one does.
pub fn local_borders(
    alloc: Global,
    interval: LocalInterval,
    zone: TimeZone,
) -> Result<Vec<u64>, AllocError>
    ensures { IfOk result (λ borders. AreBorders interval (plain_zone zone.entry) borders.items) }
{
    let mut borders = Vec::new(alloc);
    borders.push(0)?;
    for day in 0..LAST_DAY + 1 {
        push_start(&mut borders, start_on(interval, zone, day))?;
    }
    Ok(borders)
}

// When the interval that begins on a day, counted from 1970-01-01, begins, if one does.
fn start_on(interval: LocalInterval, zone: TimeZone, day: u32) -> Option<u64>
    requires { day ≤ LAST_DAY }
    ensures some { IfSome result (IsStart interval (plain_zone zone.entry) day) }
    ensures none { IfNone result (StartsNever interval (plain_zone zone.entry) day) }
{
    let date = date_of(day);
    if is_first_day(interval, date) {
        start_of(zone, date)
    } else {
        None
    }
}

// The date of a day, counted from 1970-01-01.
fn date_of(day: u32) -> Date
    requires { day ≤ LAST_DAY }
    ensures { epoch_day result ≡ pos day }
{
    match CivilDate::from_unix_epoch_day(i64::from(day)) {
        Ok(date) => Date::from_plain(date),
        Err(_) => unreachable!(),
    }
}

// Appends a time, if there is one that is later than the last.
fn push_start(borders: &mut Vec<u64>, start: Option<u64>) -> Result<(), AllocError>
    ensures { OnOk result (PushesStart borders.old.items start borders.new.items) }
{
    match start {
        Some(start) => push_later(borders, start),
        None => Ok(()),
    }
}

// Appends a time that is later than the last.
fn push_later(borders: &mut Vec<u64>, start: u64) -> Result<(), AllocError>
    ensures { OnOk result (PushesLater borders.old.items start borders.new.items) }
{
    if let Some(last) = borders.last()
        && *last >= start
    {
        return Ok(());
    }
    borders.push(start)?;
    Ok(())
}
