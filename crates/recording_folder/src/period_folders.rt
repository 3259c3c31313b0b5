//! The periods of folders, by their names.

ghost use Rattle.std.specs.Prelude.{IfOk, IfSome};
ghost use Rattle.recording_folder.specs.PeriodFolders.{IsPeriodOf};

use jiff_core::civil::Date;
use recording_names::{CALENDAR_END, Period, period_name};
use std::alloc::{AllocError, Global};

// The second since 1970 at which a period of this name may begin, if the parts of the name are numbers.
fn second_at(day: &str, time: &str) -> Option<u64> {
    let (year, rest) = day.split_once('-')?;
    let (month, day) = rest.split_once('-')?;
    let year = year.parse::<i16>().ok()?;
    let month = month.parse::<i8>().ok()?;
    let day = day.parse::<i8>().ok()?;
    let date = Date::new(year, month, day).ok()?;
    let days = u64::try_from(date.to_unix_epoch_day()).ok()?;
    let clock = u64::from(time.parse::<u32>().ok()?);
    let second = clock / 10_000 * 3_600 + clock / 100 % 100 * 60 + clock % 100;
    Some(days.saturating_mul(86_400).saturating_add(second))
}

/// The period whose folder has this name, in the folder of a day.
pub(crate) fn period_at(alloc: Global, day: &str, time: &str) -> Result<Option<Period>, AllocError>
    ensures { IfOk result (λ found. IfSome found (IsPeriodOf day.now time.now)) }
{
    let Some(begins) = second_at(day, time) else {
        return Ok(None);
    };
    if begins >= CALENDAR_END {
        return Ok(None);
    }
    let period = Period { begins };
    let name = period_name(alloc, period)?;
    let given = format!(in alloc; "{day}/{time}")?;
    if name.as_str() == given.as_str() {
        Ok(Some(period))
    } else {
        Ok(None)
    }
}
