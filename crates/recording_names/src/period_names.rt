//! The names of periods.

ghost use Rattle.std.specs.Prelude.{◌≡◌, ◌<◌, ◌++◌, codes, IfOk, OnOk};
ghost use Rattle.std.specs.String.{string_bytes};
ghost use Rattle.jiff_core.specs.declared.civil.date.Date.{Date};
ghost use Rattle.recording_names.specs.PeriodNames.{IsPeriodName, date_text, time_text, two_digits};

use crate::period::Period;
use jiff_core::civil::Date;
use std::alloc::{AllocError, Global};

const SECONDS_OF_A_DAY: u64 = 86_400;

/// The name of a period's folder: `YYYY-MM-DD/HHMMSS`, its beginning in UTC.
pub fn period_name(alloc: Global, period: Period) -> Result<String, AllocError>
    ensures { IfOk result (λ text. IsPeriodName period.begins (string_bytes text)) }
{
    let day = (period.begins / SECONDS_OF_A_DAY) as u32;
    let Ok(date) = Date::from_unix_epoch_day(i64::from(day)) else {
        unreachable!();
    };
    let mut text = String::new(alloc);
    push_date(&mut text, date)?;
    text.push_str("/")?;
    push_time(&mut text, (period.begins % SECONDS_OF_A_DAY) as u32)?;
    Ok(text)
}

// Appends YYYY-MM-DD.
fn push_date(text: &mut String, date: Date) -> Result<(), AllocError>
    ensures { OnOk result (string_bytes text.new ≡ string_bytes text.old ++ date_text date) }
{
    let year = date.year.unsigned_abs();
    push_two_digits(text, (year / 100) as u8)?;
    push_two_digits(text, (year % 100) as u8)?;
    text.push_str("-")?;
    push_two_digits(text, date.month)?;
    text.push_str("-")?;
    push_two_digits(text, date.day)
}

// Appends HHMMSS of a second of the day.
fn push_time(text: &mut String, second: u32) -> Result<(), AllocError>
    requires { second < 86_400 }
    ensures { OnOk result (string_bytes text.new ≡ string_bytes text.old ++ time_text second) }
{
    push_two_digits(text, (second / 3_600) as u8)?;
    push_two_digits(text, (second % 3_600 / 60) as u8)?;
    push_two_digits(text, (second % 60) as u8)
}

// Appends a number in two decimal digits.
fn push_two_digits(text: &mut String, number: u8) -> Result<(), AllocError>
    requires { number < 100 }
    ensures { OnOk result (string_bytes text.new ≡ string_bytes text.old ++ two_digits number) }
{
    text.push(char::from(b'0' + number / 10))?;
    text.push(char::from(b'0' + number % 10))
}
