//! The days and the periods among the names in folders.

ghost use Rattle.std.specs.Prelude.{◌≡◌, ◌≢◌, ◌++◌, ℕ, List, codes, IfNone, IfOk, IfSome, MatchBool};
ghost use Rattle.recording_periods.specs.PeriodFolders.{HasNoPeriod};
ghost use Rattle.tables_folder.specs.FoundPeriods.{AreDaysOf, ArePeriodsOf, AreTablesOf, HasNoTable, IsDayName, IsTableAt};

use recording_names::Period;
use recording_periods::read_period_at;
use std::alloc::{AllocError, Global};
use std::collections::VecDeque;

/// The first second of a day, as the folder of a period has it.
const MIDNIGHT: &str = "000000";

/// Of these names those of days, in the same order.
pub(crate) fn days_among(alloc: Global, names: Vec<String>) -> Result<Vec<String>, AllocError>
    ensures { IfOk result (λ days. AreDaysOf names.items days.items) }
{
    let mut waiting = VecDeque::from_vec(names);
    let mut days = Vec::new(alloc);
    while let Some(name) = waiting.pop_front() {
        if is_day(name.as_str()) {
            days.push(name)?;
        }
    }
    Ok(days)
}

fn is_day(name: &str) -> bool
    ensures { MatchBool result (IsDayName name.now) (HasNoPeriod name.now (codes "000000")) }
{
    match read_period_at(name, MIDNIGHT) {
        Some(_) => true,
        None => false,
    }
}

/// The periods whose folders in that of a day have these names, in the same order.
pub(crate) fn periods_among(
    alloc: Global,
    day: &str,
    names: &[String],
) -> Result<Vec<Period>, AllocError>
    ensures { IfOk result (λ periods. ArePeriodsOf day.now names.now periods.items) }
{
    let mut periods = Vec::new(alloc);
    let mut left = names;
    while let Some((name, rest)) = left.split_first() {
        if let Some(period) = read_period_at(day, name.as_str()) {
            periods.push(period)?;
        }
        left = rest;
    }
    Ok(periods)
}

/// The periods whose tables in IPFIX in the folder of a day have these names, in the same order.
pub(crate) fn tables_among(
    alloc: Global,
    day: &str,
    names: &[String],
) -> Result<Vec<Period>, AllocError>
    ensures { IfOk result (λ periods. AreTablesOf day.now names.now periods.items) }
{
    let mut periods = Vec::new(alloc);
    let mut left = names;
    while let Some((name, rest)) = left.split_first() {
        if let Some(period) = table_period(day, name.as_str()) {
            periods.push(period)?;
        }
        left = rest;
    }
    Ok(periods)
}

// The period whose table has this name in the folder of a day.
fn table_period(day: &str, name: &str) -> Option<Period>
    ensures none { IfNone result (HasNoTable day.now name.now) }
    ensures table { IfSome result (λ period. IsTableAt period.begins day.now name.now) }
{
    match time_of(name) {
        Some(time) => read_period_at(day, time),
        None => None,
    }
}

fn time_of(name: &str) -> Option<&str>
    ensures none { IfNone result ((front : List ℕ) → name.now ≢ front ++ codes ".ipfix") }
    ensures time { IfSome result (λ time. name.now ≡ time.now ++ codes ".ipfix") }
{
    name.strip_suffix(".ipfix")
}
