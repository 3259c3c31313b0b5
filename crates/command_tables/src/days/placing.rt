//! The days that periods begin in.

ghost use Rattle.std.specs.Prelude.{◌≡◌, ◌==◌, [], IfOk, OnOk, nat_lt};
ghost use Rattle.std.specs.List.{list_any};
ghost use Rattle.command_tables.specs.Days.{ArePlaced, IsPlaced, days_from, is_due as is_day_due, periods_in, with_day};

use super::calendar::{Calendar, day_of};
use recording_names::Period;
use std::alloc::{AllocError, Global};

/// A period, and the day or month that it begins in.
#[derive(Clone, Copy)]
pub struct PlacedPeriod {
    pub period: Period,
    pub day: Period,
}

/// These periods, each with the day that it begins in.
pub fn place_periods(
    alloc: Global,
    calendar: &Calendar,
    periods: &[Period],
) -> Result<Vec<PlacedPeriod>, AllocError>
    ensures { IfOk result (λ placed. ArePlaced calendar.now periods.now placed.items) }
{
    let mut placed = Vec::new(alloc);
    for period in periods {
        placed.push(place(calendar, *period))?;
    }
    Ok(placed)
}

fn place(calendar: &Calendar, period: Period) -> PlacedPeriod
    ensures { IsPlaced calendar.now period result }
{
    let day = day_of(calendar, period.begins);
    PlacedPeriod { period, day }
}

/// The days that these periods begin in, each once, in the order in which they come first.
pub fn days_of(alloc: Global, placed: &[PlacedPeriod]) -> Result<Vec<Period>, AllocError>
    ensures { IfOk result (λ days. days.items ≡ days_from [] placed.now) }
{
    let mut days = Vec::new(alloc);
    let mut left = placed;
    while let Some((one, rest)) = left.split_first() {
        add_day(&mut days, one.day)?;
        left = rest;
    }
    Ok(days)
}

// Appends a day that isn't there yet.
fn add_day(days: &mut Vec<Period>, day: Period) -> Result<(), AllocError>
    ensures { OnOk result (days.new.items ≡ with_day days.old.items day) }
{
    if has_day(days, day) {
        return Ok(());
    }
    days.push(day)?;
    Ok(())
}

fn has_day(days: &[Period], day: Period) -> bool
    ensures { result ≡ list_any (λ other. other.begins == day.begins) days.now }
{
    days.iter().any(|other| other.begins == day.begins)
}

/// Those that begin in a day, in the same order.
pub fn periods_of(
    alloc: Global,
    placed: &[PlacedPeriod],
    day: Period,
) -> Result<Vec<Period>, AllocError>
    ensures { IfOk result (λ periods. periods.items ≡ periods_in day.begins placed.now) }
{
    placed
        .iter()
        .filter(|one| one.day.begins == day.begins)
        .map(|one| one.period)
        .collect(alloc)
}

/// Whether a day is over: one of the periods begins in a later day, or the clock showed one an hour ago.
pub fn is_due(placed: &[PlacedPeriod], hour_ago: Period, day: Period) -> bool
    ensures { result ≡ is_day_due placed.now hour_ago.begins day.begins }
{
    day.begins < hour_ago.begins || has_later(placed, day)
}

// Whether one of the periods begins in a later day.
fn has_later(placed: &[PlacedPeriod], day: Period) -> bool
    ensures { result ≡ list_any (λ one. nat_lt day.begins one.day.begins) placed.now }
{
    placed.iter().any(|one| day.begins < one.day.begins)
}
