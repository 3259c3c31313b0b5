//! Borders by rules of time zones in the form of POSIX, with values by `date -u` and by hand.

use jiff::tz::TimeZone;
use local_days::{LocalInterval, day_at, local_borders};
use std::alloc::Global;

/// The rules of Europe/Zurich, where the clock is set at 02:00 and 03:00.
const ZURICH: &str = "CET-1CEST,M3.5.0,M10.5.0/3";

/// Those of Asia/Kolkata, at half hours from UTC.
const KOLKATA: &str = "IST-5:30";

/// Those of America/Havana, where the clock skips a midnight.
const HAVANA: &str = "CST5CDT,M3.2.0/0,M11.1.0/1";

const UTC: &str = "UTC0";

// The border at a time, and the two after it.
fn borders_from(alloc: Global, interval: LocalInterval, rule: &str, time: u64) -> Option<[u64; 3]> {
    let zone = TimeZone::posix(rule).ok()?;
    let borders = local_borders(alloc, interval, zone).ok()?;
    let first = borders.binary_search(&time).ok()?;
    Some([
        *borders.get(first)?,
        *borders.get(first + 1)?,
        *borders.get(first + 2)?,
    ])
}

// How many borders there are, the second of them, and the last.
fn ends_of(alloc: Global, interval: LocalInterval, rule: &str) -> Option<(usize, u64, u64)> {
    let zone = TimeZone::posix(rule).ok()?;
    let borders = local_borders(alloc, interval, zone).ok()?;
    Some((borders.len(), *borders.get(1)?, *borders.last()?))
}

#[test]
fn days_and_months_begin_by_the_rules_of_a_zone(rt: HostRuntime) {
    for (interval, rule, borders) in [
        (
            LocalInterval::Day,
            ZURICH,
            [1_774_738_800_000, 1_774_821_600_000, 1_774_908_000_000],
        ),
        (
            LocalInterval::Day,
            ZURICH,
            [1_792_879_200_000, 1_792_969_200_000, 1_793_055_600_000],
        ),
        (
            LocalInterval::Day,
            KOLKATA,
            [1_768_501_800_000, 1_768_588_200_000, 1_768_674_600_000],
        ),
        (
            LocalInterval::Day,
            HAVANA,
            [1_772_859_600_000, 1_772_946_000_000, 1_773_028_800_000],
        ),
        (
            LocalInterval::Month,
            ZURICH,
            [1_772_319_600_000, 1_774_994_400_000, 1_777_586_400_000],
        ),
        (
            LocalInterval::Month,
            UTC,
            [1_769_904_000_000, 1_772_323_200_000, 1_775_001_600_000],
        ),
    ] {
        let found = borders_from(rt.alloc(), interval, rule, borders[0]);
        assert_eq!(rt; found, Some(borders));
    }
}

// Up to the day in which export times end, 2106-02-07.
#[test]
fn all_days_and_months_have_borders(rt: HostRuntime) {
    for (interval, rule, ends) in [
        (
            LocalInterval::Day,
            UTC,
            (49_711, 86_400_000, 4_294_944_000_000),
        ),
        (
            LocalInterval::Day,
            ZURICH,
            (49_711, 82_800_000, 4_294_940_400_000),
        ),
        (
            LocalInterval::Month,
            UTC,
            (1_634, 2_678_400_000, 4_294_425_600_000),
        ),
    ] {
        assert_eq!(rt; ends_of(rt.alloc(), interval, rule), Some(ends));
    }
}

// In Zurich 2025-10-26 has the hour from 02:00 twice; in Havana the clock shows 1969 as 1970 begins in UTC.
#[test]
fn seconds_are_in_the_day_and_month_that_the_clock_shows(rt: HostRuntime) {
    for (interval, rule, second, day) in [
        (LocalInterval::Day, ZURICH, 1_761_429_599, 20_386),
        (LocalInterval::Day, ZURICH, 1_761_429_600, 20_387),
        (LocalInterval::Day, ZURICH, 1_761_438_600, 20_387),
        (LocalInterval::Day, ZURICH, 1_761_442_200, 20_387),
        (LocalInterval::Day, ZURICH, 1_761_519_599, 20_387),
        (LocalInterval::Day, ZURICH, 1_761_519_600, 20_388),
        (LocalInterval::Month, ZURICH, 1_761_951_599, 20_362),
        (LocalInterval::Month, ZURICH, 1_761_951_600, 20_393),
        (LocalInterval::Day, UTC, 86_399, 0),
        (LocalInterval::Day, HAVANA, 0, 0),
        (LocalInterval::Month, HAVANA, 0, 0),
        (LocalInterval::Day, UTC, u64::MAX, 2_932_895),
    ] {
        let zone = TimeZone::posix(rule).ok();
        let found = zone.map(|zone| day_at(interval, zone, second));
        assert_eq!(rt; found, Some(day));
    }
}
