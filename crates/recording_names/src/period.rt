//! Periods of the clock.

ghost use Rattle.std.specs.Prelude.{◌≡◌, ◌<◌};
ghost use Rattle.recording_names.specs.PeriodNames.{calendar_end, period_start};

/// The first second after the year 9999, counted from 1970.
pub const CALENDAR_END: u64 = 253_402_300_800;

/// A period of the clock.
#[derive(Clone, Copy, Debug, PartialEq, Eq)]
pub struct Period {
    /// Its first second, counted from 1970 in UTC.
    pub begins: u64,
    ghost in_calendar: { begins < calendar_end },
}

/// The period of `every` seconds that a second since 1970 is in. Periods begin at the multiples of their
/// length. A second after the year 9999 is taken for the last of that year.
pub fn period_of(second: u64, every: u64) -> Period
    requires { 0 < every }
    ensures { result.begins ≡ period_start second every }
{
    Period {
        begins: second.min(CALENDAR_END - 1) / every * every,
    }
}
