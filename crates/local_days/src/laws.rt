//! A law of the definitions: a function that does nothing, and whose contract is the theorem.

ghost use Rattle.std.specs.Prelude.{◌≡◌, ℕ};
ghost use Rattle.jiff_tz.specs.declared.timezone.TimeZone.{TimeZone as PlainZone};
ghost use Rattle.local_days.specs.DaysShown.{IsDayAt};
ghost use Rattle.local_days.specs.declared.local_interval.LocalInterval.{LocalInterval as Interval};

/// Each second is in exactly one day and one month of a zone, also in an hour that the clock shows twice.
pub fn seconds_are_in_one_interval()
    ensures { (interval : Interval) (zone : PlainZone) (second day other : ℕ)
        → IsDayAt interval zone second day → IsDayAt interval zone second other → day ≡ other }
{}
