//! A law of the definitions: a function that does nothing, and whose contract is the theorem.

ghost use Rattle.command_tables.specs.Days.{EachHasOneDay};

/// Each period begins in exactly one day and one month, also in an hour that the zone's clock shows twice.
pub fn periods_begin_in_one_day()
    ensures { EachHasOneDay }
{}
