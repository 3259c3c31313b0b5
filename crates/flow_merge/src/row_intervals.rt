//! Intervals that rows are put in.

ghost use Rattle.std.specs.Prelude.{◌≡◌};
ghost use Rattle.flow_merge.specs.RowRecords.{CanTakeRows};

use flow_export::Intervals;

/// Intervals that rows can be put in.
#[derive(Drop)]
pub(crate) struct RowIntervals<'a> {
    pub intervals: Intervals<'a>,
    ghost ordered: { CanTakeRows intervals },
}

impl<'a> RowIntervals<'a> {
    /// These intervals.
    pub fn of(intervals: Intervals<'a>) -> RowIntervals<'a>
        requires { CanTakeRows intervals }
        ensures { result.intervals ≡ intervals.entry }
    {
        RowIntervals { intervals }
    }
}
